// The laws of running a job.
ghost use Rattle.std.specs.Prelude.{◌≡◌, ℕ, List, length};
ghost use Rattle.aeg_base.specs.Store.{Store};
ghost use Rattle.exec_model.specs.declared.job.Seg.{Seg};
ghost use Rattle.exec_model.specs.Machine.{concat};
ghost use Rattle.exec_model.specs.Groups.{IsOrder};
ghost use Rattle.exec_model.specs.Jobs.{Beginnings, plan_at, groups_of, run_job, serial_store, serial_ends};
ghost use Rattle.exec_model.specs.Spell.{AreSame, spell};

/// Whatever the schedule, a run finishes each segment once, and has the store and the ends of the segments run one
/// after another in the order of finishing. The steps that it made lead to the same run again.
pub fn serial_outcome()
    ensures order { (begins : Beginnings) (segs : List Seg) (s : Store) (schedule : List ℕ) → IsOrder (length segs) (run_job begins segs s schedule).order }
    ensures store { (begins : Beginnings) (segs : List Seg) (s : Store) (schedule : List ℕ) → (run_job begins segs s schedule).store ≡ serial_store begins segs s (run_job begins segs s schedule).order }
    ensures ends { (begins : Beginnings) (segs : List Seg) (s : Store) (schedule : List ℕ) → (run_job begins segs s schedule).ends ≡ serial_ends begins segs s (run_job begins segs s schedule).order }
    ensures steps { (begins : Beginnings) (segs : List Seg) (s : Store) (schedule : List ℕ) → run_job begins segs s (run_job begins segs s schedule).steps ≡ run_job begins segs s schedule }
{}

/// A schedule that runs whole segments one after another, each group's in any order, meets no held lock, makes just
/// its own steps and gives just that order.
pub fn whole_segments()
    ensures order { (begins : Beginnings) (segs : List Seg) (s : Store) (os : List (List ℕ)) → AreSame os (groups_of begins segs) → IsOrder (length segs) (concat os) → (run_job begins segs s (spell (plan_at begins segs) s (concat os))).order ≡ concat os }
    ensures redo { (begins : Beginnings) (segs : List Seg) (s : Store) (os : List (List ℕ)) → AreSame os (groups_of begins segs) → IsOrder (length segs) (concat os) → (run_job begins segs s (spell (plan_at begins segs) s (concat os))).redo ≡ 0 }
    ensures steps { (begins : Beginnings) (segs : List Seg) (s : Store) (os : List (List ℕ)) → AreSame os (groups_of begins segs) → IsOrder (length segs) (concat os) → (run_job begins segs s (spell (plan_at begins segs) s (concat os))).steps ≡ spell (plan_at begins segs) s (concat os) }
{}
