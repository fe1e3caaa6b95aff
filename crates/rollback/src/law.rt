// What a Commit leaves, that outcomes have tokens, and that stores hold their numbers.
ghost use Rattle.std.specs.Prelude.{◌≡◌, ◌≤◌, ℕ, List, length};
ghost use Rattle.std.specs.List.{All};
ghost use Rattle.aeg_base.specs.Store.{Store};
ghost use Rattle.svc_api.specs.declared.outcome.Outcome.{Outcome};
ghost use Rattle.exec_model.specs.declared.job.Seg.{Seg};
ghost use Rattle.exec_model.specs.Groups.{IsOrder};
ghost use Rattle.exec_model.specs.Jobs.{Beginnings, run_job, serial_store, AreProper};
ghost use Rattle.exec_core.specs.Jobs.{BeginsWell};
ghost use Rattle.log_values.specs.Outcomes.{FitsOutcome};
ghost use Rattle.log_values.specs.declared.mid_value.Verdict.TheVariants.{Commit};
ghost use Rattle.rollback.specs.Runs.{AreNumbers};
ghost use Rattle.rollback.specs.Settled.{Settled, IsTokenOf, serial_outcome};

/// A Commit with the token of the segments run one after another in some order leaves their store, and their outcome.
pub fn commit_is_serial()
    ensures store { (begins : Beginnings) (segs : List Seg) (token order places : List ℕ) (s t : Store) (o : Outcome) → IsTokenOf begins segs s order token → Settled begins segs (Commit token places) s t o → t ≡ serial_store begins segs s order }
    ensures outcome { (begins : Beginnings) (segs : List Seg) (token order places : List ℕ) (s t : Store) (o : Outcome) → IsTokenOf begins segs s order token → Settled begins segs (Commit token places) s t o → o ≡ serial_outcome begins segs s order }
{}

/// The outcome of segments within their limits, one after another in an order, has a token.
pub fn outcomes_have_tokens()
    ensures { (begins : Beginnings) (segs : List Seg) (s : Store) (order : List ℕ) → AreProper begins → All (BeginsWell begins) segs → length segs ≤ 32 → AreNumbers s → IsOrder (length segs) order → FitsOutcome (serial_outcome begins segs s order) }
{}

/// A run of segments within their limits leaves numbers that a store can hold.
pub fn runs_keep_numbers()
    ensures { (begins : Beginnings) (segs : List Seg) (s : Store) (schedule : List ℕ) → AreProper begins → All (BeginsWell begins) segs → AreNumbers s → AreNumbers (run_job begins segs s schedule).store }
{}
