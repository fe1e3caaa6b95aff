// The rows of a middle node.
ghost use Rattle.std.specs.Prelude.{◌≡◌, ℕ, ◌+◌, ◌*◌, ◌<◌, ◌≤◌, List};
ghost use Rattle.aeg_base.specs.declared.names.End.{End};
ghost use Rattle.aeg_base.specs.declared.names.Tier.TheVariants.{Mid as InMid};
ghost use Rattle.log_model.specs.Log.{open_at};
ghost use Rattle.log_model.specs.Recover.{newest};
ghost use Rattle.log_values.specs.declared.fact.Fact.{Fact};
ghost use Rattle.frames.specs.declared.message.Msg.{Msg};
ghost use Rattle.frames.specs.Frames.{FitsFrame};
ghost use Rattle.fact_journal.specs.Fitting.{Fit, all_facts, open_after_all};
ghost use Rattle.round_model.specs.Service.{Service};
ghost use Rattle.tier_model.specs.Mid.{Mid};
ghost use Rattle.tier_model.specs.MidRows.{work};
ghost use Rattle.tier_model.specs.Kinds.{kind};
ghost use Rattle.row_laws.specs.Services.{IsServiceIn};
ghost use Rattle.row_laws.specs.Mids.{IsMidIn};
ghost use Rattle.row_laws.specs.States.{IsMoveIn};

/// A middle node of a service that keeps to its limits: each row makes of a state in range another one, and sends what is
/// taken and has a frame; so does work, by any schedule. What it writes down fits. A restart from records that fit leaves
/// a state in range.
pub fn middle_rows<B>()
    ensures frames { (s : Service B) (u depth x : ℕ) (σ : Mid) (from : End) (message : Msg) → u ≤ 2 → x < 2 * u + 1 → IsServiceIn s.programs
        → IsMidIn s.programs u depth x σ → FitsFrame from message → IsMoveIn s u depth InMid x σ ((kind u s depth InMid x).on_frame from message σ) }
    ensures leading { (s : Service B) (u depth x : ℕ) (σ : Mid) → u ≤ 2 → x < 2 * u + 1 → IsServiceIn s.programs
        → IsMidIn s.programs u depth x σ → IsMoveIn s u depth InMid x σ ((kind u s depth InMid x).leads σ) }
    ensures offering { (s : Service B) (u depth x : ℕ) (σ : Mid) → u ≤ 2 → x < 2 * u + 1 → IsServiceIn s.programs
        → IsMidIn s.programs u depth x σ → IsMoveIn s u depth InMid x σ ((kind u s depth InMid x).offers σ) }
    ensures retries { (s : Service B) (u depth x : ℕ) (σ : Mid) → u ≤ 2 → x < 2 * u + 1
        → IsMidIn s.programs u depth x σ → IsMoveIn s u depth InMid x σ ((kind u s depth InMid x).retry σ) }
    ensures works { (s : Service B) (u depth x : ℕ) (σ : Mid) (schedule : List ℕ) → u ≤ 2 → x < 2 * u + 1 → IsServiceIn s.programs
        → IsMidIn s.programs u depth x σ → IsMoveIn s u depth InMid x σ (work u s.programs x σ schedule) }
    ensures restored { (s : Service B) (u depth x : ℕ) (rs : List (List Fact)) → 1 ≤ depth → IsServiceIn s.programs → Fit InMid rs
        → IsMidIn s.programs u depth x ((kind u s depth InMid x).recovered (newest rs)) }
    ensures opened { (s : Service B) (u depth x : ℕ) (rs : List (List Fact))
        → open_at ((kind u s depth InMid x).recovered (newest rs)).log ≡ open_after_all 0 (all_facts rs) }
{}
