// The rows of a backend node.
ghost use Rattle.std.specs.Prelude.{◌≡◌, ℕ, ◌+◌, ◌*◌, ◌<◌, ◌≤◌, List};
ghost use Rattle.aeg_base.specs.declared.names.End.{End};
ghost use Rattle.aeg_base.specs.declared.names.Tier.{Tier};
ghost use Rattle.svc_api.specs.Plan.{IsBackend};
ghost use Rattle.log_model.specs.Log.{open_at};
ghost use Rattle.log_model.specs.Recover.{newest};
ghost use Rattle.log_values.specs.declared.fact.Fact.{Fact};
ghost use Rattle.frames.specs.declared.message.Msg.{Msg};
ghost use Rattle.frames.specs.Frames.{FitsFrame};
ghost use Rattle.fact_journal.specs.Fitting.{Fit, all_facts, open_after_all};
ghost use Rattle.round_model.specs.Service.{Service};
ghost use Rattle.tier_model.specs.Kinds.{State, kind};
ghost use Rattle.row_laws.specs.Services.{IsBackendIn};
ghost use Rattle.row_laws.specs.States.{IsStateIn, IsMoveIn, log_of};

/// A node of a backend whose codes are bytes: each row makes of a state in range another one, and sends what is taken and
/// has a frame. What it writes down fits. A restart from records that fit leaves a state in range.
pub fn backend_rows<B>()
    ensures frames { (s : Service B) (u depth x : ℕ) (t : Tier) (σ : State B t) (from : End) (message : Msg) → u ≤ 2 → x < 2 * u + 1 → IsBackend t
        → IsBackendIn (s.backend t) → IsStateIn s u depth t x σ → FitsFrame from message → IsMoveIn s u depth t x σ ((kind u s depth t x).on_frame from message σ) }
    ensures leading { (s : Service B) (u depth x : ℕ) (t : Tier) (σ : State B t) → u ≤ 2 → x < 2 * u + 1 → IsBackend t → IsBackendIn (s.backend t)
        → IsStateIn s u depth t x σ → IsMoveIn s u depth t x σ ((kind u s depth t x).leads σ) }
    ensures offering { (s : Service B) (u depth x : ℕ) (t : Tier) (σ : State B t) → u ≤ 2 → x < 2 * u + 1 → IsBackend t → IsBackendIn (s.backend t)
        → IsStateIn s u depth t x σ → IsMoveIn s u depth t x σ ((kind u s depth t x).offers σ) }
    ensures retries { (s : Service B) (u depth x : ℕ) (t : Tier) (σ : State B t) → u ≤ 2 → x < 2 * u + 1 → IsBackend t
        → IsStateIn s u depth t x σ → IsMoveIn s u depth t x σ ((kind u s depth t x).retry σ) }
    ensures restored { (s : Service B) (u depth x : ℕ) (t : Tier) (rs : List (List Fact)) → IsBackend t → IsBackendIn (s.backend t) → Fit t rs
        → IsStateIn s u depth t x ((kind u s depth t x).recovered (newest rs)) }
    ensures opened { (s : Service B) (u depth x : ℕ) (t : Tier) (rs : List (List Fact)) → IsBackend t
        → open_at (log_of B t ((kind u s depth t x).recovered (newest rs))) ≡ open_after_all 0 (all_facts rs) }
{}
