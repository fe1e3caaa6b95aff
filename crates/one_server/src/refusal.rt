// Why a step isn't made.
use aeg_base::Memory;
use std::alloc::AllocError;
use thiserror::Error;

/// Why a step isn't made.
#[derive(Clone, Copy, Debug, PartialEq, Eq, Error)]
pub enum StepErr {
    /// The step is refused by this rule.
    #[error("refused by rule {row}")]
    Illegal { row: u8 },
    #[error("there is no memory")]
    Memory,
}

impl From<Memory> for StepErr {
    ghost use Rattle.std.specs.Prelude.{◌≡◌};
    ghost use Rattle.one_server.specs.declared.refusal.StepErr.TheVariants as errs;

    ghost from_gives = { λ _ e. e ≡ errs.Memory };

    fn from(_: Memory) -> Self {
        StepErr::Memory
    }
}

impl From<AllocError> for StepErr {
    ghost use Rattle.std.specs.Prelude.{◌≡◌};
    ghost use Rattle.one_server.specs.declared.refusal.StepErr.TheVariants as errs;

    ghost from_gives = { λ _ e. e ≡ errs.Memory };

    fn from(_: AllocError) -> Self {
        StepErr::Memory
    }
}
