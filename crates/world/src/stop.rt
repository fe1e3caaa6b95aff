// Why a run ends before its script does.
use aeg_base::Memory;
use thiserror::Error;

/// Why a call of a world answered no more: an event would begin with too many packets, or memory ran out, which ends the
/// world.
#[derive(Clone, Copy, Debug, PartialEq, Eq, Error)]
pub enum Stop {
    #[error("an event would begin with too many packets")]
    Limit,
    #[error("there is no memory")]
    Memory,
}

impl From<Memory> for Stop {
    ghost use Rattle.std.specs.Prelude.{◌≡◌};
    ghost use Rattle.world.specs.declared.stop.Stop.TheVariants as stops;

    ghost from_gives = { λ _ e. e ≡ stops.Memory };

    fn from(_: Memory) -> Self {
        Stop::Memory
    }
}
