// Why nothing was read.
ghost use Rattle.std.specs.Prelude.{◌≡◌};
ghost use Rattle.log_values.specs.declared.misread.Misread.TheVariants as misread;

use std::alloc::{AllocError, AllocFailed};

/// Why nothing was read.
#[derive(Clone, Copy, Debug, PartialEq, Eq)]
pub enum Misread {
    /// There was no memory for it.
    Memory,
    /// The bytes are outside the grammar.
    Outside,
}

impl From<AllocError> for Misread {
    ghost from_gives = { λ _ e. e ≡ misread.Memory };

    fn from(_: AllocError) -> Self {
        Misread::Memory
    }
}

impl<T: Drop> From<AllocFailed<T>> for Misread {
    ghost from_gives = { λ _ e. e ≡ misread.Memory };

    fn from(_: AllocFailed<T>) -> Self {
        Misread::Memory
    }
}

impl From<aeg_base::Memory> for Misread {
    ghost from_gives = { λ _ e. e ≡ misread.Memory };

    fn from(_: aeg_base::Memory) -> Self {
        Misread::Memory
    }
}
