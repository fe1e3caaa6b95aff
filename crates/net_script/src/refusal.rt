// Why a script isn't read.
use aeg_base::Memory;
use thiserror::Error;

/// The rule of the header: the first line that isn't passed over is `tiers U depth D`.
pub const NO_HEADER: u8 = 1;

/// The rule of the first word of a line.
pub const UNKNOWN_COMMAND: u8 = 2;

/// The rule of a line's words, their number and their ranges.
pub const WORDS: u8 = 3;

/// The rule of the nodes that a line names.
pub const NO_NODE: u8 = 4;

/// The rule of the text of a submit.
pub const NO_REQUEST: u8 = 5;

/// The rule of commands and requests of which the program knows nothing yet.
pub const LATER: u8 = 9;

/// Why a script isn't read.
#[derive(Clone, Copy, Debug, PartialEq, Eq, Error)]
pub enum ScriptErr {
    /// The first line that is refused, counted from 1, and the rule.
    #[error("line {line} is refused by rule {row}")]
    BadLine { line: u32, row: u8 },
    #[error("there is no memory")]
    Memory,
}

/// Why a line isn't read.
#[derive(Clone, Copy, Debug, PartialEq, Eq, Error)]
pub enum LineErr {
    #[error("refused by rule {0}")]
    Row(u8),
    #[error("there is no memory")]
    Memory,
}

impl From<Memory> for ScriptErr {
    ghost use Rattle.std.specs.Prelude.{◌≡◌};
    ghost use Rattle.net_script.specs.declared.refusal.ScriptErr.TheVariants as errs;

    ghost from_gives = { λ _ e. e ≡ errs.Memory };

    fn from(_: Memory) -> Self {
        ScriptErr::Memory
    }
}

impl From<Memory> for LineErr {
    ghost use Rattle.std.specs.Prelude.{◌≡◌};
    ghost use Rattle.net_script.specs.declared.refusal.LineErr.TheVariants as errs;

    ghost from_gives = { λ _ e. e ≡ errs.Memory };

    fn from(_: Memory) -> Self {
        LineErr::Memory
    }
}
