// How a call ends.
ghost use Rattle.std.specs.Prelude.{◌≡◌};
ghost use Rattle.std.specs.Process.{exit_status};
ghost use Rattle.aegean_main.specs.Status.{code_of};

use std::process::ExitCode;

/// The limits that an input or a run can pass.
#[derive(Clone, Copy, Debug, PartialEq, Eq)]
pub enum LimitKind {
    Bytes,
    Lines,
    Packets,
}

/// How a call ends. A bad line and an illegal step are told by the line's number, from 1, and the row of the rule that
/// refuses them.
#[derive(Clone, Copy, Debug, PartialEq, Eq)]
pub enum Status {
    Done,
    Usage,
    Script { line: u32, row: u8 },
    Plan { row: u8 },
    ReadFault,
    WriteFault,
    Limit(LimitKind),
    Illegal { line: u32, row: u8 },
    Memory,
}

impl Status {
    /// The number that the process ends with.
    pub fn code(&self) -> u8
        ensures { result ≡ code_of self.now }
    {
        match self {
            Status::Done => 0,
            Status::Usage => 1,
            Status::Script { .. } | Status::Plan { .. } => 2,
            Status::ReadFault => 3,
            Status::WriteFault => 4,
            Status::Limit(_) => 5,
            Status::Illegal { .. } => 6,
            Status::Memory => 7,
        }
    }

    /// What `main` returns, so that the process ends with this number.
    pub fn exit_code(&self) -> ExitCode
        ensures { exit_status result ≡ code_of self.now }
    {
        ExitCode::from(self.code())
    }
}
