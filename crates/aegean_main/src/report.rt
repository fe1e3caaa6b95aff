// The line that tells a status, made without taking memory.
ghost use Rattle.std.specs.Prelude.{◌≡◌, ◌≤◌, ◌++◌, length, codes};
ghost use Rattle.std.specs.Fmt.{decimal};
ghost use Rattle.aegean_main.specs.Status.{line_and_row, line_for};
ghost use Rattle.aegean_main.specs.Report.{Tells};

use crate::status::{LimitKind, Status};
use aeg_io::{Sink, put_all};
use arrayvec::ArrayString;
use itoa::Buffer;

/// A line's bytes at most: a text, the numbers of a line and a row, and what stands between.
const LINE_BYTES: usize = 64;

type Line = ArrayString<LINE_BYTES>;

fn fixed(text: &str) -> Line
    requires { length text.now ≤ LINE_BYTES }
    ensures { result.bytes ≡ text.now }
{
    let mut line = Line::new();
    line.push_str(text);
    line
}

/// A text, a row's number and the line's end.
fn with_row(text: &str, row: u8) -> Line
    requires { length text.now ≤ 20 }
    ensures { result.bytes ≡ text.now ++ (decimal row ++ codes "\n") }
{
    let mut digits = Buffer::new();
    let mut line = Line::new();
    line.push_str(text);
    line.push_str(digits.format(row));
    line.push_str("\n");
    line
}

/// A text, a line's number, a row's number and the line's end.
fn with_line_and_row(text: &str, number: u32, row: u8) -> Line
    requires { length text.now ≤ 20 }
    ensures { result.bytes ≡ line_and_row text.now number row }
{
    let mut digits = Buffer::new();
    let mut line = Line::new();
    line.push_str(text);
    line.push_str(digits.format(number));
    line.push_str(" row ");
    line.push_str(digits.format(row));
    line.push_str("\n");
    line
}

fn line_of_status(status: Status) -> Line
    ensures { result.bytes ≡ line_for status }
{
    match status {
        Status::Done => fixed(""),
        Status::Usage => fixed("usage: aegean single|replay|run|drill\n"),
        Status::Script { line, row } => with_line_and_row("script: line ", line, row),
        Status::Plan { row } => with_row("plan: row ", row),
        Status::ReadFault => fixed("read fault\n"),
        Status::WriteFault => fixed("write fault\n"),
        Status::Limit(LimitKind::Bytes) => fixed("limit bytes\n"),
        Status::Limit(LimitKind::Lines) => fixed("limit lines\n"),
        Status::Limit(LimitKind::Packets) => fixed("limit packets\n"),
        Status::Illegal { line, row } => with_line_and_row("illegal: line ", line, row),
        Status::Memory => fixed("out of memory\n"),
    }
}

/// Writes the line of the status. A sink that fails changes no status.
pub fn report<E: Sink>(err: &mut E, status: Status)
    ensures { Tells (line_for status) (E.taken err.old) (E.taken err.new) (E.faults err.old) (E.faults err.new) }
{
    let line = line_of_status(status);
    match put_all(err, line.as_str().as_bytes()) {
        Ok(()) => return,
        Err(_) => return,
    }
}
