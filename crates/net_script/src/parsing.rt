// A script from its text.
ghost use Rattle.std.specs.Prelude.{◌≡◌, ◌∷◌, [], ◌+◌, ◌<◌, ◌≤◌, length, IfOk, IfSome, MatchOption, MatchResult};
ghost use Rattle.server_model.specs.Rests.{lines_left, size_left};
ghost use Rattle.server_model.specs.Words.{words_of};
ghost use Rattle.run_model.specs.Script.{line_of, header_in, Fails, events_in, headed, script_by, script_of};
ghost use Rattle.net_script.specs.Events.{AreProper, AreSizes};
ghost use Rattle.net_script.specs.Reading.{header_of as as_header, ReadsLine, IsRead};

use crate::header::{Heading, header_of};
use crate::lines::{is_blank, read_line};
use crate::refusal::{LineErr, NO_HEADER, ScriptErr};
use crate::script::Script;
use aeg_base::Seq;
use aeg_base::limits::{INPUT_BYTES, MAX_FAULTS};
use run_model::Event;
use server_model::next_line;
use std::alloc::Global;

/// The number of the first line that isn't passed over, and it with what is behind it; or the number after the last.
fn first_line(input: &[u8]) -> (u32, Option<(&[u8], Option<&[u8]>)>)
    requires { length input.now ≤ INPUT_BYTES }
    ensures is { MatchOption result.1 (script_of input.now ≡ Fails result.0 1) (λ found. script_of input.now ≡ headed (header_in (words_of found.0.now)) result.0 (lines_left found.1)) }
    ensures from_one { 1 ≤ result.0 }
    ensures within { IfSome result.1 (λ found. result.0 + size_left found.1 ≤ INPUT_BYTES + 1) }
{
    let mut rest = Some(input);
    let mut number = 1;
    'lines: while let Some((line, more)) = next_line(rest) {
        if !is_blank(line) {
            return (number, Some((line, more)));
        }
        number += 1;
        rest = more;
    }
    (number, None)
}

/// The header with the number of its line, and what is behind it.
fn read_header(input: &[u8]) -> Result<(Heading, u32, Option<&[u8]>), ScriptErr>
    requires { length input.now ≤ INPUT_BYTES }
    ensures is { MatchResult result (λ found. script_of input.now ≡ script_by (as_header found.0) (events_in found.0.u (found.1 + 1) (lines_left found.2))) (λ e. IsRead (script_of input.now) (Err e)) }
    ensures sizes { IfOk result (λ found. AreSizes found.0.u found.0.depth) }
    ensures from_one { IfOk result (λ found. 1 ≤ found.1) }
    ensures within { IfOk result (λ found. found.1 + size_left found.2 ≤ INPUT_BYTES + 1) }
{
    let (line, found) = first_line(input);
    let Some((text, rest)) = found else {
        return Err(ScriptErr::BadLine {
            line,
            row: NO_HEADER,
        });
    };
    let Some(heading) = header_of(text) else {
        return Err(ScriptErr::BadLine {
            line,
            row: NO_HEADER,
        });
    };
    Ok((heading, line, rest))
}

/// Adds the event of a line, if it is one.
fn add_line(
    alloc: Global,
    u: u8,
    number: u32,
    line: &[u8],
    events: &mut Seq<(u32, Event)>,
) -> Result<(), ScriptErr>
    requires { u ≤ MAX_FAULTS }
    ensures is { ReadsLine number (line_of u line.now) events.old events.new result }
    ensures proper { AreProper u events.old → IfOk result (λ _. AreProper u events.new) }
    ensures one { IfOk result (λ _. length events.new ≤ length events.old + 1) }
{
    if is_blank(line) {
        return Ok(());
    }
    let event = match read_line(alloc, u, line) {
        Ok(event) => event,
        Err(LineErr::Row(row)) => return Err(ScriptErr::BadLine { line: number, row }),
        Err(LineErr::Memory) => return Err(ScriptErr::Memory),
    };
    events.push((number, event))?;
    Ok(())
}

/// The events of the lines behind a header, the first of which has this number.
fn read_events(
    alloc: Global,
    u: u8,
    first: u32,
    behind: Option<&[u8]>,
) -> Result<Seq<(u32, Event)>, ScriptErr>
    requires faults { u ≤ MAX_FAULTS }
    requires within { first + size_left behind ≤ INPUT_BYTES + 2 }
    ensures is { IsRead (events_in u first (lines_left behind.entry)) result }
    ensures proper { IfOk result (AreProper u) }
    ensures few { IfOk result (λ events. first + length events ≤ INPUT_BYTES + 2) }
{
    let mut events = Seq::new(alloc);
    let mut rest = behind;
    let mut number = first;
    'lines: while let Some((line, more)) = next_line(rest) {
        add_line(alloc, u, number, line, &mut events)?;
        number += 1;
        rest = more;
    }
    Ok(events)
}

/// The script that the text is, or its first line that is refused.
pub fn parse_script(alloc: Global, bytes: &[u8]) -> Result<Script, ScriptErr>
    requires { length bytes.now ≤ INPUT_BYTES }
    ensures { IsRead (script_of bytes.now) result }
{
    let (heading, line, rest) = read_header(bytes)?;
    let events = read_events(alloc, heading.u, line + 1, rest)?;
    Ok(Script::of(heading.u, heading.depth, events))
}
