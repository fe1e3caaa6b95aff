// What a line of a script is.
ghost use Rattle.std.specs.Prelude.{◌≡◌, ◌≤◌, Some, None, false, IfOk, IfSome};
ghost use Rattle.server_model.specs.Further.{further_parts};
ghost use Rattle.server_model.specs.Words.{words_of};
ghost use Rattle.run_model.specs.Script.{is_blank as blank, is_later_command as later_command, submit_in, line_with, event_in, command_line, line_in};
ghost use Rattle.net_script.specs.Events.{IsInRange, IsPlayable, IsProper};
ghost use Rattle.net_script.specs.Reading.{IsLine, IsCommand, is_power};

use crate::commands::{
    alone, crash_of, deliver_of, is_later, lead_of, offer_of, restart_of, retry_of, short_of,
    submit_of, wipe_of,
};
use crate::cutting::cut_of;
use crate::placing::{is_asked, is_placed};
use crate::refusal::{LATER, LineErr, NO_NODE, NO_REQUEST, UNKNOWN_COMMAND, WORDS};
use aeg_base::limits::MAX_FAULTS;
use aeg_base::{Bytes, Memory};
use run_model::Event;
use server_model::first_part;
use std::alloc::Global;

/// An event whose nodes are in the tiers and whose text is a request.
fn placed(u: u8, event: Option<Event>) -> Result<Event, LineErr>
    requires faults { u ≤ MAX_FAULTS }
    requires in_range { IfSome event IsInRange }
    requires playable { IfSome event IsPlayable }
    ensures is { IsLine (line_with u (Some event)) result }
    ensures proper { IfOk result (IsProper u) }
{
    let Some(event) = event else {
        return Err(LineErr::Row(WORDS));
    };
    if !is_placed(u, &event) {
        return Err(LineErr::Row(NO_NODE));
    }
    if !is_asked(&event) {
        return Err(LineErr::Row(NO_REQUEST));
    }
    Ok(event)
}

/// A submit with a text of its own.
fn submitted(alloc: Global, rest: Option<&[u8]>) -> Result<Option<Event>, Memory>
    ensures is { IfOk result (λ event. event ≡ submit_in (further_parts 32 rest.entry)) }
    ensures in_range { IfOk result (λ event. IfSome event IsInRange) }
    ensures playable { IfOk result (λ event. IfSome event IsPlayable) }
{
    let Some((client, text)) = submit_of(rest) else {
        return Ok(None);
    };
    let body = Bytes::of(Vec::from_slice(alloc, text)?);
    Ok(Some(Event::Submit { client, body }))
}

/// The event of a command of a node's or a disk's power, where its words are right; none where it is no such command.
fn power_event(command: &[u8], rest: Option<&[u8]>) -> Option<Option<Event>>
    ensures is { IfSome result (λ event. event_in command.now (further_parts 32 rest.entry) ≡ Some event) }
    ensures in_range { IfSome result (λ event. IfSome event IsInRange) }
    ensures playable { IfSome result (λ event. IfSome event IsPlayable) }
    ensures none { result ≡ None → is_power command.now ≡ false }
{
    if command == b"cut".as_slice() {
        return Some(cut_of(rest));
    }
    if command == b"crash".as_slice() {
        return Some(crash_of(rest));
    }
    if command == b"restart".as_slice() {
        return Some(restart_of(rest));
    }
    if command == b"wipe".as_slice() {
        return Some(wipe_of(rest));
    }
    None
}

/// The event of a command, where its words are right.
fn event_of(alloc: Global, command: &[u8], rest: Option<&[u8]>) -> Result<Option<Event>, LineErr>
    requires { later_command command.now ≡ false }
    ensures is { IsCommand (event_in command.now (further_parts 32 rest.entry)) result }
    ensures in_range { IfOk result (λ event. IfSome event IsInRange) }
    ensures playable { IfOk result (λ event. IfSome event IsPlayable) }
{
    if let Some(event) = power_event(command, rest) {
        return Ok(event);
    }
    if command == b"submit".as_slice() {
        return Ok(submitted(alloc, rest)?);
    }
    if command == b"deliver".as_slice() {
        return Ok(deliver_of(rest));
    }
    if command == b"short".as_slice() {
        return Ok(short_of(rest));
    }
    if command == b"lead".as_slice() {
        return Ok(lead_of(rest));
    }
    if command == b"offer".as_slice() {
        return Ok(offer_of(rest));
    }
    if command == b"retry".as_slice() {
        return Ok(retry_of(rest));
    }
    if command == b"flow".as_slice() {
        return Ok(alone(rest, Event::Flow));
    }
    if command == b"lose".as_slice() {
        return Ok(alone(rest, Event::Lose));
    }
    Err(LineErr::Row(UNKNOWN_COMMAND))
}

/// The event of a command with its words.
fn command_of(alloc: Global, u: u8, command: &[u8], rest: Option<&[u8]>) -> Result<Event, LineErr>
    requires { u ≤ MAX_FAULTS }
    ensures is { IsLine (command_line u command.now (further_parts 32 rest.entry)) result }
    ensures proper { IfOk result (IsProper u) }
{
    if is_later(command, rest) {
        return Err(LineErr::Row(LATER));
    }
    let event = event_of(alloc, command, rest)?;
    placed(u, event)
}

/// Whether a line is passed over: it is empty, or begins with `#`.
pub fn is_blank(line: &[u8]) -> bool
    ensures { result ≡ blank line.now }
{
    line.is_empty() || line[0] == b'#'
}

/// The event that a line is.
pub fn read_line(alloc: Global, u: u8, line: &[u8]) -> Result<Event, LineErr>
    requires { u ≤ MAX_FAULTS }
    ensures is { IsLine (line_in u (words_of line.now)) result }
    ensures proper { IfOk result (IsProper u) }
{
    let (command, rest) = first_part(line, b' ');
    command_of(alloc, u, command, rest)
}
