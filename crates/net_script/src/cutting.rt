// The lines during which a disk is stopped.
ghost use Rattle.std.specs.Prelude.{◌≡◌, ◌≤◌, IfSome};
ghost use Rattle.server_model.specs.Further.{further_parts};
ghost use Rattle.run_model.specs.Script.{cut_in, cut_line_in, keep_in};
ghost use Rattle.net_script.specs.Events.{IsCutInRange, IsInRange, IsPlayable};

use crate::words::{node_of, packet_of};
use run_model::{CutLine, Event};
use server_model::{next_part, number};

/// The last of the writes and syncs of an event.
const LAST_CALL: u32 = 4;

/// `keep` or `drop`
fn keep_of(word: &[u8]) -> Option<bool>
    ensures { result ≡ keep_in word.now }
{
    if word == b"keep".as_slice() {
        return Some(true);
    }
    if word == b"drop".as_slice() {
        return Some(false);
    }
    None
}

/// `deliver PACKET`, `lead NODE` or `offer NODE`
fn cut_line_of(rest: Option<&[u8]>) -> Option<CutLine>
    ensures is { result ≡ cut_line_in (further_parts 32 rest.entry) }
    ensures in_range { IfSome result IsCutInRange }
{
    let (command, rest) = next_part(rest, b' ')?;
    let (word, rest) = next_part(rest, b' ')?;
    if let Some(_) = next_part(rest, b' ') {
        return None;
    }
    if command == b"deliver".as_slice() {
        let packet = packet_of(word)?;
        return Some(CutLine::Deliver { packet });
    }
    if command == b"lead".as_slice() {
        let node = node_of(word)?;
        return Some(CutLine::Lead { node });
    }
    if command == b"offer".as_slice() {
        let node = node_of(word)?;
        return Some(CutLine::Offer { node });
    }
    None
}

/// `NTH keep LINE` or `NTH drop LINE`
pub fn cut_of(rest: Option<&[u8]>) -> Option<Event>
    ensures is { result ≡ cut_in (further_parts 32 rest.entry) }
    ensures in_range { IfSome result IsInRange }
    ensures playable { IfSome result IsPlayable }
{
    let (nth, rest) = next_part(rest, b' ')?;
    let (keep, rest) = next_part(rest, b' ')?;
    let nth = number(nth, 1, LAST_CALL)? as u8;
    let keep = keep_of(keep)?;
    let line = cut_line_of(rest)?;
    Some(Event::Cut { nth, keep, line })
}
