// The words behind a line's command.
ghost use Rattle.std.specs.Prelude.{◌≡◌, ◌≤◌, List, ℕ, IfSome, option_map};
ghost use Rattle.aeg_base.specs.declared.names.NodeId.{NodeId};
ghost use Rattle.server_model.specs.Further.{further_parts};
ghost use Rattle.run_model.specs.declared.line.Event.{Event};
ghost use Rattle.run_model.specs.declared.line.Event.TheVariants.{Submit, Lead, Offer, Crash, Restart, Wipe};
ghost use Rattle.run_model.specs.Script.{submit_in, deliver_in, short_in, at_node, retry_in, alone as alone_in, is_later_command as later_command, is_later_submit as later_submit, is_later as later};
ghost use Rattle.net_script.specs.Events.{IsInRange, IsPlayable};
ghost use Rattle.log_values.specs.Fields.{IsClient};

use crate::words::{client_number, end_of, node_of, packet_of};
use aeg_base::NodeId;
use run_model::Event;
use server_model::{next_part, number};

/// So many bytes of a frame at most are asked for: its header and the longest body.
const FRAME_BYTES: u32 = 8_198;

/// `CLIENT REQUEST`, the request being all that follows.
pub fn submit_of(rest: Option<&[u8]>) -> Option<(u8, &[u8])>
    ensures is { option_map (λ asked. Submit asked.0 asked.1.now) result ≡ submit_in (further_parts 32 rest.entry) }
    ensures client { IfSome result (λ asked. IsClient asked.0) }
{
    let (client, rest) = next_part(rest, b' ')?;
    let body = rest?;
    if body.is_empty() {
        return None;
    }
    let client = client_number(client)?;
    Some((client, body))
}

/// `PACKET`
pub fn deliver_of(rest: Option<&[u8]>) -> Option<Event>
    ensures is { result ≡ deliver_in (further_parts 32 rest.entry) }
    ensures in_range { IfSome result IsInRange }
    ensures playable { IfSome result IsPlayable }
{
    let (packet, rest) = next_part(rest, b' ')?;
    if let Some(_) = next_part(rest, b' ') {
        return None;
    }
    let packet = packet_of(packet)?;
    Some(Event::Deliver { packet })
}

/// `PACKET BYTES`
pub fn short_of(rest: Option<&[u8]>) -> Option<Event>
    ensures is { result ≡ short_in (further_parts 32 rest.entry) }
    ensures in_range { IfSome result IsInRange }
    ensures playable { IfSome result IsPlayable }
{
    let (packet, rest) = next_part(rest, b' ')?;
    let (bytes, rest) = next_part(rest, b' ')?;
    if let Some(_) = next_part(rest, b' ') {
        return None;
    }
    let packet = packet_of(packet)?;
    let bytes = number(bytes, 0, FRAME_BYTES)?;
    Some(Event::Short { packet, bytes })
}

/// `NODE`
fn only_node(rest: Option<&[u8]>) -> Option<NodeId>
    ensures { (command : NodeId → Event) → at_node command (further_parts 32 rest.entry) ≡ option_map command result }
{
    let (node, rest) = next_part(rest, b' ')?;
    if let Some(_) = next_part(rest, b' ') {
        return None;
    }
    node_of(node)
}

pub fn lead_of(rest: Option<&[u8]>) -> Option<Event>
    ensures is { result ≡ at_node (λ n. Lead n) (further_parts 32 rest.entry) }
    ensures in_range { IfSome result IsInRange }
    ensures playable { IfSome result IsPlayable }
{
    let node = only_node(rest)?;
    Some(Event::Lead { node })
}

pub fn offer_of(rest: Option<&[u8]>) -> Option<Event>
    ensures is { result ≡ at_node (λ n. Offer n) (further_parts 32 rest.entry) }
    ensures in_range { IfSome result IsInRange }
    ensures playable { IfSome result IsPlayable }
{
    let node = only_node(rest)?;
    Some(Event::Offer { node })
}

pub fn crash_of(rest: Option<&[u8]>) -> Option<Event>
    ensures is { result ≡ at_node (λ n. Crash n) (further_parts 32 rest.entry) }
    ensures in_range { IfSome result IsInRange }
    ensures playable { IfSome result IsPlayable }
{
    let node = only_node(rest)?;
    Some(Event::Crash { node })
}

pub fn restart_of(rest: Option<&[u8]>) -> Option<Event>
    ensures is { result ≡ at_node (λ n. Restart n) (further_parts 32 rest.entry) }
    ensures in_range { IfSome result IsInRange }
    ensures playable { IfSome result IsPlayable }
{
    let node = only_node(rest)?;
    Some(Event::Restart { node })
}

pub fn wipe_of(rest: Option<&[u8]>) -> Option<Event>
    ensures is { result ≡ at_node (λ n. Wipe n) (further_parts 32 rest.entry) }
    ensures in_range { IfSome result IsInRange }
    ensures playable { IfSome result IsPlayable }
{
    let node = only_node(rest)?;
    Some(Event::Wipe { node })
}

/// `END`
pub fn retry_of(rest: Option<&[u8]>) -> Option<Event>
    ensures is { result ≡ retry_in (further_parts 32 rest.entry) }
    ensures in_range { IfSome result IsInRange }
    ensures playable { IfSome result IsPlayable }
{
    let (end, rest) = next_part(rest, b' ')?;
    if let Some(_) = next_part(rest, b' ') {
        return None;
    }
    let end = end_of(end)?;
    Some(Event::Retry { end })
}

/// The event of a command that stands alone.
pub fn alone(rest: Option<&[u8]>, event: Event) -> Option<Event>
    ensures { result ≡ alone_in event (further_parts 32 rest.entry) }
{
    if let Some(_) = next_part(rest, b' ') {
        return None;
    }
    Some(event)
}

fn is_later_command(command: &[u8]) -> bool
    ensures { result ≡ later_command command.now }
{
    command == b"work".as_slice() || command == b"calm".as_slice()
}

fn is_later_submit(rest: Option<&[u8]>) -> bool
    ensures { result ≡ later_submit (further_parts 32 rest.entry) }
{
    let Some((_, rest)) = next_part(rest, b' ') else {
        return false;
    };
    let Some((word, _)) = next_part(rest, b' ') else {
        return false;
    };
    word == b"book".as_slice() || word == b"cancel".as_slice()
}

/// Whether the line has a command or a request of which the program knows nothing yet.
pub fn is_later(command: &[u8], rest: Option<&[u8]>) -> bool
    ensures { result ≡ later command.now (further_parts 32 rest.entry) }
{
    is_later_command(command) || (command == b"submit".as_slice() && is_later_submit(rest))
}
