// Whether an event's nodes are in the tiers, and what is submitted is a request.
ghost use Rattle.std.specs.Prelude.{◌≡◌, ◌≤◌};
ghost use Rattle.run_model.specs.Script.{is_there as there, is_cut_there as cut_there, is_end as end_there, is_placed as placed, is_asked as asked};

use aeg_base::limits::MAX_FAULTS;
use aeg_base::{End, NodeId, Tier};
use booking::read_request;
use run_model::{CutLine, Event};

fn is_there(u: u8, node: &NodeId) -> bool
    requires { u ≤ MAX_FAULTS }
    ensures { result ≡ there u node.now }
{
    node.index < 2 * u + 1
}

fn is_cut_there(u: u8, line: &CutLine) -> bool
    requires { u ≤ MAX_FAULTS }
    ensures { result ≡ cut_there u line.now }
{
    match line {
        CutLine::Deliver { .. } => true,
        CutLine::Lead { node } => is_there(u, node),
        CutLine::Offer { node } => is_there(u, node),
    }
}

fn is_end(u: u8, end: &End) -> bool
    requires { u ≤ MAX_FAULTS }
    ensures { result ≡ end_there u end.now }
{
    match end {
        End::Node(node) => is_there(u, node),
        End::Client(_) => true,
    }
}

/// Whether the nodes that the event names are in tiers of 2u+1, and one that works is a middle node.
pub fn is_placed(u: u8, event: &Event) -> bool
    requires { u ≤ MAX_FAULTS }
    ensures { result ≡ placed u event.now }
{
    match event {
        Event::Submit { .. } | Event::Deliver { .. } | Event::Short { .. } => true,
        Event::Flow | Event::Calm | Event::Lose => true,
        Event::Cut { line, .. } => is_cut_there(u, line),
        Event::Retry { end } => is_end(u, end),
        Event::Work { node, .. } => matches!(node.tier, Tier::Mid) && is_there(u, node),
        Event::Lead { node } | Event::Offer { node } => is_there(u, node),
        Event::Crash { node } | Event::Restart { node } | Event::Wipe { node } => is_there(u, node),
    }
}

/// Whether what the event submits, if it does, is a request.
pub fn is_asked(event: &Event) -> bool
    ensures { result ≡ asked event.now }
{
    match event {
        Event::Submit { body, .. } => read_request(body.items()).is_ok(),
        _ => true,
    }
}
