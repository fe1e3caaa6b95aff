// Scripts that are refused and read, the list of packets, and a client's end.
ghost use Rattle.std.specs.Prelude.{◌+◌, ◌<◌, ◌≤◌};
ghost use Rattle.aeg_base.specs.declared.limits.TheConstants.{LAST_SEQ};

use aeg_base::limits::INPUT_BYTES;
use aeg_base::{Bytes, End, NodeId, Seq, Tier};
use net_script::{ClientEnd, CutLine, Event, Script, ScriptErr, Soup, parse_script};
use std::alloc::Global;
use std::process::Abort;
use std::test::Fail;

/// A text, and the line and rule that it is refused with.
const REFUSED: [(&str, u32, u8); 20] = [
    ("", 1, 1),
    ("\n\n\n", 4, 1),
    ("lead m0\n", 1, 1),
    ("tiers 3 depth 1\n", 1, 1),
    ("tiers 1 depth 1\ntiers 1 depth 1\n", 2, 2),
    ("tiers 1 depth 1\njump m0\n", 2, 2),
    ("tiers 1 depth 1\ndeliver 00\n", 2, 3),
    ("tiers 1 depth 1\nlead  m0\n", 2, 3),
    ("tiers 1 depth 1\n# a\n\ndeliver 65536\n", 4, 3),
    ("tiers 1 depth 1\noffer m5\n", 2, 3),
    ("tiers 1 depth 1\nsubmit 1\n", 2, 3),
    ("tiers 1 depth 1\noffer m3\n", 2, 4),
    ("tiers 1 depth 1\ncut 1 keep flow\n", 2, 3),
    ("tiers 1 depth 1\ncut 5 keep lead m0\n", 2, 3),
    ("tiers 1 depth 1\ncut 0 drop lead m0\n", 2, 3),
    ("tiers 1 depth 1\ncut 1 lose lead m0\n", 2, 3),
    ("tiers 1 depth 1\nrestart m0 m1\n", 2, 3),
    ("tiers 1 depth 1\nwipe\n", 2, 3),
    ("tiers 1 depth 1\ncut 1 keep lead m3\n", 2, 4),
    ("tiers 0 depth 1\ncrash p1\n", 2, 4),
];

/// A script with each of its lines an event that isn't of power.
const TWO_TIERS: &str = "# two tiers\n\ntiers 1 depth 2\nlead m0\nsubmit 1 look 5\nretry c16";

/// A script of power.
const POWER: &str =
    "tiers 0 depth 1\ncut 3 keep deliver 7\ncut 1 drop offer i0\ncrash p0\nrestart p0\nwipe m0\n";

const MID: NodeId = NodeId {
    tier: Tier::Mid,
    index: 0,
};

const INV: NodeId = NodeId {
    tier: Tier::Inv,
    index: 0,
};

const PAY: NodeId = NodeId {
    tier: Tier::Pay,
    index: 0,
};

/// What is read of the text.
fn read(rt: &impl Abort, alloc: Global, text: &str) -> Result<Script, ScriptErr> {
    assert!(rt; text.len() <= INPUT_BYTES);
    parse_script(alloc, text.as_bytes())
}

/// Checks that the text is refused on the line by the rule.
fn is_refused(rt: &impl Abort, alloc: Global, text: &str, line: u32, row: u8) {
    let read = read(rt, alloc, text);
    assert!(rt; matches!(read, Err(e) if e == ScriptErr::BadLine { line, row }));
}

#[test]
fn bad_lines_are_named_with_their_rule(rt: HostRuntime) {
    for (text, line, row) in &REFUSED {
        is_refused(&rt, rt.alloc(), text, *line, *row);
    }
}

fn is_lead(script: &Script, k: u32, line: u32, who: NodeId) -> bool {
    matches!(script.event(k), Some((at, Event::Lead { node })) if at == line && *node == who)
}

fn is_submit(script: &Script, k: u32, line: u32, text: &[u8]) -> bool {
    matches!(script.event(k), Some((at, Event::Submit { client: 1, body })) if at == line && body.items() == text)
}

fn is_retry(script: &Script, k: u32, line: u32, of: End) -> bool {
    matches!(script.event(k), Some((at, Event::Retry { end })) if at == line && *end == of)
}

#[test]
fn a_script_has_its_header_and_its_events(rt: HostRuntime) -> Result<(), Fail> {
    let script = read(&rt, rt.alloc(), TWO_TIERS)?;
    assert_eq!(rt; (script.u(), script.depth()), (1, 2));
    assert!(rt; is_lead(&script, 0, 4, MID));
    assert!(rt; is_submit(&script, 1, 5, "look 5".as_bytes()));
    assert!(rt; is_retry(&script, 2, 6, End::Client(16)));
    assert!(rt; script.event(3).is_none());
    Ok(())
}

fn is_cut(script: &Script, k: u32, at: (u32, u8, bool), during: CutLine) -> bool {
    matches!(script.event(k), Some((row, Event::Cut { nth, keep, line })) if (row, *nth, *keep) == at && *line == during)
}

fn is_crash(script: &Script, k: u32, line: u32, who: NodeId) -> bool {
    matches!(script.event(k), Some((at, Event::Crash { node })) if at == line && *node == who)
}

fn is_restart(script: &Script, k: u32, line: u32, who: NodeId) -> bool {
    matches!(script.event(k), Some((at, Event::Restart { node })) if at == line && *node == who)
}

fn is_wipe(script: &Script, k: u32, line: u32, who: NodeId) -> bool {
    matches!(script.event(k), Some((at, Event::Wipe { node })) if at == line && *node == who)
}

#[test]
fn nodes_are_cut_crashed_restarted_and_wiped(rt: HostRuntime) -> Result<(), Fail> {
    let script = read(&rt, rt.alloc(), POWER)?;
    assert!(rt; is_cut(&script, 0, (2, 3, true), CutLine::Deliver { packet: 7 }));
    assert!(rt; is_cut(&script, 1, (3, 1, false), CutLine::Offer { node: INV }));
    assert!(rt; is_crash(&script, 2, 4, PAY));
    assert!(rt; is_restart(&script, 3, 5, PAY));
    assert!(rt; is_wipe(&script, 4, 6, MID));
    assert!(rt; script.event(5).is_none());
    Ok(())
}

#[test]
fn a_script_takes_over_what_was_read(rt: HostRuntime) {
    let script = Script::of(1, 2, Seq::new(rt.alloc()));
    assert_eq!(rt; (script.u(), script.depth()), (1, 2));
    assert!(rt; script.event(0).is_none());
}

fn text_of(alloc: Global, text: &str) -> Result<Bytes, Fail> {
    Ok(Bytes::of(Vec::from_slice(alloc, text.as_bytes())?))
}

/// The packets a, to client 1, and bc, to client 2.
fn two_packets(alloc: Global) -> Result<Soup, Fail> {
    let mut soup = Soup::new(alloc);
    let first = text_of(alloc, "a")?;
    soup.push(End::Client(1), first)?;
    let second = text_of(alloc, "bc")?;
    soup.push(End::Client(2), second)?;
    Ok(soup)
}

fn is_packet(soup: &Soup, k: u32, whom: End, text: &str) -> bool {
    matches!(soup.get(k), Some((to, bytes)) if to == whom && bytes == text.as_bytes())
}

#[test]
fn packets_are_kept_in_order(rt: HostRuntime) -> Result<(), Fail> {
    let soup = two_packets(rt.alloc())?;
    assert_eq!(rt; soup.len(), 2);
    assert!(rt; is_packet(&soup, 0, End::Client(1), "a"));
    assert!(rt; is_packet(&soup, 1, End::Client(2), "bc"));
    assert!(rt; soup.get(2).is_none());
    Ok(())
}

/// Checks the number that a request gets, where it is opened.
fn submits(
    rt: &impl Abort,
    client: &mut ClientEnd,
    body: &Bytes,
    seq: Option<u32>,
) -> Result<(), Fail>
    requires { client.old.end.last < LAST_SEQ }
    ensures { client.new.end.last ≤ client.old.end.last + 1 }
{
    let opened = client.submit(body)?;
    assert_eq!(rt; opened, seq);
    Ok(())
}

/// Whether the client waits for a reply to the request.
fn waits(client: &ClientEnd, number: u32, text: &Bytes) -> bool {
    matches!(client.pending(), Some((seq, body)) if seq == number && body.items() == text.items())
}

/// Checks that only a reply with the number 1 closes the request.
fn closes(rt: &impl Abort, client: &mut ClientEnd)
    ensures { client.new.end.last ≤ client.old.end.last }
{
    assert!(rt; !client.reply(2));
    assert!(rt; client.reply(1));
    assert!(rt; client.pending().is_none());
}

#[test]
fn a_client_has_one_open_request(rt: HostRuntime) -> Result<(), Fail> {
    let mut client = ClientEnd::new(rt.alloc(), 3);
    assert_eq!(rt; client.client(), 3);
    let look = text_of(rt.alloc(), "look 5")?;
    submits(&rt, &mut client, &look, Some(1))?;
    submits(&rt, &mut client, &look, None)?;
    assert!(rt; waits(&client, 1, &look));
    closes(&rt, &mut client);
    submits(&rt, &mut client, &look, Some(2))
}
