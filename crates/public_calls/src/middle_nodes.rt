// A middle node that learns the values of its log.
ghost use Rattle.std.specs.Prelude.{◌≡◌, IfOk, OnOk};
ghost use Rattle.node_log.specs.Views.{MayWrite};

use aeg_base::{Bytes, CallNo, End, NodeId, Tier};
use aeg_disk::{Disk, MemDisk};
use exec_core::GivenExec;
use frames::Outbox;
use mid_node::MidNode;
use std::alloc::Global;
use std::test::*;
use tier_model::{Idle, Turn};

/// A packet: the tier and the index of the node that gets it, or no tier and a client; and its bytes.
type Sent = (Option<Tier>, u8, &'static [u8]);

/// Bytes that come in, whether the node does something, and what it sends.
type Taken = (&'static [u8], bool, &'static [Sent]);

const OPENS: &[u8] = b"\x01\x01\x03\x01\x00\x12\x00\x00\x00\x01\x0dopen 1 5 10 0";

const CALL: &[u8] = b"\x01\x0a\x00\x00\x00\x10\x00\x00\x00\x01\x0breserve 1 2";

const HAVE: &[u8] = b"\x01\x0c\x00\x00\x00\x06\x01\x00\x00\x00\x01\x00";

const SETTLE: &[u8] = b"\x01\x0d\x00\x00\x00\x04\x00\x00\x00\x02";

/// A client opens a trip, and the batch with its request is learned.
const FIRST_BATCH: [Taken; 3] = [
    (OPENS, true, &[]),
    (OPENS, false, &[]),
    (
        b"\x01\x08\x00\x01\x00\x17\x00\x00\x01\x01\x01\x00\x00\x00\x01\x0dopen 1 5 10 0",
        true,
        &[(Some(Tier::Mid), 1, b"\x01\x07\x00\x00\x00\x02\x00\x01")],
    ),
];

/// The verdict is learned, and the client gets its reply, again where it asks again. Then a batch with a booking is.
const SECOND_BATCH: [Taken; 3] = [
    (
        b"\x01\x08\x00\x01\x00\x03\x00\x01\x03",
        true,
        &[
            (Some(Tier::Mid), 1, b"\x01\x07\x00\x00\x00\x02\x00\x02"),
            (
                None,
                1,
                b"\x01\x02\x00\x00\x00\x0e\x01\x00\x00\x00\x01\x08opened 1",
            ),
        ],
    ),
    (
        OPENS,
        true,
        &[(
            None,
            1,
            b"\x01\x02\x00\x00\x00\x0e\x01\x00\x00\x00\x01\x08opened 1",
        )],
    ),
    (
        b"\x01\x08\x00\x01\x00\x12\x00\x02\x01\x01\x01\x00\x00\x00\x02\x08book 1 2",
        true,
        &[(Some(Tier::Mid), 1, b"\x01\x07\x00\x00\x00\x02\x00\x03")],
    ),
];

/// Its verdict is learned, and the booking calls. The answer comes and is told to the others; a second one is passed over.
/// Then an empty batch is learned.
const THIRD_BATCH: [Taken; 4] = [
    (
        b"\x01\x08\x00\x01\x00\x03\x00\x03\x03",
        true,
        &[
            (Some(Tier::Mid), 1, b"\x01\x07\x00\x00\x00\x02\x00\x04"),
            (Some(Tier::Inv), 0, CALL),
            (Some(Tier::Inv), 1, CALL),
            (Some(Tier::Inv), 2, CALL),
        ],
    ),
    (
        b"\x01\x0b\x01\x00\x00\x05\x00\x00\x00\x01\x00",
        true,
        &[(Some(Tier::Mid), 1, HAVE), (Some(Tier::Mid), 2, HAVE)],
    ),
    (b"\x01\x0b\x01\x01\x00\x05\x00\x00\x00\x01\x00", false, &[]),
    (
        b"\x01\x08\x00\x01\x00\x04\x00\x04\x01\x00",
        true,
        &[(Some(Tier::Mid), 1, b"\x01\x07\x00\x00\x00\x02\x00\x05")],
    ),
];

/// Another node holds the answer, too.
const HELD_BY_TWO: [Taken; 2] = [
    (
        b"\x01\x0c\x00\x01\x00\x06\x01\x00\x00\x00\x01\x00",
        true,
        &[],
    ),
    (
        b"\x01\x0c\x00\x01\x00\x06\x01\x00\x00\x00\x01\x00",
        false,
        &[],
    ),
];

/// What a retry sends then: it asks for the next position, and tells the others its answer, and the backend its floor.
const AGAIN: [Sent; 7] = [
    (Some(Tier::Mid), 1, b"\x01\x07\x00\x00\x00\x02\x00\x05"),
    (Some(Tier::Mid), 2, b"\x01\x07\x00\x00\x00\x02\x00\x05"),
    (Some(Tier::Mid), 1, HAVE),
    (Some(Tier::Mid), 2, HAVE),
    (Some(Tier::Inv), 0, SETTLE),
    (Some(Tier::Inv), 1, SETTLE),
    (Some(Tier::Inv), 2, SETTLE),
];

/// And what it sends after a restart, when who else holds the answer isn't known.
const AFTER_RESTART: [Sent; 4] = [
    (Some(Tier::Mid), 1, b"\x01\x07\x00\x00\x00\x02\x00\x05"),
    (Some(Tier::Mid), 2, b"\x01\x07\x00\x00\x00\x02\x00\x05"),
    (Some(Tier::Mid), 1, HAVE),
    (Some(Tier::Mid), 2, HAVE),
];

/// An old request after the restart: its client's last one was a booking.
const OLD_REQUEST: [Taken; 1] = [(OPENS, false, &[])];

fn receiver(sent: &Sent) -> End {
    match sent.0 {
        None => End::Client(sent.1),
        Some(tier) => End::Node(NodeId {
            tier,
            index: sent.1,
        }),
    }
}

fn are_sent(out: &Outbox, sent: &[Sent]) -> bool {
    let packets = out.items();
    if packets.len() != sent.len() {
        return false;
    }
    for i in 0..sent.len() {
        if packets[i].0 != receiver(&sent[i]) || packets[i].1.items() != sent[i].2 {
            return false;
        }
    }
    true
}

/// A new node m0 of three, which came up on a blank disk.
fn started<D: Disk>(alloc: Global, disk: &mut D) -> Result<MidNode, Fail>
    ensures { IfOk result (λ node. MayWrite node.node (D.state disk.new)) }
{
    let mut node = MidNode::new(alloc, 1, 1, 0);
    node.restart(disk)?;
    Ok(node)
}

/// Whether the node does what it is to do with the bytes, and sends just these packets.
fn takes<D: Disk>(
    alloc: Global,
    node: &mut MidNode,
    disk: &mut D,
    taken: &Taken,
) -> Result<bool, Fail>
    requires { MayWrite node.old.node (D.state disk.old) }
    ensures { OnOk result (MayWrite node.new.node (D.state disk.new)) }
{
    if !node.up() {
        return Err("it is down".into());
    }
    let mut out = Outbox::new(alloc);
    let answer = node.deliver(disk, taken.0, &mut out)?;
    let did = matches!(answer, Turn::Did);
    drop(answer);
    Ok(did == taken.1 && are_sent(&out, taken.2))
}

/// Whether it takes all of them so.
fn takes_all<D: Disk>(
    alloc: Global,
    node: &mut MidNode,
    disk: &mut D,
    rows: &[Taken],
) -> Result<bool, Fail>
    requires { MayWrite node.old.node (D.state disk.old) }
    ensures { OnOk result (MayWrite node.new.node (D.state disk.new)) }
{
    let mut all = true;
    for i in 0..rows.len() {
        all = takes(alloc, node, disk, &rows[i])? && all;
    }
    Ok(all)
}

/// Whether the node runs its next round by one segment's steps, so many, and tells two others its token and nothing else.
fn runs(alloc: Global, node: &mut MidNode, steps: usize) -> Result<bool, Fail>
    ensures { OnOk result (node.new.node.place ≡ node.old.node.place) }
{
    if !node.up() {
        return Err("it is down".into());
    }
    let mut exec = GivenExec::new(alloc, Vec::new(alloc));
    let mut out = Outbox::new(alloc);
    match node.work(&mut exec, &mut out)? {
        Turn::Ran(note) => Ok(note.steps.items().len() == steps && out.items().len() == 2),
        _ => Ok(false),
    }
}

/// Whether the next round can't be run, since the first call of the inventory has no answer that two nodes hold.
fn lacks_an_answer(node: &MidNode) -> Result<bool, Fail> {
    if !node.up() {
        return Err("it is down".into());
    }
    let first: CallNo = 1;
    Ok(
        node.work_idle()?
            == Some(Idle::NoAnswer {
                tier: Tier::Inv,
                no: first,
            }),
    )
}

/// Whether a retry sends these.
fn tells_again(alloc: Global, node: &mut MidNode, sent: &[Sent]) -> Result<bool, Fail> {
    if !node.up() {
        return Err("it is down".into());
    }
    let mut out = Outbox::new(alloc);
    drop(node.retry(&mut out)?);
    Ok(are_sent(&out, sent))
}

/// Whether the rounds go so up to an answer that this node alone is known to hold.
fn comes_to_an_answer<D: Disk>(
    alloc: Global,
    node: &mut MidNode,
    disk: &mut D,
) -> Result<bool, Fail>
    requires { MayWrite node.old.node (D.state disk.old) }
    ensures { OnOk result (MayWrite node.new.node (D.state disk.new)) }
{
    let opened = takes_all(alloc, node, disk, &FIRST_BATCH)? && runs(alloc, node, 5)?;
    let booked = takes_all(alloc, node, disk, &SECOND_BATCH)? && runs(alloc, node, 10)?;
    let answered = takes_all(alloc, node, disk, &THIRD_BATCH)? && lacks_an_answer(node)?;
    Ok(opened && booked && answered)
}

/// Whether an answer is used once two nodes hold it.
fn uses_an_answer<D: Disk>(alloc: Global, disk: &mut D) -> Result<bool, Fail> {
    let mut node = started(alloc, disk)?;
    let held = comes_to_an_answer(alloc, &mut node, disk)?;
    let by_two = takes_all(alloc, &mut node, disk, &HELD_BY_TWO)?;
    let ran = runs(alloc, &mut node, 2)?;
    Ok(held && by_two && ran && tells_again(alloc, &mut node, &AGAIN)?)
}

#[test]
fn an_answer_is_used_once_two_nodes_hold_it(rt: HostRuntime) -> Result<(), Fail> {
    let mut disk = MemDisk::new(rt.alloc(), Vec::new(rt.alloc()));
    assert!(rt; uses_an_answer(rt.alloc(), &mut disk)?);
    Ok(())
}

/// Whether a node that went down comes up with its rounds, its clients and its answers.
fn comes_up_again<D: Disk>(alloc: Global, disk: &mut D) -> Result<bool, Fail> {
    let mut node = started(alloc, disk)?;
    let held = comes_to_an_answer(alloc, &mut node, disk)?;
    if !node.up() {
        return Err("it is down".into());
    }
    node.crash();
    node.restart(disk)?;
    let old = takes_all(alloc, &mut node, disk, &OLD_REQUEST)?;
    let lacks = lacks_an_answer(&node)?;
    Ok(held && old && lacks && tells_again(alloc, &mut node, &AFTER_RESTART)?)
}

#[test]
fn a_restart_restores_rounds_clients_and_answers(rt: HostRuntime) -> Result<(), Fail> {
    let mut disk = MemDisk::new(rt.alloc(), Vec::new(rt.alloc()));
    assert!(rt; comes_up_again(rt.alloc(), &mut disk)?);
    Ok(())
}
