// A backend node that learns calls and floors, and one that leads.
ghost use Rattle.std.specs.Prelude.{◌≡◌, IfOk, OnOk};
ghost use Rattle.aeg_base.specs.declared.names.Tier.{Tier};
ghost use Rattle.run_model.specs.BookingRuns.{booking_service};
ghost use Rattle.node_log.specs.Views.{MayWrite};
ghost use Rattle.backend_node.specs.Backends.{backend_by};

use aeg_base::{Bytes, End, NodeId, Tier};
use aeg_disk::{Disk, MemDisk};
use backend_node::BackNode;
use backend_svc::{Inventory, Payment};
use frames::Outbox;
use std::alloc::Global;
use std::test::*;
use svc_api::Backend;
use tier_model::{Idle, Turn};

/// A packet: the tier and the index of its receiver, and its bytes.
type Sent = (Tier, u8, &'static [u8]);

/// Bytes that come in, whether the node does something, and what it sends.
type Taken = (&'static [u8], bool, &'static [Sent]);

const GRANTED: &[u8] = b"\x01\x0b\x01\x00\x00\x05\x00\x00\x00\x01\x00";

const DENIED: &[u8] = b"\x01\x0b\x01\x00\x00\x05\x00\x00\x00\x03\x02";

/// Call 1 is learned, then learned again, then floor 2 is, then a call for all seats but one, as two of 100 are taken. Call
/// 1 is below the floor then, and a request is none of a backend's.
const LEARNS: [Taken; 6] = [
    (
        b"\x01\x08\x01\x01\x00\x13\x00\x00\x04\x00\x00\x00\x01\x0breserve 1 2",
        true,
        &[
            (Tier::Inv, 1, b"\x01\x07\x01\x00\x00\x02\x00\x01"),
            (Tier::Mid, 0, GRANTED),
            (Tier::Mid, 1, GRANTED),
            (Tier::Mid, 2, GRANTED),
        ],
    ),
    (
        b"\x01\x08\x01\x01\x00\x13\x00\x01\x04\x00\x00\x00\x01\x0breserve 1 2",
        true,
        &[(Tier::Inv, 1, b"\x01\x07\x01\x00\x00\x02\x00\x02")],
    ),
    (
        b"\x01\x08\x01\x01\x00\x07\x00\x02\x05\x00\x00\x00\x02",
        true,
        &[(Tier::Inv, 1, b"\x01\x07\x01\x00\x00\x02\x00\x03")],
    ),
    (
        b"\x01\x08\x01\x01\x00\x14\x00\x03\x04\x00\x00\x00\x03\x0creserve 1 99",
        true,
        &[
            (Tier::Inv, 1, b"\x01\x07\x01\x00\x00\x02\x00\x04"),
            (Tier::Mid, 0, DENIED),
            (Tier::Mid, 1, DENIED),
            (Tier::Mid, 2, DENIED),
        ],
    ),
    (
        b"\x01\x0a\x00\x00\x00\x10\x00\x00\x00\x01\x0breserve 1 2",
        false,
        &[],
    ),
    (
        b"\x01\x01\x03\x01\x00\x0b\x00\x00\x00\x01\x06look 5",
        false,
        &[],
    ),
];

/// What the middle nodes tell, and a promise of ballot (1, 0).
const FLOORS: [Taken; 4] = [
    (
        b"\x01\x04\x01\x01\x00\x08\x00\x00\x00\x01\x00\x00\x00\x00",
        true,
        &[],
    ),
    (b"\x01\x0d\x00\x00\x00\x04\x00\x00\x00\x04", true, &[]),
    (b"\x01\x0d\x00\x01\x00\x04\x00\x00\x00\x02", true, &[]),
    (b"\x01\x0d\x00\x02\x00\x04\x00\x00\x00\x03", true, &[]),
];

const PREPARE: &[u8] = b"\x01\x03\x01\x00\x00\x07\x00\x00\x00\x01\x00\x00\x00";

const ACCEPT: &[u8] = b"\x01\x05\x01\x00\x00\x0c\x00\x00\x00\x01\x00\x00\x00\x05\x00\x00\x00\x03";

const ACCEPTED: &[u8] = b"\x01\x06\x01\x00\x00\x0c\x00\x00\x00\x01\x00\x00\x00\x05\x00\x00\x00\x03";

/// What it sends as it begins to lead, and as it offers floor 3.
const PREPARES: [Sent; 2] = [(Tier::Inv, 1, PREPARE), (Tier::Inv, 2, PREPARE)];

const OFFERS: [Sent; 5] = [
    (Tier::Inv, 1, ACCEPT),
    (Tier::Inv, 2, ACCEPT),
    (Tier::Inv, 0, ACCEPTED),
    (Tier::Inv, 1, ACCEPTED),
    (Tier::Inv, 2, ACCEPTED),
];

const PAID: &[u8] = b"\x01\x0b\x02\x00\x00\x05\x00\x00\x00\x01\x00";

/// A charge is learned.
const CHARGES: [Taken; 1] = [(
    b"\x01\x08\x02\x01\x00\x13\x00\x00\x04\x00\x00\x00\x01\x0bcharge 1 20",
    true,
    &[
        (Tier::Pay, 1, b"\x01\x07\x02\x00\x00\x02\x00\x01"),
        (Tier::Mid, 0, PAID),
        (Tier::Mid, 1, PAID),
        (Tier::Mid, 2, PAID),
    ],
)];

/// The nodes run the backends of the booking service.
fn runs_the_booking_service()
    ensures seats { backend_by ⟦<Inventory as Backend>⟧.opening ⟦<Inventory as Backend>⟧.state_after ⟦<Inventory as Backend>⟧.code_of
        ≡ booking_service.backend Tier.Inv }
    ensures spent { backend_by ⟦<Payment as Backend>⟧.opening ⟦<Payment as Backend>⟧.state_after ⟦<Payment as Backend>⟧.code_of
        ≡ booking_service.backend Tier.Pay }
{}

fn is_sent(packet: &(End, Bytes), sent: &Sent) -> bool {
    let to = NodeId {
        tier: sent.0,
        index: sent.1,
    };
    packet.0 == End::Node(to) && packet.1.items() == sent.2
}

fn are_sent(out: &Outbox, sent: &[Sent]) -> bool {
    let packets = out.items();
    if packets.len() != sent.len() {
        return false;
    }
    for i in 0..sent.len() {
        if !is_sent(&packets[i], &sent[i]) {
            return false;
        }
    }
    true
}

/// A new node i0 of three, which came up on a blank disk.
fn started<D: Disk>(alloc: Global, disk: &mut D) -> Result<BackNode<Inventory>, Fail>
    ensures { IfOk result (λ node. MayWrite node (D.state disk.new)) }
{
    let mut node = BackNode::new(alloc, 1, Tier::Inv, 0, Inventory::new(alloc));
    node.restart(disk)?;
    Ok(node)
}

/// Whether the node does what it is to do with the bytes, and sends just these packets.
fn takes<B: Backend, D: Disk>(
    alloc: Global,
    node: &mut BackNode<B>,
    disk: &mut D,
    taken: &Taken,
) -> Result<bool, Fail>
    requires { MayWrite node.old (D.state disk.old) }
    ensures { OnOk result (MayWrite node.new (D.state disk.new)) }
{
    if !node.up() {
        return Err("it is down".into());
    }
    let mut out = Outbox::new(alloc);
    let answer = node.deliver(disk, taken.0, &mut out)?;
    let did = matches!(answer, Turn::Did);
    drop(answer);
    Ok(did == taken.1 && are_sent(&out, taken.2))
}

/// Whether it takes all of them so.
fn takes_all<B: Backend, D: Disk>(
    alloc: Global,
    node: &mut BackNode<B>,
    disk: &mut D,
    rows: &[Taken],
) -> Result<bool, Fail>
    requires { MayWrite node.old (D.state disk.old) }
    ensures { OnOk result (MayWrite node.new (D.state disk.new)) }
{
    let mut all = true;
    for i in 0..rows.len() {
        all = takes(alloc, node, disk, &rows[i])? && all;
    }
    Ok(all)
}

#[test]
fn learned_calls_are_served_once(rt: HostRuntime) -> Result<(), Fail> {
    let mut disk = MemDisk::new(rt.alloc(), Vec::new(rt.alloc()));
    let mut node = started(rt.alloc(), &mut disk)?;
    assert!(rt; takes_all(rt.alloc(), &mut node, &mut disk, &LEARNS)?);
    Ok(())
}

/// Whether a payment node of three serves a charge, and answers it to all middle nodes.
fn charges<D: Disk>(alloc: Global, disk: &mut D) -> Result<bool, Fail> {
    let mut node = BackNode::new(alloc, 1, Tier::Pay, 0, Payment::new(alloc));
    node.restart(disk)?;
    takes_all(alloc, &mut node, disk, &CHARGES)
}

#[test]
fn a_learned_charge_is_answered(rt: HostRuntime) -> Result<(), Fail> {
    let mut disk = MemDisk::new(rt.alloc(), Vec::new(rt.alloc()));
    assert!(rt; charges(rt.alloc(), &mut disk)?);
    Ok(())
}

/// Whether it begins to lead, and asks the others for their promises.
fn leads<D: Disk>(alloc: Global, node: &mut BackNode<Inventory>, disk: &mut D) -> Result<bool, Fail>
    requires { MayWrite node.old (D.state disk.old) }
    ensures { OnOk result (MayWrite node.new (D.state disk.new)) }
{
    if !node.up() {
        return Err("it is down".into());
    }
    let mut out = Outbox::new(alloc);
    drop(node.lead(disk, &mut out)?);
    Ok(are_sent(&out, &PREPARES))
}

/// Why an offer would be idle.
fn idle(node: &BackNode<Inventory>) -> Result<Option<Idle>, Fail> {
    if !node.up() {
        return Err("it is down".into());
    }
    Ok(node.offer_idle()?)
}

/// Whether it offers the floor that two of the middle nodes told.
fn offers<D: Disk>(
    alloc: Global,
    node: &mut BackNode<Inventory>,
    disk: &mut D,
) -> Result<bool, Fail>
    requires { MayWrite node.old (D.state disk.old) }
{
    if !node.up() {
        return Err("it is down".into());
    }
    let mut out = Outbox::new(alloc);
    drop(node.offer(disk, &mut out)?);
    Ok(are_sent(&out, &OFFERS))
}

/// Whether a leader offers the second largest of three floors, and nothing before it leads.
fn offers_a_floor<D: Disk>(alloc: Global, disk: &mut D) -> Result<bool, Fail> {
    let mut node = started(alloc, disk)?;
    let before = idle(&node)?;
    let led = leads(alloc, &mut node, disk)?;
    let told = takes_all(alloc, &mut node, disk, &FLOORS)?;
    let offered = idle(&node)?.is_none() && offers(alloc, &mut node, disk)?;
    Ok(before == Some(Idle::NotLeader) && led && told && offered)
}

#[test]
fn the_second_largest_floor_is_offered(rt: HostRuntime) -> Result<(), Fail> {
    let mut disk = MemDisk::new(rt.alloc(), Vec::new(rt.alloc()));
    assert!(rt; offers_a_floor(rt.alloc(), &mut disk)?);
    Ok(())
}

/// Whether it asks the other nodes of its tier again, as it has nothing else to tell.
fn tells_again(alloc: Global, node: &mut BackNode<Inventory>) -> Result<bool, Fail> {
    if !node.up() {
        return Err("it is down".into());
    }
    let mut out = Outbox::new(alloc);
    drop(node.retry(&mut out)?);
    Ok(out.items().len() == 2 && node.place() == 0)
}

#[test]
fn a_node_that_came_up_asks_its_tier(rt: HostRuntime) -> Result<(), Fail> {
    let mut disk = MemDisk::new(rt.alloc(), Vec::new(rt.alloc()));
    let mut node = started(rt.alloc(), &mut disk)?;
    assert!(rt; tells_again(rt.alloc(), &mut node)?);
    Ok(())
}
