// A node at its place in a tier.
ghost use Rattle.std.specs.Prelude.{◌≡◌, [], false, true, IfOk, IfSome};
ghost use Rattle.log_model.specs.Nodes.Mode.{Down};
ghost use Rattle.log_model.specs.Nodes.{stands};
ghost use Rattle.node_log.specs.Deciding.{idle_in};
ghost use Rattle.node_log.specs.Received.{on_bytes};
ghost use Rattle.node_log.specs.Views.{is_up};
ghost use Rattle.tier_nodes.specs.Arming.{CanStop, at_rest, doubts, fared_by};
ghost use Rattle.tier_nodes.specs.Calling.{Comes, IsSameSeat, Tells};
ghost use Rattle.tier_nodes.specs.Powering.{Crashes, Rises, Wipes, found_of, still_doubts};
ghost use Rattle.tier_nodes.specs.Seats.{condition_of, fresh, seat_of};
ghost use Rattle.tier_nodes.specs.Standing.{IsNodeOf, StandsOn};
ghost use Rattle.tier_nodes.specs.declared.condition.Condition.TheVariants as conditions;

use crate::arming::{StopAt, arm, fared, is_in_doubt};
use crate::condition::Condition;
use crate::tier_node::TierNode;
use aeg_base::Memory;
use aeg_disk::Device;
use frames::Outbox;
use run_model::{Fared, Found};
use tier_model::{Fault, Idle, Turn};

/// A node in its tier: whether it is gone for good, and whether its disk may have one record more than it knows.
#[derive(Drop)]
pub struct Post<N> {
    pub(crate) node: N,
    gone: bool,
    doubt: bool,
}

impl<N: TierNode> Post<N> {
    /// A node that was never started.
    pub fn new(node: N) -> Self
        requires { is_up (N.seen node) ≡ false }
        ensures is { result ≡ fresh node }
        ensures stands { IsNodeOf N.log_in (stands Down []) (seat_of N.seen result) }
    {
        Post {
            node,
            gone: false,
            doubt: false,
        }
    }

    pub fn condition(&self) -> Condition
        ensures { result ≡ condition_of (seat_of N.seen self.now) }
    {
        if self.gone {
            return Condition::Gone;
        }
        if self.node.up() {
            return Condition::Up;
        }
        Condition::Down
    }

    /// Puts the power back after a call, and says how its event fared. After a fault of the disk the node is in doubt,
    /// and where an armed stop was met it is sure.
    fn settle<D: Device>(
        &mut self,
        stop: Option<StopAt>,
        disk: &mut D,
        answer: &Result<Turn, Fault>,
    ) -> Fared
        ensures fared { result ≡ fared_by stop answer.now (D.state disk.old).stopped }
        ensures rests { D.state disk.new ≡ at_rest (D.state disk.old) }
        ensures post { self.new ≡ record self.old { doubt = doubts answer.now (D.state disk.old).stopped } }
    {
        let met = disk.power();
        self.doubt = is_in_doubt(answer, met);
        fared(stop, answer, met)
    }

    /// Takes the bytes of a packet.
    pub fn deliver<D: Device>(
        &mut self,
        stop: Option<StopAt>,
        disk: &mut D,
        bytes: &[u8],
        out: &mut Outbox,
    ) -> (Result<Turn, Fault>, Fared)
        requires stop { CanStop stop }
        requires up { condition_of (seat_of N.seen self.old) ≡ conditions.Up }
        requires stands { StandsOn N.log_in (seat_of N.seen self.old) (D.state disk.old) }
        ensures comes { Comes (N.IsIn self.old.node) N.log_in (seat_of N.seen self.old) (seat_of N.seen self.new) (D.state disk.old) (D.state disk.new)
            out.old out.new (on_bytes (N.kind self.old.node).on_frame bytes.now) stop result.0 result.1 }
        ensures rows { N.kind self.new.node ≡ N.kind self.old.node }
    {
        self.node.keep();
        arm(disk, stop);
        let answer = self.node.deliver(disk, bytes, out);
        let fared = self.settle(stop, disk, &answer);
        (answer, fared)
    }

    /// Begins to lead.
    pub fn lead<D: Device>(
        &mut self,
        stop: Option<StopAt>,
        disk: &mut D,
        out: &mut Outbox,
    ) -> (Result<Turn, Fault>, Fared)
        requires stop { CanStop stop }
        requires up { condition_of (seat_of N.seen self.old) ≡ conditions.Up }
        requires stands { StandsOn N.log_in (seat_of N.seen self.old) (D.state disk.old) }
        ensures comes { Comes (N.IsIn self.old.node) N.log_in (seat_of N.seen self.old) (seat_of N.seen self.new) (D.state disk.old) (D.state disk.new)
            out.old out.new (N.kind self.old.node).leads stop result.0 result.1 }
        ensures rows { N.kind self.new.node ≡ N.kind self.old.node }
    {
        self.node.keep();
        arm(disk, stop);
        let answer = self.node.lead(disk, out);
        let fared = self.settle(stop, disk, &answer);
        (answer, fared)
    }

    /// Offers a value, where it leads and there is one.
    pub fn offer<D: Device>(
        &mut self,
        stop: Option<StopAt>,
        disk: &mut D,
        out: &mut Outbox,
    ) -> (Result<Turn, Fault>, Fared)
        requires stop { CanStop stop }
        requires up { condition_of (seat_of N.seen self.old) ≡ conditions.Up }
        requires stands { StandsOn N.log_in (seat_of N.seen self.old) (D.state disk.old) }
        ensures comes { Comes (N.IsIn self.old.node) N.log_in (seat_of N.seen self.old) (seat_of N.seen self.new) (D.state disk.old) (D.state disk.new)
            out.old out.new (N.kind self.old.node).offers stop result.0 result.1 }
        ensures rows { N.kind self.new.node ≡ N.kind self.old.node }
    {
        self.node.keep();
        arm(disk, stop);
        let answer = self.node.offer(disk, out);
        let fared = self.settle(stop, disk, &answer);
        (answer, fared)
    }

    /// The cause with which an offer would be idle now. None where it would not be.
    pub fn offer_idle(&self) -> Result<Option<Idle>, Memory>
        requires { condition_of (seat_of N.seen self.now) ≡ conditions.Up }
        ensures { IfOk result (λ cause. IfSome (N.seen self.now.node).up (λ s. cause ≡ idle_in ((N.kind self.now.node).offers s).answer)) }
    {
        self.node.offer_idle()
    }

    /// Tells again what may be lost.
    pub fn retry(&mut self, out: &mut Outbox) -> Result<Turn, Fault>
        requires up { condition_of (seat_of N.seen self.old) ≡ conditions.Up }
        ensures tells { Tells (N.IsIn self.old.node) N.log_in (seat_of N.seen self.old) (seat_of N.seen self.new) out.old out.new
            (N.kind self.old.node).retry result }
        ensures rows { N.kind self.new.node ≡ N.kind self.old.node }
    {
        self.node.keep();
        self.node.retry(out)
    }

    /// Goes down: all but its disk is lost.
    pub fn crash(&mut self)
        requires up { condition_of (seat_of N.seen self.old) ≡ conditions.Up }
        ensures crashes { Crashes N.log_in (seat_of N.seen self.old) (seat_of N.seen self.new) }
        ensures rows { N.kind self.new.node ≡ N.kind self.old.node }
    {
        self.node.crash();
    }

    /// What a restart found. A node that came up is in no doubt.
    fn rise(&mut self, known: u64, answer: &Result<(), Fault>) -> Found
        ensures found { result ≡ found_of self.old.doubt known (N.seen self.old.node).place answer.now }
        ensures post { self.new ≡ record self.old { doubt = still_doubts answer.now self.old.doubt } }
    {
        match answer {
            Err(_) => Found::Fault,
            Ok(()) => {
                let longer = self.doubt && known < self.node.place();
                self.doubt = false;
                Found::Reads {
                    list: u8::from(longer),
                }
            }
        }
    }

    /// Comes up from what its disk has, under power again.
    pub fn restart<D: Device>(&mut self, disk: &mut D) -> (Result<(), Fault>, Found)
        requires { condition_of (seat_of N.seen self.old) ≡ conditions.Down }
        ensures rises { Rises N.log_in (N.kind self.old.node).recovered (seat_of N.seen self.old) (seat_of N.seen self.new)
            (D.state disk.old) (D.state disk.new) result.0 result.1 }
        ensures rows { N.kind self.new.node ≡ N.kind self.old.node }
    {
        self.node.keep();
        let known = self.node.place();
        disk.power();
        let answer = self.node.restart(disk);
        let found = self.rise(known, &answer);
        (answer, found)
    }

    /// It is gone from now on.
    fn leave(&mut self)
        ensures gone { self.new.gone ≡ true }
        ensures sure { self.new.doubt ≡ false }
        ensures same { IsSameSeat (seat_of N.seen self.old) (seat_of N.seen self.new) }
        ensures rows { N.kind self.new.node ≡ N.kind self.old.node }
    {
        self.gone = true;
        self.doubt = false;
        if self.node.up() {
            self.node.crash();
        }
    }

    /// Goes for good, and its disk is erased.
    pub fn wipe<D: Device>(&mut self, disk: &mut D)
        ensures wipes { Wipes N.log_in (seat_of N.seen self.old) (seat_of N.seen self.new) (D.state disk.old) (D.state disk.new) }
        ensures rows { N.kind self.new.node ≡ N.kind self.old.node }
    {
        self.leave();
        disk.erase();
    }
}
