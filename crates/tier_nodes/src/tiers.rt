// The nodes of one tier.
ghost use Rattle.std.specs.Prelude.{◌≡◌, ◌<◌, false, length, map, IfOk, IfSome};
ghost use Rattle.std.specs.List.{AllByRecursion};
ghost use Rattle.node_log.specs.Deciding.{idle_in};
ghost use Rattle.node_log.specs.Received.{on_bytes};
ghost use Rattle.node_log.specs.Views.{is_up};
ghost use Rattle.tier_nodes.specs.Arming.{CanStop};
ghost use Rattle.tier_nodes.specs.Calling.{Comes, Tells};
ghost use Rattle.tier_nodes.specs.Powering.{Crashes, Rises, Wipes};
ghost use Rattle.tier_nodes.specs.Seats.{ChangesAt, IsAt, condition_of, fresh, seat_of};
ghost use Rattle.tier_nodes.specs.Standing.{StandsOn};
ghost use Rattle.tier_nodes.specs.declared.condition.Condition.TheVariants as conditions;

use crate::arming::StopAt;
use crate::condition::Condition;
use crate::posts::Post;
use crate::tier_node::TierNode;
use aeg_base::Memory;
use aeg_disk::Device;
use frames::Outbox;
use run_model::{Fared, Found};
use std::alloc::Global;
use tier_model::{Fault, Idle, Turn};

/// The nodes of one tier by their indexes.
#[derive(Drop)]
pub struct Tier<N> {
    pub(crate) posts: Vec<Post<N>>,
}

impl<N: TierNode> Tier<N> {
    /// These nodes, which were never started.
    pub fn new(alloc: Global, nodes: Vec<N>) -> Result<Self, Memory>
        requires { AllByRecursion (λ node. is_up (N.seen node) ≡ false) nodes.items }
        ensures { IfOk result (λ tier. tier.posts.items ≡ map fresh nodes.items) }
    {
        let mut posts = Vec::new(alloc);
        for node in nodes {
            posts.push(Post::new(node))?;
        }
        Ok(Tier { posts })
    }

    pub fn condition(&self, at: u8) -> Condition
        requires there { at < length self.now.posts.items }
        ensures { IsAt self.now.posts.items at (λ post. result ≡ condition_of (seat_of N.seen post)) }
    {
        self.posts[usize::from(at)].condition()
    }

    /// The node there takes the bytes of a packet.
    pub fn deliver<D: Device>(
        &mut self,
        at: u8,
        stop: Option<StopAt>,
        disk: &mut D,
        bytes: &[u8],
        out: &mut Outbox,
    ) -> (Result<Turn, Fault>, Fared)
        requires there { at < length self.old.posts.items }
        requires stop { CanStop stop }
        requires up { IsAt self.old.posts.items at (λ post. condition_of (seat_of N.seen post) ≡ conditions.Up) }
        requires stands { IsAt self.old.posts.items at (λ post. StandsOn N.log_in (seat_of N.seen post) (D.state disk.old)) }
        ensures { ChangesAt self.old.posts.items self.new.posts.items at (λ old new. Comes (N.IsIn old.node) N.log_in (seat_of N.seen old) (seat_of N.seen new)
            (D.state disk.old) (D.state disk.new) out.old out.new (on_bytes (N.kind old.node).on_frame bytes.now) stop result.0 result.1
            × (N.kind new.node ≡ N.kind old.node)) }
    {
        self.posts[usize::from(at)].deliver(stop, disk, bytes, out)
    }

    /// The node there begins to lead.
    pub fn lead<D: Device>(
        &mut self,
        at: u8,
        stop: Option<StopAt>,
        disk: &mut D,
        out: &mut Outbox,
    ) -> (Result<Turn, Fault>, Fared)
        requires there { at < length self.old.posts.items }
        requires stop { CanStop stop }
        requires up { IsAt self.old.posts.items at (λ post. condition_of (seat_of N.seen post) ≡ conditions.Up) }
        requires stands { IsAt self.old.posts.items at (λ post. StandsOn N.log_in (seat_of N.seen post) (D.state disk.old)) }
        ensures { ChangesAt self.old.posts.items self.new.posts.items at (λ old new. Comes (N.IsIn old.node) N.log_in (seat_of N.seen old) (seat_of N.seen new)
            (D.state disk.old) (D.state disk.new) out.old out.new (N.kind old.node).leads stop result.0 result.1 × (N.kind new.node ≡ N.kind old.node)) }
    {
        self.posts[usize::from(at)].lead(stop, disk, out)
    }

    /// The node there offers a value, where it leads and there is one.
    pub fn offer<D: Device>(
        &mut self,
        at: u8,
        stop: Option<StopAt>,
        disk: &mut D,
        out: &mut Outbox,
    ) -> (Result<Turn, Fault>, Fared)
        requires there { at < length self.old.posts.items }
        requires stop { CanStop stop }
        requires up { IsAt self.old.posts.items at (λ post. condition_of (seat_of N.seen post) ≡ conditions.Up) }
        requires stands { IsAt self.old.posts.items at (λ post. StandsOn N.log_in (seat_of N.seen post) (D.state disk.old)) }
        ensures { ChangesAt self.old.posts.items self.new.posts.items at (λ old new. Comes (N.IsIn old.node) N.log_in (seat_of N.seen old) (seat_of N.seen new)
            (D.state disk.old) (D.state disk.new) out.old out.new (N.kind old.node).offers stop result.0 result.1 × (N.kind new.node ≡ N.kind old.node)) }
    {
        self.posts[usize::from(at)].offer(stop, disk, out)
    }

    /// The cause with which an offer of the node there would be idle now. None where it would not be.
    pub fn offer_idle(&self, at: u8) -> Result<Option<Idle>, Memory>
        requires there { at < length self.now.posts.items }
        requires up { IsAt self.now.posts.items at (λ post. condition_of (seat_of N.seen post) ≡ conditions.Up) }
        ensures { IfOk result (λ cause. IsAt self.now.posts.items at (λ post. IfSome (N.seen post.node).up (λ s. cause
            ≡ idle_in ((N.kind post.node).offers s).answer))) }
    {
        self.posts[usize::from(at)].offer_idle()
    }

    /// The node there tells again what may be lost.
    pub fn retry(&mut self, at: u8, out: &mut Outbox) -> Result<Turn, Fault>
        requires there { at < length self.old.posts.items }
        requires up { IsAt self.old.posts.items at (λ post. condition_of (seat_of N.seen post) ≡ conditions.Up) }
        ensures { ChangesAt self.old.posts.items self.new.posts.items at (λ old new. Tells (N.IsIn old.node) N.log_in (seat_of N.seen old) (seat_of N.seen new)
            out.old out.new (N.kind old.node).retry result × (N.kind new.node ≡ N.kind old.node)) }
    {
        self.posts[usize::from(at)].retry(out)
    }

    /// The node there goes down: all but its disk is lost.
    pub fn crash(&mut self, at: u8)
        requires there { at < length self.old.posts.items }
        requires up { IsAt self.old.posts.items at (λ post. condition_of (seat_of N.seen post) ≡ conditions.Up) }
        ensures { ChangesAt self.old.posts.items self.new.posts.items at (λ old new. Crashes N.log_in (seat_of N.seen old) (seat_of N.seen new)
            × (N.kind new.node ≡ N.kind old.node)) }
    {
        self.posts[usize::from(at)].crash();
    }

    /// The node there comes up from what its disk has, under power again.
    pub fn restart<D: Device>(&mut self, at: u8, disk: &mut D) -> (Result<(), Fault>, Found)
        requires there { at < length self.old.posts.items }
        requires down { IsAt self.old.posts.items at (λ post. condition_of (seat_of N.seen post) ≡ conditions.Down) }
        ensures { ChangesAt self.old.posts.items self.new.posts.items at (λ old new. Rises N.log_in (N.kind old.node).recovered (seat_of N.seen old)
            (seat_of N.seen new) (D.state disk.old) (D.state disk.new) result.0 result.1 × (N.kind new.node ≡ N.kind old.node)) }
    {
        self.posts[usize::from(at)].restart(disk)
    }

    /// The node there goes for good, and its disk is erased.
    pub fn wipe<D: Device>(&mut self, at: u8, disk: &mut D)
        requires there { at < length self.old.posts.items }
        ensures { ChangesAt self.old.posts.items self.new.posts.items at (λ old new. Wipes N.log_in (seat_of N.seen old) (seat_of N.seen new)
            (D.state disk.old) (D.state disk.new) × (N.kind new.node ≡ N.kind old.node)) }
    {
        self.posts[usize::from(at)].wipe(disk);
    }
}
