// A node of any tier: a log, a journal, and what else its kind keeps.
ghost use Rattle.std.specs.Prelude.{◌≡◌, ◌+◌, ◌*◌, ◌<◌, ◌≤◌, take, true, false, IfOk, OnOk, OnErr, MatchOption};
ghost use Rattle.tier_model.specs.Moves.{is_node_of};
ghost use Rattle.frames.specs.Headers.{end_index};
ghost use Rattle.node_log.specs.Views.{MayWrite, is_up, new_node, went_down};
ghost use Rattle.node_log.specs.LogNodes.{IsInHand, IsOwnLog, WasAtWork, standing_in};
ghost use Rattle.node_log.specs.Settling.{CanRecord, Records};
ghost use Rattle.node_log.specs.Restarting.{Opens};

use crate::decided::Decided;
use crate::faults::opening_fault;
use crate::peers::node_in;
use crate::recording::write_down;
use crate::working::{Working, at_work};
use aeg_base::limits::MAX_FAULTS;
use aeg_base::{End, Memory, NodeId};
use aeg_disk::Disk;
use fact_journal::FactJournal;
use frames::Outbox;
use log_values::{AnyValue, Fact};
use paxos_log::TierLog;
use std::alloc::Global;
use std::marker::Model;
use tier_model::{Fault, Turn};

/// A node with its log, its journal and the rest of its state while it is up. While it is down it knows where its journal
/// ended.
#[derive(Drop)]
pub struct LogNode<R> {
    alloc: Global,
    faults: u8,
    me: NodeId,
    known: u64,
    up: Option<Box<Working<R>>>,
}

impl<R> Model for LogNode<R> {
    ghost use Rattle.node_log.specs.Views.{View};
    ghost use Rattle.node_log.specs.LogNodes.{Standing, standing_of, place_by, IsLogNode};

    ghost Value = { View (Standing R) };

    ghost view = { λ n. record { faults = n.faults; tier = n.me.tier; me = n.me.index; up = standing_of n.up; place = place_by n.up n.known } };

    ghost invariant = { λ n. IsLogNode n.faults n.me.tier n.me.index n.up };
}

impl<R: Drop> LogNode<R> {
    /// A node that is down, on a blank disk.
    pub fn new(alloc: Global, u: u8, me: NodeId) -> Self
        requires faults { u ≤ MAX_FAULTS }
        requires node { me.index < 2 * u + 1 }
        ensures { result ≡ new_node u me.tier me.index }
    {
        LogNode {
            alloc,
            faults: u,
            me,
            known: 0,
            up: None,
        }
    }

    pub fn is_up(&self) -> bool
        ensures { result ≡ is_up self.now }
    {
        self.up.is_some()
    }

    /// The place of the gate that ends its journal, as far as it knows.
    pub fn place(&self) -> u64
        ensures { result ≡ self.now.place }
    {
        match &self.up {
            None => self.known,
            Some(up) => up.journal.place(),
        }
    }

    /// Its tier and index.
    pub fn id(&self) -> NodeId
        ensures tier { result.tier ≡ self.now.tier }
        ensures index { result.index ≡ self.now.me }
        ensures within { result.index < 2 * self.now.faults + 1 }
    {
        self.me
    }

    /// How many nodes of its tier of 2u+1 may fail.
    pub fn faults(&self) -> u8
        ensures is { result ≡ self.now.faults }
        ensures few { result ≤ MAX_FAULTS }
    {
        self.faults
    }

    /// What it has while it is up.
    pub fn working(&self) -> &Working<R>
        requires { is_up self.now ≡ true }
        ensures { WasAtWork self.now result.now }
    {
        match &self.up {
            None => unreachable!(),
            Some(up) => up,
        }
    }

    /// The index of another end, where it is a node of the same tier.
    pub fn peer(&self, from: End) -> Option<u8>
        ensures { MatchOption result (is_node_of self.now.faults self.now.tier from ≡ false)
            (λ index. (is_node_of self.now.faults self.now.tier from ≡ true) × ((index ≡ end_index from) × (index < 2 * self.now.faults + 1))) }
    {
        node_in(self.faults, self.me.tier, from)
    }

    /// Takes what a node has that is up. It stays down unless it gets it back.
    #[inline(always)]
    pub fn take_up(&mut self) -> Box<Working<R>>
        requires { is_up self.old ≡ true }
        ensures taken { WasAtWork self.old result.value }
        ensures left { self.new ≡ went_down self.old }
    {
        let Some(up) = self.up.take() else {
            unreachable!()
        };
        self.known = up.journal.place();
        up
    }

    /// Goes down: all but its disk is lost.
    pub fn crash(&mut self)
        requires { is_up self.old ≡ true }
        ensures { self.new ≡ went_down self.old }
    {
        let _up = self.take_up();
    }

    /// Comes up again with what was decided without facts.
    pub fn put_back(&mut self, up: Box<Working<R>>)
        requires { IsInHand self.old up.value }
        ensures { self.new ≡ record self.old { up = Some (standing_in up.value) } }
    {
        self.up = Some(up);
    }

    /// Writes down what was decided with the state in hand, and only then takes it over. Where memory ran out before, or
    /// where the journal would pass its limit, the disk fails or memory runs out now, the node stays down, and the packets
    /// behind the first so many are taken back.
    pub fn settle<D: Disk>(
        &mut self,
        up: Box<Working<R>>,
        decided: Result<Decided, Memory>,
        sent: usize,
        disk: &mut D,
        out: &mut Outbox,
    ) -> Result<Turn, Fault>
        requires hand { OnOk decided (IsInHand self.old up.value) }
        requires can { IfOk decided (λ d. CanRecord d.facts.items) }
        requires disk { MayWrite self.old (D.state disk.old) }
        ensures node { OnOk result (self.new ≡ record self.old { up = Some (standing_in up.value); place = self.new.place }) }
        ensures packets { OnOk result (out.new ≡ out.old) }
        ensures down { OnErr result (self.new ≡ self.old) }
        ensures taken_back { OnErr result (out.new ≡ take sent out.old) }
        ensures recorded { Records (D.state disk.old) (D.state disk.new) self.old.place self.new.place decided result }
    {
        let mut up = up;
        match write_down(&mut up.journal, disk, decided) {
            Ok(answer) => {
                self.up = Some(up);
                Ok(answer)
            }
            Err(fault) => {
                drop(up);
                out.truncate(sent);
                Err(fault)
            }
        }
    }

    /// Opens the journal on the disk: the facts that it has, the oldest one first.
    pub fn open<D: Disk>(&self, disk: &mut D) -> Result<(FactJournal, Vec<Fact>), Fault>
        ensures { Opens self.now.tier (D.state disk.old) (D.state disk.new) result }
    {
        match FactJournal::open_on(self.alloc, disk, self.me.tier) {
            Ok(opened) => Ok(opened),
            Err(error) => Err(opening_fault(error)),
        }
    }

    /// Comes up with these.
    pub fn come_up(
        &mut self,
        log: TierLog<AnyValue>,
        journal: FactJournal,
        rest: R,
    ) -> Result<(), Memory>
        requires log { IsOwnLog self.old.faults self.old.tier self.old.me log }
        ensures up { OnOk result (self.new ≡ record self.old { up = Some (record { log = log.state; rest = rest }); place = journal }) }
        ensures memory { OnErr result (self.new ≡ self.old) }
    {
        self.up = Some(at_work(self.alloc, log, journal, rest)?);
        Ok(())
    }
}
