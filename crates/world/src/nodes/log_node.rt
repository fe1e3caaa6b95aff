// What a middle and a backend node share: a log in memory, and a journal on a disk.
ghost use Rattle.std.specs.Prelude.{◌≡◌, ◌+◌, ◌*◌, ◌<◌, ◌≤◌, [], ◌++◌, List, length, true, false, map, IfOk, OnOk, MatchOption, option_copied};
ghost use Rattle.aeg_base.specs.declared.names.End.{End};
ghost use Rattle.log_model.specs.Log.{LogState, open_at};
ghost use Rattle.log_model.specs.Rows.{on_msg as message_row, lead as lead_row, offer as offer_row, wants as wants_of};
ghost use Rattle.log_model.specs.Ranges.{IsTurnIn, IsOwnIn};
ghost use Rattle.log_model.specs.Recover.{recover};
ghost use Rattle.log_model.specs.Nodes.Mode.{Up, Down};
ghost use Rattle.log_values.specs.declared.any_value.AnyValue.{AnyValue};
ghost use Rattle.log_values.specs.Fields.{FitsBallot};
ghost use Rattle.paxos_log.specs.TierLog.{CanOffer};
ghost use Rattle.server_model.specs.Server.{same_tier};
ghost use Rattle.tier_model.specs.Moves.{is_node_of, asks, log_facts, log_packets};
ghost use Rattle.frames.specs.Headers.{end_index};
ghost use Rattle.aeg_disk.specs.Disk.{Later};
ghost use Rattle.fact_journal.specs.Standing.{StandsFor};
ghost use Rattle.log_values.specs.declared.fact.Fact.{Fact};
ghost use Rattle.world.specs.Parts.{AllStand, CanStand, IsLogMessage, MayRead, MayWrite, Reads, goes_down, is_sure_now, is_up, is_wiped, new_part, sealed};
ghost use Rattle.world.specs.NodeLists.{condition_in};
ghost use Rattle.world.specs.LogNodes.{IsRanged, IsSameNode, MakesTurn, WasAtWork, WritesTurn, Turns, log_itself, whole_turn, without_log};

use super::condition::Condition;
use super::restoring::{fault_of, leaves_doubt, list_found, log_facts, opening_fault};
use super::telling::{answer_of, facts_of, send_all};
use super::working::{Working, at_work};
use aeg_base::limits::{MAX_FAULTS, POSITIONS};
use aeg_base::{End, Memory, NodeId, Pos, Seq, Tier};
use aeg_disk::Disk;
use fact_journal::FactJournal;
use frames::Outbox;
use log_values::{AnyValue, Record};
use paxos_log::{LogTurn, Offering, PaxMsg, TierLog};
use std::alloc::Global;
use std::marker::Model;
use tier_model::{Fault, Turn};

/// A node with its log and its journal while it is up. While it is down it knows where its journal ended, and whether its
/// disk may have one record more.
#[derive(Drop)]
pub struct LogNode {
    alloc: Global,
    faults: u8,
    me: NodeId,
    known: u64,
    doubt: bool,
    gone: bool,
    up: Option<Box<Working>>,
}

impl Model for LogNode {
    ghost use Rattle.world.specs.LogNodes.{LogView, mode_of, place_by, IsLogNode};

    ghost Value = { LogView };

    ghost view = { λ n. record { faults = n.faults; tier = n.me.tier; me = n.me.index; part = record { mode = mode_of n.up n.gone; place = place_by n.up n.known; doubt = n.doubt } } };

    ghost invariant = { λ n. IsLogNode n.faults n.me.tier n.me.index n.gone n.doubt n.up };
}

impl LogNode {
    /// A node that is down, on a blank disk.
    pub fn new(alloc: Global, u: u8, me: NodeId) -> Self
        requires faults { u ≤ MAX_FAULTS }
        requires node { me.index < 2 * u + 1 }
        ensures { result ≡ record { faults = u; tier = me.tier; me = me.index; part = new_part } }
    {
        LogNode {
            alloc,
            faults: u,
            me,
            known: 0,
            doubt: false,
            gone: false,
            up: None,
        }
    }

    pub fn condition(&self) -> Condition
        ensures { result ≡ condition_in self.now.part.mode }
    {
        if self.up.is_some() {
            return Condition::Up;
        }
        if self.gone {
            return Condition::Gone;
        }
        Condition::Down
    }

    pub fn is_up(&self) -> bool
        ensures { result ≡ is_up self.now.part }
    {
        self.up.is_some()
    }

    /// The place of the gate that ends its journal, as far as it knows.
    fn place(&self) -> u64
        ensures { result ≡ self.now.part.place }
    {
        match &self.up {
            None => self.known,
            Some(up) => up.journal.place(),
        }
    }

    /// Takes the log and the journal of a node that is up.
    #[inline(always)]
    fn take_up(&mut self) -> Box<Working>
        requires { is_up self.old.part ≡ true }
        ensures taken { WasAtWork self.old result.value }
        ensures left { self.new ≡ without_log self.old }
    {
        let Some(up) = self.up.take() else {
            unreachable!()
        };
        self.known = up.journal.place();
        up
    }

    /// Goes down: all but its disk is lost.
    pub fn crash(&mut self)
        requires { is_up self.old.part ≡ true }
        ensures { self.new ≡ record self.old { part = goes_down self.old.part } }
    {
        let _up = self.take_up();
    }

    /// Is gone for good.
    pub fn wipe(&mut self)
        ensures { self.new ≡ record self.old { part = is_wiped self.old.part } }
    {
        self.known = self.place();
        self.up = None;
        self.gone = true;
        self.doubt = false;
    }

    /// Is told that its disk has just the records that its stop left.
    pub fn be_sure(&mut self)
        ensures { self.new ≡ record self.old { part = is_sure_now self.old.part } }
    {
        self.doubt = false;
    }

    /// The index of another end, where it is a node of the same tier.
    pub fn peer(&self, from: End) -> Option<u8>
        ensures { MatchOption result (is_node_of self.now.faults self.now.tier from ≡ false) (λ index. (is_node_of self.now.faults self.now.tier from ≡ true) × ((index ≡ end_index from) × (index < 2 * self.now.faults + 1))) }
    {
        match from {
            End::Client(_) => None,
            End::Node(node) => {
                if is_same(node.tier, self.me.tier) && node.index < 2 * self.faults + 1 {
                    return Some(node.index);
                }
                None
            }
        }
    }

    pub fn first_open(&self) -> Pos
        requires { is_up self.now.part ≡ true }
        ensures position { (log : LogState AnyValue) → self.now.part.mode ≡ Up log → result ≡ open_at log }
        ensures within { result ≤ POSITIONS }
        ensures range { IsRanged self.now }
    {
        match &self.up {
            None => unreachable!(),
            Some(up) => up.log.first_open(),
        }
    }

    /// What it would offer as a leader, or why it offers nothing.
    pub fn wants(&self) -> Offering
        requires { is_up self.now.part ≡ true }
        ensures offering { (log : LogState AnyValue) → self.now.part.mode ≡ Up log → result ≡ wants_of self.now.faults log }
        ensures range { IsRanged self.now }
    {
        match &self.up {
            None => unreachable!(),
            Some(up) => up.log.wants(),
        }
    }

    pub fn on_msg<D: Disk>(
        &mut self,
        from: u8,
        message: &PaxMsg<AnyValue>,
        disk: &mut D,
        out: &mut Outbox,
    ) -> Result<Turn, Fault>
        requires up { is_up self.old.part ≡ true }
        requires disk { MayWrite self.old.part (D.state disk.old) }
        requires sender { from < 2 * self.old.faults + 1 }
        requires range { IsLogMessage self.old.tier message.now }
        ensures { Turns self.old self.new (D.state disk.old) (D.state disk.new) out.old out.new (λ log. message_row self.old.faults log from message.now) result }
    {
        let mut up = self.take_up();
        let turn = up.log.on_msg(from, message)?;
        self.settle(up, turn, disk, out)
    }

    pub fn lead<D: Disk>(&mut self, disk: &mut D, out: &mut Outbox) -> Result<Turn, Fault>
        requires up { is_up self.old.part ≡ true }
        requires disk { MayWrite self.old.part (D.state disk.old) }
        ensures { Turns self.old self.new (D.state disk.old) (D.state disk.new) out.old out.new (λ log. lead_row self.old.faults self.old.me log) result }
    {
        let mut up = self.take_up();
        let turn = up.log.lead()?;
        self.settle(up, turn, disk, out)
    }

    /// Offers the reported value or, where none was reported, its own.
    pub fn offer<D: Disk>(
        &mut self,
        own: Option<&AnyValue>,
        disk: &mut D,
        out: &mut Outbox,
    ) -> Result<Turn, Fault>
        requires up { is_up self.old.part ≡ true }
        requires disk { MayWrite self.old.part (D.state disk.old) }
        requires can { (log : LogState AnyValue) → self.old.part.mode ≡ Up log → CanOffer (wants_of self.old.faults log) (option_copied own) }
        requires range { (log : LogState AnyValue) → self.old.part.mode ≡ Up log → IsOwnIn (CanStand self.old.tier) (open_at log) (option_copied own) }
        ensures { Turns self.old self.new (D.state disk.old) (D.state disk.new) out.old out.new (λ log. offer_row self.old.faults self.old.me log (option_copied own.entry)) result }
    {
        let mut up = self.take_up();
        let turn = up.log.offer(own)?;
        self.settle(up, turn, disk, out)
    }

    /// Asks the others for the value at its first open position.
    pub fn ask(&self, out: &mut Outbox) -> Result<(), Memory>
        requires { is_up self.now.part ≡ true }
        ensures packets { (log : LogState AnyValue) → self.now.part.mode ≡ Up log → OnOk result (out.new ≡ out.old ++ map sealed (log_packets self.now.tier self.now.me (asks self.now.faults self.now.me (open_at log)))) }
        ensures range { IsRanged self.now }
    {
        let me = self.me;
        let asks = self.asks(self.first_open())?;
        send_all(self.alloc, me, asks, out)
    }

    fn asks(&self, at: Pos) -> Result<Seq<(u8, PaxMsg<AnyValue>)>, Memory>
        ensures { IfOk result (λ list. list ≡ asks self.now.faults self.now.me at) }
    {
        let mut list = Seq::new(self.alloc);
        for index in 0..2 * self.faults + 1 {
            if index != self.me.index {
                list.push((index, PaxMsg::Ask(at)))?;
            }
        }
        Ok(list)
    }

    /// A turn that was decided on the log in hand. Its packets are made, its facts are written down, and only then does the
    /// node take over the log in its next state and hand the packets out. Where the journal would pass its limit, the disk
    /// fails or memory runs out, the node stays down and hands out none.
    #[inline(always)]
    fn settle<D: Disk>(
        &mut self,
        up: Box<Working>,
        turn: LogTurn<AnyValue>,
        disk: &mut D,
        out: &mut Outbox,
    ) -> Result<Turn, Fault>
        requires down { self.old.part.mode ≡ Down }
        requires sure { self.old.part.doubt ≡ false }
        requires place { up.value.journal ≡ self.old.part.place }
        requires own { (up.value.log.faults ≡ self.old.faults) × (up.value.log.me ≡ self.old.me) }
        requires range { IsTurnIn self.old.faults (CanStand self.old.tier) FitsBallot (whole_turn up.value.log.state turn) }
        requires short { length turn.facts ≤ 1 }
        requires disk { MayWrite self.old.part (D.state disk.old) }
        ensures row { MakesTurn self.old self.new out.old out.new (whole_turn up.value.log.state turn) result }
        ensures disk { WritesTurn self.old self.new (D.state disk.old) (D.state disk.new) (whole_turn up.value.log.state turn) result }
        ensures later { Later (D.state disk.old) (D.state disk.new) }
        ensures same { IsSameNode self.old self.new }
    {
        let me = self.me;
        let mut up = up;
        let facts = facts_of(self.alloc, turn.facts)?;
        let record = Record::of(facts);
        let before = out.items().len();
        send_all(self.alloc, me, turn.sends, out)?;
        match up.journal.append(disk, &record) {
            Ok(()) => {
                self.up = Some(up);
                Ok(answer_of(turn.idle))
            }
            Err(error) => {
                drop(up);
                out.truncate(before);
                self.doubt = leaves_doubt(error);
                Err(fault_of(error))
            }
        }
    }

    /// Comes up from what its disk has, and answers which of the lists that it may stand for that is, by its number.
    pub fn restart<D: Disk>(&mut self, disk: &mut D) -> Result<u8, Fault>
        requires down { self.old.part.mode ≡ Down }
        requires disk { MayRead self.old.tier (D.state disk.old) }
        ensures reads { (lists : List (List (List Fact))) → StandsFor lists (D.state disk.old) → AllStand self.old.tier lists → Reads self.old.tier log_itself open_at (λ facts. recover self.old.faults (log_facts facts)) self.old.part self.new.part (D.state disk.old) (D.state disk.new) lists result }
        ensures later { Later (D.state disk.old) (D.state disk.new) }
        ensures same { IsSameNode self.old self.new }
    {
        let (journal, facts) = match FactJournal::open_on(self.alloc, disk, self.me.tier) {
            Ok(opened) => opened,
            Err(error) => return Err(opening_fault(error)),
        };
        let mut log = TierLog::new(self.alloc, self.faults, self.me.index);
        log.restore(&log_facts(self.alloc, facts)?)?;
        let found = list_found(self.doubt, self.known, journal.place());
        self.up = Some(at_work(self.alloc, log, journal)?);
        self.doubt = false;
        Ok(found)
    }
}

fn is_same(a: Tier, b: Tier) -> bool
    ensures { result ≡ same_tier a b }
{
    match a {
        Tier::Mid => matches!(b, Tier::Mid),
        Tier::Inv => matches!(b, Tier::Inv),
        Tier::Pay => matches!(b, Tier::Pay),
    }
}
