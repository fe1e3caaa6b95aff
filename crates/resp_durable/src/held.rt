// The answers that a replica holds, of all tiers.
ghost use Rattle.std.specs.Prelude.{◌≡◌, ◌<◌, ◌≤◌, ◌+◌, ◌*◌, ◌↔◌, ℕ, not, map, None, Some, IsTrue, OnOk, OnErr, IfOk};
ghost use Rattle.round_model.specs.Lists.{is_some};
ghost use Rattle.round_model.specs.Numbered.{rises, find, passes};
ghost use Rattle.round_model.specs.Held.{none_held, answers_of, held_code, is_usable, usable, IsHeldByMany, is_noted, holds};
ghost use Rattle.round_model.specs.Held.{takes, hears, floor, highest, with_code};

use crate::answers::Answers;
use crate::replica::{Replica, told_by, untold};
use aeg_base::limits::MAX_FAULTS;
use aeg_base::{CallNo, Memory, Tier};
use round_model::Answer;
use std::alloc::Global;
use std::marker::Model;

/// The answers that a replica holds of each tier, and who else told that it holds them.
#[derive(Debug, Drop)]
pub struct Held {
    alloc: Global,
    replica: Replica,
    mid: Answers,
    inv: Answers,
    pay: Answers,
}

impl Model for Held {
    ghost use Rattle.round_model.specs.Held.{HeldState};
    ghost use Rattle.resp_durable.specs.Floors.{HasFloor};

    ghost Value = { HeldState };

    ghost view = { λ h. record {
      faults = h.replica.faults;
      me = h.replica.me;
      answers = record { mid = h.mid.table; inv = h.inv.table; pay = h.pay.table };
    } };

    ghost invariant = { λ h. (HasFloor h.replica.faults h.replica.me h.mid.table h.mid.floor)
        × (HasFloor h.replica.faults h.replica.me h.inv.table h.inv.floor)
        × (HasFloor h.replica.faults h.replica.me h.pay.table h.pay.floor) };
}

impl Held {
    /// Replica `me` of a tier of 2u+1 holds nothing.
    pub fn new(alloc: Global, u: u8, me: u8) -> Self
        requires few { u ≤ MAX_FAULTS }
        requires index { me < 2 * u + 1 }
        ensures nothing { result ≡ none_held u me }
    {
        Held {
            alloc,
            replica: Replica { faults: u, me },
            mid: Answers::new(alloc),
            inv: Answers::new(alloc),
            pay: Answers::new(alloc),
        }
    }

    fn of(&self, tier: Tier) -> &Answers
        ensures table { result.now.table ≡ answers_of self.now tier }
        ensures floor { result.now.floor ≡ floor self.now tier }
        ensures sorted { IsTrue (rises 0 (answers_of self.now tier)) }
        ensures few { self.now.faults ≤ MAX_FAULTS }
    {
        match tier {
            Tier::Mid => &self.mid,
            Tier::Inv => &self.inv,
            Tier::Pay => &self.pay,
        }
    }

    fn find(&self, tier: Tier, no: CallNo) -> Option<Answer>
        ensures answer { result ≡ find (answers_of self.now tier) no }
        ensures few { self.now.faults ≤ MAX_FAULTS }
    {
        self.of(tier).table.find(no).copied()
    }

    /// The number has this answer from now on, which is usable where the one before it was.
    fn note(&mut self, tier: Tier, no: CallNo, answer: Answer) -> Result<(), Memory>
        requires usable { IsTrue (passes (is_usable self.old.faults self.old.me) (find (answers_of self.old tier) no))
            → IsTrue (is_usable self.old.faults self.old.me answer) }
        ensures ok { OnOk result (self.new ≡ holds self.old tier no answer) }
        ensures err { OnErr result (self.new ≡ self.old) }
    {
        let replica = self.replica;
        match tier {
            Tier::Mid => self.mid.note(replica, no, answer),
            Tier::Inv => self.inv.note(replica, no, answer),
            Tier::Pay => self.pay.note(replica, no, answer),
        }
    }

    /// An answer came. False exactly where one with its number was held, which stays. After an error nothing is
    /// changed.
    pub fn on_answer(&mut self, tier: Tier, no: CallNo, code: u8) -> Result<bool, Memory>
        ensures new { IfOk result (λ new. new ≡ not (is_some (held_code self.old tier no))) }
        ensures ok { OnOk result (self.new ≡ takes self.old tier no code) }
        ensures memory { OnErr result (self.new ≡ self.old) }
        ensures faults { self.new.faults ≡ self.old.faults }
    {
        if self.find(tier, no).is_some() {
            return Ok(false);
        }
        self.note(tier, no, untold(code))?;
        Ok(true)
    }

    /// A replica tells that it holds an answer, so it is held here too. True exactly where it wasn't before: an answer
    /// that is held keeps its code. After an error nothing is changed.
    pub fn on_have(&mut self, from: u8, tier: Tier, no: CallNo, code: u8) -> Result<bool, Memory>
        requires sender { from < 2 * self.old.faults + 1 }
        ensures new { IfOk result (λ new. new ≡ not (is_some (held_code self.old tier no))) }
        ensures ok { OnOk result (self.new ≡ hears self.old from tier no code) }
        ensures memory { OnErr result (self.new ≡ self.old) }
        ensures faults { self.new.faults ≡ self.old.faults }
    {
        match self.find(tier, no) {
            Some(answer) => {
                self.note(tier, no, told_by(answer, from))?;
                Ok(false)
            }
            None => {
                self.note(tier, no, told_by(untold(code), from))?;
                Ok(true)
            }
        }
    }

    /// Whether this replica told that it holds the answer.
    pub fn noted(&self, from: u8, tier: Tier, no: CallNo) -> bool
        requires sender { from < 2 * self.now.faults + 1 }
        ensures told { result ≡ is_noted self.now from tier no }
    {
        match self.find(tier, no) {
            Some(answer) => answer.noted[from as usize],
            None => false,
        }
    }

    /// The code of an answer that is held.
    pub fn held(&self, tier: Tier, no: CallNo) -> Option<u8>
        ensures code { result ≡ held_code self.now tier no }
    {
        let answer = self.find(tier, no)?;
        Some(answer.code)
    }

    /// The code of an answer that is held here and that u+1 replicas are known to hold.
    pub fn usable(&self, tier: Tier, no: CallNo) -> Option<u8>
        ensures code { result ≡ usable self.now tier no }
        ensures exactly { (code : ℕ) → (result ≡ Some code) ↔ IsHeldByMany self.now tier no code }
    {
        self.replica.usable_code(self.find(tier, no))
    }

    /// The least number from 1 that isn't usable, or 4,294,967,295 where all below it are. It is carried along: each
    /// number that becomes usable is passed once.
    pub fn floor(&self, tier: Tier) -> CallNo
        ensures floor { result ≡ floor self.now tier }
        ensures from { 1 ≤ result }
        ensures below { (k : ℕ) → 1 ≤ k → k < result → IsTrue (is_some (usable self.now tier k)) }
        ensures least { result < u32.MAX → usable self.now tier result ≡ None }
    {
        self.of(tier).floor
    }

    /// The 16 highest numbers that are held, ascending, with their codes.
    pub fn highest(&self, tier: Tier) -> Result<Vec<(CallNo, u8)>, Memory>
        ensures codes { IfOk result (λ codes. codes.items ≡ highest self.now tier) }
    {
        codes_of(self.alloc, self.of(tier).table.last(16))
    }
}

fn codes_of(alloc: Global, rows: &[(CallNo, Answer)]) -> Result<Vec<(CallNo, u8)>, Memory>
    ensures codes { IfOk result (λ codes. codes.items ≡ map with_code rows.now) }
{
    let mut codes = Vec::with_capacity(alloc, rows.len())?;
    for row in rows {
        codes.push((row.0, row.1.code))?;
    }
    Ok(codes)
}
