// The answers of one tier.
ghost use Rattle.std.specs.Prelude.{◌≡◌, ◌<◌, ◌≤◌, ℕ, true, [], IsTrue, OnOk, OnErr};
ghost use Rattle.round_model.specs.Numbered.{rises, find, put, passes};
ghost use Rattle.round_model.specs.Held.{is_usable};
ghost use Rattle.resp_durable.specs.Floors.{HasFloor};

use crate::replica::Replica;
use aeg_base::{CallNo, Memory};
use numbered::Numbered;
use round_model::Answer;
use std::alloc::Global;

/// The answers of one tier by number, and their floor: the least number from 1 that isn't usable.
#[derive(Debug, Drop)]
pub struct Answers {
    pub table: Numbered<Answer>,
    pub floor: CallNo,
}

impl Answers {
    /// None is held.
    pub fn new(alloc: Global) -> Self
        ensures none { result.table ≡ [] }
        ensures floor { result.floor ≡ 1 }
    {
        Answers {
            table: Numbered::new(alloc),
            floor: 1,
        }
    }

    /// Whether the number's answer is usable.
    fn is_usable_at(&self, replica: Replica, no: CallNo) -> bool
        ensures answer { result ≡ passes (is_usable replica.faults replica.me) (find self.now.table no) }
        ensures sorted { IsTrue (rises 0 self.now.table) }
    {
        match self.table.find(no) {
            Some(answer) => replica.is_usable(answer),
            None => false,
        }
    }

    /// Raises the floor past all that became usable.
    fn raise(&mut self, replica: Replica)
        requires below { (k : ℕ) → 1 ≤ k → k < self.old.floor
            → passes (is_usable replica.faults replica.me) (find self.old.table k) ≡ true }
        requires first { 1 ≤ self.old.floor }
        requires last { self.old.floor ≤ u32.MAX }
        ensures table { self.new.table ≡ self.old.table }
        ensures floor { HasFloor replica.faults replica.me self.new.table self.new.floor }
    {
        while self.is_usable_at(replica, self.floor) && self.floor < u32::MAX {
            self.floor += 1;
        }
    }

    /// The number has this answer from now on, which is usable where the one before it was.
    pub fn note(&mut self, replica: Replica, no: CallNo, answer: Answer) -> Result<(), Memory>
        requires floor { HasFloor replica.faults replica.me self.old.table self.old.floor }
        requires usable { IsTrue (passes (is_usable replica.faults replica.me) (find self.old.table no))
            → IsTrue (is_usable replica.faults replica.me answer) }
        ensures ok { OnOk result (self.new.table ≡ put self.old.table no answer) }
        ensures err { OnErr result (self.new.table ≡ self.old.table) }
        ensures floor { HasFloor replica.faults replica.me self.new.table self.new.floor }
    {
        self.table.put(no, answer)?;
        self.raise(replica);
        Ok(())
    }
}
