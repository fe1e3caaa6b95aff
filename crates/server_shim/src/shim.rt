// What a backend replica keeps between its middle nodes and its log.
ghost use Rattle.std.specs.Prelude.{◌≡◌, ◌<◌, ◌≤◌, ◌+◌, ◌*◌, not, Ok, None, OnOk, OnErr, IfOk, IfSome, IfNone, option_map};
ghost use Rattle.round_model.specs.Shims.{new_shim, copies_at, with_copy, is_done, ignores, takes_copy, serves, settles, highest};
ghost use Rattle.round_model.specs.Shims.{ready, IsLeastReady, IsNoneReady, rises_to, told_floor, due_floor, IsGreatestTold};
ghost use Rattle.server_shim.specs.Answers.{answer_of};

use crate::calls::Calls;
use crate::copies::Copies;
use crate::floors::due;
use crate::kept::Kept;
use aeg_base::limits::MAX_FAULTS;
use aeg_base::{Bytes, CallNo, Memory};
use numbered::Numbered;
use std::alloc::Global;
use std::marker::Model;

/// The copies of calls that middle nodes gave and that aren't served yet, the answers that are kept, from the settled
/// floor on, and the floor that each middle node told.
#[derive(Debug, Drop)]
pub struct Shim {
    alloc: Global,
    faults: u8,
    kept: Numbered<u8>,
    floor: CallNo,
    calls: Calls,
    floors: [CallNo; 5],
}

impl Model for Shim {
    ghost use Rattle.std.specs.Prelude.{◌≡◌, ◌≤◌, length};
    ghost use Rattle.round_model.specs.Shims.{ShimState, AreWaiting};
    ghost use Rattle.server_shim.specs.Calls.{AreReady};

    ghost Value = { ShimState };

    ghost view = { λ s. record { faults = s.faults; kept = s.kept; floor = s.floor; copies = s.calls.copies; floors = s.floors } };

    ghost invariant = { λ s. (s.faults ≤ 2)
        × (length s.floors ≡ 5)
        × (AreReady s.faults s.calls.copies s.calls.ready)
        × (AreWaiting s.kept s.floor s.calls.copies) };
}

impl Shim {
    /// Nothing was told or served yet. Middle nodes are a tier of 2u+1.
    pub fn new(alloc: Global, u: u8) -> Self
        requires few { u ≤ MAX_FAULTS }
        ensures nothing { result ≡ new_shim u }
    {
        Shim {
            alloc,
            faults: u,
            kept: Numbered::new(alloc),
            floor: 1,
            calls: Calls::new(alloc),
            floors: [1; 5],
        }
    }

    /// Whether the call was served, or its number is below the floor.
    pub fn is_done(&self, no: CallNo) -> bool
        ensures done { result ≡ is_done self.now no }
    {
        no < self.floor || self.kept.find(no).is_some()
    }

    /// Whether a copy of the node doesn't count.
    fn ignores(&self, from: u8, no: CallNo) -> bool
        requires sender { from < 2 * self.now.faults + 1 }
        ensures ignores { result ≡ ignores self.now from no }
    {
        if self.is_done(no) {
            return true;
        }
        match self.calls.copies.find(no) {
            Some(copies) => copies.of(from).is_some(),
            None => false,
        }
    }

    /// The copies of the call, with one of this node.
    fn with_copy(&self, from: u8, no: CallNo, text: Bytes) -> Result<Copies, Memory>
        requires sender { from < 2 * self.now.faults + 1 }
        ensures copies { IfOk result (λ copies. copies ≡ with_copy (copies_at self.now no) from text) }
    {
        match self.calls.copies.find(no) {
            Some(copies) => copies.with(from, text),
            None => Copies::none().with(from, text),
        }
    }

    /// A middle node's copy of a call. False exactly where it doesn't count: the node gave one, or the call is served or
    /// below the floor. After an error nothing is changed.
    pub fn on_call(&mut self, from: u8, no: CallNo, body: &Bytes) -> Result<bool, Memory>
        requires sender { from < 2 * self.old.faults + 1 }
        ensures noted { IfOk result (λ noted. noted ≡ not (ignores self.old from no)) }
        ensures ok { OnOk result (self.new ≡ takes_copy self.old from no body.now) }
        ensures memory { OnErr result (self.new ≡ self.old) }
        ensures faults { self.new.faults ≡ self.old.faults }
    {
        if self.ignores(from, no) {
            return Ok(false);
        }
        let copies = self.with_copy(from, no, body.copy()?)?;
        self.calls.note(self.faults, no, copies)?;
        Ok(true)
    }

    /// The call with the least number of which u+1 nodes gave equal copies.
    fn least(&self) -> Option<(CallNo, &Bytes)>
        ensures call { option_map (λ row. (row.0, row.1.now)) result ≡ ready self.now }
        ensures least { IfSome result (λ row. IsLeastReady self.now (row.0, row.1.now)) }
        ensures nothing { IfNone result (IsNoneReady self.now) }
    {
        self.calls.ready.first()
    }

    /// The call with the least number of which u+1 nodes gave equal copies. It wasn't served, and isn't below the floor.
    pub fn ready(&self) -> Result<Option<(CallNo, Bytes)>, Memory>
        ensures call { IfOk result (λ call. call ≡ ready self.now) }
        ensures least { IfOk result (λ call. IfSome call (IsLeastReady self.now)) }
        ensures nothing { IfOk result (λ call. IfNone call (IsNoneReady self.now)) }
        ensures none { ready self.now ≡ None → result ≡ Ok None }
    {
        match self.least() {
            Some((no, text)) => Ok(Some((no, text.copy()?))),
            None => Ok(None),
        }
    }

    /// The call was served with this code. After an error nothing is changed.
    pub fn served(&mut self, no: CallNo, code: u8) -> Result<(), Memory>
        ensures ok { OnOk result (self.new ≡ serves self.old no code) }
        ensures memory { OnErr result (self.new ≡ self.old) }
        ensures faults { self.new.faults ≡ self.old.faults }
    {
        self.kept.put(no, code)?;
        self.calls.take_out(self.faults, no);
        Ok(())
    }

    /// A middle node tells its floor. False where it isn't above the one that it told.
    pub fn on_settle(&mut self, from: u8, floor: CallNo) -> bool
        requires sender { from < 2 * self.old.faults + 1 }
        ensures told { result ≡ rises_to self.old from floor }
        ensures after { self.new ≡ told_floor self.old from floor }
        ensures faults { self.new.faults ≡ self.old.faults }
    {
        if floor <= self.floors[from as usize] {
            return false;
        }
        self.floors[from as usize] = floor;
        true
    }

    /// The (u+1)-th largest floor that was told, where it is above the settled one.
    pub fn due(&self) -> Option<CallNo>
        ensures due { result ≡ due_floor self.now }
        ensures greatest { IfSome result (IsGreatestTold self.now) }
    {
        let floor = due(self.faults, &self.floors);
        if self.floor < floor {
            Some(floor)
        } else {
            None
        }
    }

    /// Settles a floor that is above the settled one: what is kept below it is dropped.
    pub fn settle(&mut self, floor: CallNo)
        ensures after { self.new ≡ settles self.old floor }
        ensures faults { self.new.faults ≡ self.old.faults }
    {
        if floor <= self.floor {
            return;
        }
        self.floor = floor;
        self.kept.drop_below(floor);
        self.calls.drop_below(self.faults, floor);
    }

    /// The 16 highest numbers that are kept, ascending, with their codes.
    pub fn highest(&self) -> Result<Vec<(CallNo, u8)>, Memory>
        ensures codes { IfOk result (λ codes. codes.items ≡ highest self.now) }
    {
        Ok(Vec::from_slice(self.alloc, self.kept.last(16))?)
    }

    /// What is kept of a call.
    pub fn kept(&self, no: CallNo) -> Kept
        ensures answer { result ≡ answer_of self.now no }
    {
        if no < self.floor {
            return Kept::Below;
        }
        match self.kept.find(no) {
            Some(code) => Kept::Answer(*code),
            None => Kept::NotDone,
        }
    }
}
