// The places of one tier's items by their numbers.
ghost use Rattle.std.specs.Prelude.{◌≡◌, ◌==◌, ◌≤◌, ℕ, None, Some, OnOk, OnErr, if◌then◌else◌, length};
ghost use Rattle.std.specs.Ordering.{nat_cmp};
ghost use Rattle.std.specs.BTreeMap.{get};
ghost use Rattle.one_server.specs.Places.{place_at, slot_at};

use aeg_base::{CallNo, Memory};
use std::alloc::Global;
use std::collections::BTreeMap;

/// A number below this has a slot, however few items there are.
const FIRST_SLOTS: usize = 64;

/// The places of one tier's items by their numbers. Numbers rise with the items, so a number is found in its own slot;
/// one far ahead of the items is in a map, since the slots below it would be empty.
#[derive(Drop)]
pub struct Numbering {
    pub slots: Vec<Option<usize>>,
    pub far: BTreeMap<CallNo, usize>,
}

impl Numbering {
    pub fn new(alloc: Global) -> Self
        ensures { (number : ℕ) → place_at result number ≡ None }
    {
        Numbering {
            slots: Vec::new(alloc),
            far: BTreeMap::new(alloc),
        }
    }

    pub fn get(&self, number: CallNo) -> Option<usize>
        ensures { result ≡ place_at self.now number }
    {
        if let Some(&Some(place)) = self.slots.get(number as usize) {
            return Some(place);
        }
        self.far.get(&number).copied()
    }

    /// The slots are at most about twice as many as the items.
    pub fn set(&mut self, number: CallNo, place: usize) -> Result<(), Memory>
        ensures ok { OnOk result ((q : ℕ) → place_at self.new q ≡ (if q == number then Some place else place_at self.old q)) }
        ensures err { OnErr result ((q : ℕ) → place_at self.new q ≡ place_at self.old q) }
    {
        let at = number as usize;
        if at < self.slots.len() {
            self.slots[at] = Some(place);
            return Ok(());
        }
        if at < FIRST_SLOTS || at / 2 <= place {
            return add_slot(&mut self.slots, at, place);
        }
        put(&mut self.far, number, place)
    }

    pub fn take_out(&mut self, number: CallNo)
        ensures { (q : ℕ) → place_at self.new q ≡ (if q == number then None else place_at self.old q) }
    {
        let at = number as usize;
        if at < self.slots.len() {
            self.slots[at] = None;
        }
        remove(&mut self.far, number);
    }
}

/// Adds empty slots, so that there are so many.
fn fill(slots: &mut Vec<Option<usize>>, count: usize) -> Result<(), Memory>
    requires { length slots.old.items ≤ count }
    ensures same { (q : ℕ) → slot_at slots.new.items q ≡ slot_at slots.old.items q }
    ensures filled { OnOk result (length slots.new.items ≡ count) }
{
    while slots.len() < count {
        slots.push(None)?;
    }
    Ok(())
}

/// Adds the slot of a number, behind empty ones, with a place.
fn add_slot(slots: &mut Vec<Option<usize>>, at: usize, place: usize) -> Result<(), Memory>
    requires { length slots.old.items ≤ at }
    ensures ok { OnOk result ((q : ℕ) → slot_at slots.new.items q ≡ (if q == at then Some place else slot_at slots.old.items q)) }
    ensures err { OnErr result ((q : ℕ) → slot_at slots.new.items q ≡ slot_at slots.old.items q) }
{
    fill(slots, at)?;
    slots.push(Some(place))?;
    Ok(())
}

fn remove(places: &mut BTreeMap<CallNo, usize>, number: CallNo)
    ensures { (q : ℕ) → get nat_cmp places.new q ≡ (if q == number then None else get nat_cmp places.old q) }
{
    places.remove(&number);
}

fn put(places: &mut BTreeMap<CallNo, usize>, number: CallNo, place: usize) -> Result<(), Memory>
    ensures ok { OnOk result ((q : ℕ) → get nat_cmp places.new q ≡ (if q == number then Some place else get nat_cmp places.old q)) }
    ensures err { OnErr result ((q : ℕ) → get nat_cmp places.new q ≡ get nat_cmp places.old q) }
{
    places.insert(number, place)?;
    Ok(())
}
