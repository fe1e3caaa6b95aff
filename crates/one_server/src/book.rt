// Items of nested calls, in the order in which they came, each found by its number at once.
ghost use Rattle.std.specs.Prelude.{◌≡◌, ◌∷◌, ◌++◌, [], ℕ, List, None, OnOk, OnErr, option_map};
ghost use Rattle.aeg_base.specs.declared.names.Tier.{Tier};
ghost use Rattle.server_model.specs.Server.{found_in};

use crate::places::Places;
use aeg_base::{CallNo, Memory, Tier};
use std::alloc::Global;
use std::marker::Model;

/// Items of nested calls in the order in which they came, each found by its tier and number.
#[derive(Drop)]
pub struct Book<T> {
    items: Vec<(Tier, CallNo, T)>,
    places: Places,
}

impl<T> Model for Book<T> {
    ghost use Rattle.std.specs.Prelude.{ℕ, List};
    ghost use Rattle.std.specs.Coded.{coded_list};
    ghost use Rattle.aeg_base.specs.declared.names.Tier.{Tier};
    ghost use Rattle.server_model.specs.Codes.{item_code};
    ghost use Rattle.one_server.specs.Places.{AreIndexed};

    ghost Value = { List (Tier × ℕ × T) };

    ghost coded = { coded_list (item_code T.code) };

    ghost view = { λ b. b.items.items };

    ghost invariant = { λ b. AreIndexed b.items.items b.places };
}

impl<T> Book<T> {
    pub fn new(alloc: Global) -> Self
        ensures { result ≡ [] }
    {
        Book {
            items: Vec::new(alloc),
            places: Places::new(alloc),
        }
    }

    pub fn items(&self) -> &[(Tier, CallNo, T)]
        ensures { result.now ≡ self.now }
    {
        &self.items
    }

    /// What the tier's item with this number has.
    pub fn find(&self, tier: Tier, number: CallNo) -> Option<&T>
        ensures { option_map (λ item. item.now) result ≡ found_in self.now tier number }
    {
        match self.places.get(tier, number) {
            None => None,
            Some(place) => Some(&self.items[place].2),
        }
    }

    /// Adds an item whose number is new in its tier.
    pub fn add(&mut self, tier: Tier, number: CallNo, item: T) -> Result<(), Memory>
    where
        T: Drop,
        requires { found_in self.old tier number ≡ None }
        ensures ok { OnOk result (self.new ≡ self.old ++ (tier, number, item) ∷ []) }
        ensures err { OnErr result (self.new ≡ self.old) }
    {
        self.items.reserve(1)?;
        let place = self.items.len();
        self.places.set(tier, number, place)?;
        self.items.push((tier, number, item)).unwrap();
        Ok(())
    }

    /// Puts another item in the place of the last one's, if there is one.
    pub fn set_last(&mut self, item: T)
    where
        T: Drop,
        ensures { (front : List (Tier × ℕ × T)) (tier : Tier) (number : ℕ) (last : T) → self.old ≡ front ++ (tier, number, last) ∷ [] → self.new ≡ front ++ (tier, number, item) ∷ [] }
    {
        if let Some((tier, number, _)) = self.items.pop() {
            self.items.push((tier, number, item)).unwrap();
        }
    }

    /// Takes the last item out, whose number is there once.
    pub fn drop_last(&mut self, tier: Tier, number: CallNo)
    where
        T: Drop,
        requires { (front : List (Tier × ℕ × T)) × ((item : T) × ((self.old ≡ front ++ (tier, number, item) ∷ []) × (found_in front tier number ≡ None))) }
        ensures { (front : List (Tier × ℕ × T)) (item : T) → self.old ≡ front ++ (tier, number, item) ∷ [] → self.new ≡ front }
    {
        self.places.take_out(tier, number);
        self.items.pop();
    }
}
