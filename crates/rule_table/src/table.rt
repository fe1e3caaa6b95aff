// A table of the numbers of rows.
ghost use Rattle.std.specs.Prelude.{◌≡◌, ◌≢◌, ◌<◌, ℕ, slice_index, length, MatchOption, MatchBool};
ghost use Rattle.rule_table.specs.Rows.{first_row, AreRows};

use std::marker::Model;

/// The numbers of a table's rows, in order: there is one, none is 0, and no two are equal.
#[derive(Clone, Copy, Debug)]
pub struct RuleTable<const N: usize> {
    numbers: [u8; N],
}

impl<const N: usize> Model for RuleTable<N> {
    ghost use Rattle.std.specs.Prelude.{◌≡◌, ℕ, List, length};

    ghost Value = { List ℕ };

    ghost view = { λ t. t.numbers };

    ghost invariant = { λ t. length t.numbers ≡ N };

    ghost inverse = { λ v. record { numbers = v } };
}

impl<const N: usize> RuleTable<N> {
    /// None where there is no row, a number is 0, or two are equal.
    pub fn new(numbers: [u8; N]) -> Option<Self>
        ensures { MatchOption result (¬ AreRows numbers.entry) (λ table. AreRows numbers.entry × (table ≡ numbers.entry)) }
    {
        if N == 0 {
            return None;
        }
        for i in 0..N {
            if numbers[i] == 0 || stands_before(&numbers, i) {
                return None;
            }
        }
        Some(RuleTable { numbers })
    }

    /// The number of the first row that holds.
    pub fn first(&self, holds: &[bool; N]) -> Option<u8>
        ensures { result ≡ first_row self.now holds.now }
    {
        let numbers = &self.numbers;
        for (i, held) in holds.iter().enumerate() {
            if *held {
                return Some(numbers[i]);
            }
        }
        None
    }
}

/// Whether the number at a place stands at an earlier place too.
fn stands_before(numbers: &[u8], at: usize) -> bool
    requires { at < length numbers.now }
    ensures { MatchBool result ((j : ℕ) × ((j < at) × (slice_index numbers.now j ≡ slice_index numbers.now at))) ((j : ℕ) → j < at → slice_index numbers.now j ≢ slice_index numbers.now at) }
{
    for j in 0..at {
        if numbers[j] == numbers[at] {
            return true;
        }
    }
    false
}

/// The conditions of a table's rows, in order.
#[macro_export]
macro_rules! rules {
    ($($condition:expr),* $(,)?) => { [$($condition),*] };
}
