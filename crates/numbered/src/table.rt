// Tables by number.
ghost use Rattle.std.specs.Prelude.{◌≡◌, ◌≤◌, [], None, length, drop, IsTrue, IfOk, IfErr, OnOk, OnErr, option_copied, option_map};
ghost use Rattle.round_model.specs.Numbered.{rises, find, put, without, from, first, last};
ghost use Rattle.numbered.specs.Places.{IsAt, IsGapFor};

use aeg_base::Memory;
use std::alloc::Global;
use std::marker::Model;

/// A table from numbers to values: a list in order of the numbers. Each call searches it in as many steps as a logarithm
/// of its length; a number that goes in or out moves the entries above it, so one that is above all others moves none.
#[derive(Debug, Drop)]
pub struct Numbered<V> {
    rows: Vec<(u32, V)>,
}

impl<V> Model for Numbered<V> {
    ghost use Rattle.std.specs.Prelude.{List, ℕ, IsTrue};
    ghost use Rattle.std.specs.Coded.{coded_list, coded×, coded_ℕ};
    ghost use Rattle.round_model.specs.Numbered.{rises};

    ghost Value = { List (ℕ × V) };

    ghost coded = { coded_list (coded× coded_ℕ V.code) };

    ghost view = { λ t. t.rows.items };

    ghost invariant = { λ t. IsTrue (rises 0 t.rows.items) };
}

/// Where the number is, or where it would go.
fn place_of<V>(rows: &[(u32, V)], no: u32) -> Result<usize, usize>
    requires { IsTrue (rises 0 rows.now) }
    ensures found { IfOk result (IsAt rows.now no) }
    ensures absent { IfErr result (IsGapFor rows.now no) }
{
    rows.binary_search_by_key(&no, |row| row.0)
}

/// How many entries have a number below this one.
fn count_below<V>(rows: &[(u32, V)], no: u32) -> usize
    requires { IsTrue (rises 0 rows.now) }
    ensures most { result ≤ length rows.now }
    ensures rest { drop result rows.now ≡ from rows.now no }
{
    match place_of(rows, no) {
        Ok(at) => at,
        Err(at) => at,
    }
}

/// Drops the first entries, so many.
fn drop_front<V: Drop>(rows: &mut Vec<(u32, V)>, count: usize)
    requires within { count ≤ length rows.old.items }
    ensures rest { rows.new.items ≡ drop count rows.old.items }
{
    rows.drain(..count);
}

impl<V> Numbered<V> {
    /// An empty table.
    pub fn new(alloc: Global) -> Self
        ensures empty { result ≡ [] }
    {
        Numbered {
            rows: Vec::new(alloc),
        }
    }

    /// What it has for the number.
    pub fn find(&self, no: u32) -> Option<&V>
        ensures value { option_copied result ≡ find self.now no }
        ensures sorted { IsTrue (rises 0 self.now) }
    {
        match place_of(&self.rows, no) {
            Ok(at) => Some(&self.rows[at].1),
            Err(_) => None,
        }
    }

    /// The entry with the least number.
    pub fn first(&self) -> Option<(u32, &V)>
        ensures least { option_map (λ row. (row.0, row.1.now)) result ≡ first self.now }
    {
        let row = self.rows.first()?;
        Some((row.0, &row.1))
    }

    /// The entries with the highest numbers, so many, ascending.
    pub fn last(&self, count: usize) -> &[(u32, V)]
        ensures highest { result.now ≡ last count self.now }
    {
        &self.rows[self.rows.len().saturating_sub(count)..]
    }
}

impl<V: Drop> Numbered<V> {
    /// The number has this value from now on. Memory is taken only for a number that had none.
    pub fn put(&mut self, no: u32, value: V) -> Result<(), Memory>
        ensures ok { OnOk result (self.new ≡ put self.old no value) }
        ensures err { OnErr result (self.new ≡ self.old) }
        ensures new { OnErr result (find self.old no ≡ None) }
        ensures sorted { IsTrue (rises 0 self.old) }
    {
        match place_of(&self.rows, no) {
            Ok(at) => {
                self.rows[at] = (no, value);
                Ok(())
            }
            Err(at) => {
                self.rows.insert(at, (no, value))?;
                Ok(())
            }
        }
    }

    /// Gives out the value of the number, which has none from now on.
    pub fn remove(&mut self, no: u32) -> Option<V>
        ensures value { result ≡ find self.old no }
        ensures without { self.new ≡ without self.old no }
        ensures sorted { IsTrue (rises 0 self.old) }
    {
        match place_of(&self.rows, no) {
            Ok(at) => Some(self.rows.remove(at).1),
            Err(_) => None,
        }
    }

    /// The number has none from now on.
    pub fn take_out(&mut self, no: u32)
        ensures without { self.new ≡ without self.old no }
        ensures sorted { IsTrue (rises 0 self.old) }
    {
        let _value = self.remove(no);
    }

    /// Drops all numbers below this one.
    pub fn drop_below(&mut self, no: u32)
        ensures from { self.new ≡ from self.old no }
        ensures sorted { IsTrue (rises 0 self.old) }
    {
        let count = count_below(&self.rows, no);
        drop_front(&mut self.rows, count);
    }
}
