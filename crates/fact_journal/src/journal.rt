// Records of facts on a disk, and what a restart takes of them.
ghost use Rattle.std.specs.Prelude.{◌≡◌, ◌⊎◌, ◌↔◌, ℕ, ◌+◌, ◌-◌, ◌≤◌, ◌^◌, min, List, [], true, false, length, IfOk, OnOk, OnErr};
ghost use Rattle.std.specs.List.{AllByRecursion};
ghost use Rattle.aeg_disk.specs.Disk.{Rose, Later};
ghost use Rattle.node_journal.specs.Append.{LeavesOnly, IsFaultless};
ghost use Rattle.node_journal.specs.Opening.{WasThere};
ghost use Rattle.log_model.specs.Nodes.{writes};
ghost use Rattle.log_values.specs.declared.fact.Fact.{Fact};
ghost use Rattle.log_values.specs.Records.{record_text, FitsFact};
ghost use Rattle.fact_journal.specs.Fitting.{FactsFit, EachFits};
ghost use Rattle.fact_journal.specs.Standing.{HasFacts, IsJournalOf, StandsFor};
ghost use Rattle.fact_journal.specs.Calls.{length_with, is_past, old_or_new, Appended, IsCut, Opened, IsRefusedAt, ReadsOne};

use crate::reading::read_facts;
use aeg_base::limits::{JOURNAL_BYTES, RECORD_BYTES};
use aeg_base::{Bytes, Tier};
use aeg_disk::Disk;
use log_values::{Fact, Record};
use node_journal::{AppendErr, Journal, OpenErr, open_on};
use std::alloc::Global;
use std::marker::Model;
use std::mem;

/// The room, emptied, with none left in its place.
fn emptied(alloc: Global, room: &mut Vec<u8>) -> Bytes
    ensures { result ≡ [] }
{
    let mut bytes = mem::replace(room, Vec::new(alloc));
    bytes.clear();
    Bytes::of(bytes)
}

/// The journal of an opened disk, which contracts see as the place of the shut gate that ends it.
#[derive(Drop)]
pub struct FactJournal {
    alloc: Global,
    journal: Journal,
    // Room for a record, kept from call to call.
    room: Vec<u8>,
}

impl Model for FactJournal {
    ghost use Rattle.std.specs.Prelude.{ℕ};

    ghost Value = { ℕ };

    ghost view = { λ j. j.journal };
}

/// The journal of facts over a journal that was opened.
fn over(alloc: Global, journal: Journal) -> FactJournal
    ensures { result ≡ journal }
{
    FactJournal {
        alloc,
        journal,
        room: Vec::new(alloc),
    }
}

impl FactJournal {
    /// The place of the shut gate that ends it.
    pub fn place(&self) -> u64
        ensures { result ≡ self.now }
    {
        self.journal.place()
    }

    /// Writes down the facts of an event as one record, which is on the disk at `Ok`. Where there are none it does
    /// nothing. After `Disk` or `Memory` the journal is to be opened again.
    pub fn append<D: Disk>(&mut self, disk: &mut D, facts: &Record) -> Result<(), AppendErr>
        requires fit { AllByRecursion FitsFact facts.now }
        requires short { length (record_text facts.now) ≤ RECORD_BYTES }
        // Every image has the same records of facts, with the shut gate at the journal's end.
        requires ready { (D.state disk.old).tells ≡ true → (rs : List (List Fact)) × HasFacts rs (D.state disk.old) self.old }

        // Without facts nothing is written and nothing changes, also on a disk that is armed or stopped.
        ensures idle { writes facts.now ≡ false → (result ≡ Ok tt) × ((D.state disk.new ≡ D.state disk.old) × (self.new ≡ self.old)) }

        ensures full { (n : ℕ) → result ≡ Err (AppendErr.Full n) → (is_past (self.old + 1) facts.now ≡ true) × (n ≡ min (length_with (self.old + 1) facts.now) (2 ^ 64 - 1)) }
        // It is full wherever the record passes the limit, but where there was no memory for the record's bytes.
        ensures past { is_past (self.old + 1) facts.now ≡ true → (result ≡ Err (AppendErr.Full (min (length_with (self.old + 1) facts.now) (2 ^ 64 - 1)))) ⊎ (result ≡ Err AppendErr.Memory) }
        ensures nothing_written { (n : ℕ) → result ≡ Err (AppendErr.Full n) → D.state disk.new ≡ D.state disk.old }

        ensures place { OnOk result (self.new + 1 ≡ length_with (self.old + 1) facts.now) }
        ensures kept { OnErr result (self.new ≡ self.old) }

        // At Ok the record is there. After an error the disk stands for the old records, or these and the new one.
        ensures leaves { (rs : List (List Fact)) → (D.state disk.old).tells ≡ true → HasFacts rs (D.state disk.old) self.old → Appended rs facts.now (D.state disk.new) self.new result }

        // A crash at any moment of the call, inside a device call too, leaves the old records, or these and the new one.
        ensures any_moment { (rs : List (List Fact)) → (D.state disk.old).tells ≡ true → HasFacts rs (D.state disk.old) self.old → LeavesOnly (D.state disk.old) (D.state disk.new) (IsJournalOf (old_or_new rs facts.now)) }

        // Where an armed stop is met, the new record is there exactly at the third or fourth device call with `keep`.
        ensures stopped { (D.state disk.old).stopped ≡ false → (D.state disk.new).stopped ≡ true → (rs : List (List Fact)) → (D.state disk.old).tells ≡ true → HasFacts rs (D.state disk.old) self.old → IsCut rs facts.now (D.state disk.old) (D.state disk.new) }
        // And it is met, where facts were written and no call before failed.
        ensures unmet { OnOk result (writes facts.now ≡ true → (D.state disk.old).armed ≤ 4 → (D.state disk.old).armed ≡ 0) }

        // It doesn't give up by itself: either the disk has failed, or it stands stopped.
        ensures cause { result ≡ Err AppendErr.Disk → ((D.state disk.new).stopped ≡ true) ⊎ Rose (D.state disk.old).faults (D.state disk.new).faults }
        // And what the disk failed is answered as that.
        ensures told { (result ≡ Err AppendErr.Disk) ⊎ IsFaultless (D.state disk.old) (D.state disk.new) }
        ensures later { Later (D.state disk.old) (D.state disk.new) }
    {
        if facts.facts().is_empty() {
            return Ok(());
        }
        let mut body = emptied(self.alloc, &mut self.room);
        facts.encode(&mut body)?;
        let answer = self.journal.append(disk, &body);
        self.room = body.into_vec();
        answer
    }

    /// Opens the journal of a node of the tier on a disk that a crash may have left, and gives the facts of its records,
    /// the oldest one first. It refuses at an open gate that no whole entry follows, and else at the gate of the first
    /// entry that has no record, or one that doesn't fit the node.
    pub fn open_on<D: Disk>(
        alloc: Global,
        disk: &mut D,
        tier: Tier,
    ) -> Result<(FactJournal, Vec<Fact>), OpenErr>
        ensures facts { IfOk result (λ r. (D.state disk.old).tells ≡ true → Opened tier (D.state disk.old) (D.state disk.new) r.1.items r.0) }
        // Whatever the disk tells, the facts fit a node of the tier.
        ensures fit { IfOk result (λ r. FactsFit tier 0 r.1.items) }

        ensures refused { (n : ℕ) → result ≡ Err (OpenErr.BadRecord n) → (D.state disk.old).tells ≡ true → IsRefusedAt tier n (D.state disk.old).bytes }
        ensures whole { OnOk result ((D.state disk.old).tells ≡ true → (n : ℕ) → IsRefusedAt tier n (D.state disk.old).bytes → ⊥) }

        // Of a disk that stands for lists of records that fit it reads one, whose records the disk has then, and it
        // refuses none. After an error the disk stands for the same lists.
        ensures one_list { (lists : List (List (List Fact))) → StandsFor lists (D.state disk.old) → EachFits tier lists → IfOk result (λ r. ReadsOne lists (D.state disk.new) r.1.items r.0) }
        ensures none_refused { (lists : List (List (List Fact))) → StandsFor lists (D.state disk.old) → EachFits tier lists → (n : ℕ) → result ≡ Err (OpenErr.BadRecord n) → ⊥ }
        ensures same_lists { (lists : List (List (List Fact))) → StandsFor lists (D.state disk.old) → OnErr result (StandsFor lists (D.state disk.new)) }

        // A crash at any moment of the call leaves the records of an image that there was.
        ensures any_moment { (D.state disk.old).tells ≡ true → LeavesOnly (D.state disk.old) (D.state disk.new) (WasThere (D.state disk.old)) }

        ensures cause { result ≡ Err OpenErr.Disk → ((D.state disk.new).stopped ≡ true) ⊎ Rose (D.state disk.old).faults (D.state disk.new).faults }
        // And what the disk failed is answered as that.
        ensures told { (result ≡ Err OpenErr.Disk) ⊎ IsFaultless (D.state disk.old) (D.state disk.new) }
        ensures later { Later (D.state disk.old) (D.state disk.new) }
    {
        match open_on(alloc, disk) {
            Ok((journal, bodies)) => match read_facts(alloc, tier, &bodies) {
                Ok(facts) => Ok((over(alloc, journal), facts)),
                Err(e) => Err(e),
            },
            Err(e) => Err(e),
        }
    }
}
