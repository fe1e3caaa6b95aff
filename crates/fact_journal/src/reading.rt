// The facts of a journal's records, where they fit a node.
ghost use Rattle.std.specs.Prelude.{◌≡◌, ℕ, ◌≤◌, ◌^◌, ◌++◌, IfOk, OnOk, MatchOption};
ghost use Rattle.node_journal.specs.Journal.{size_of};
ghost use Rattle.fact_journal.specs.Calls.{IsRead, TakesRecord, NoneFits, IsMisfitAt};

use crate::fitting::open_behind_all;
use aeg_base::{Bytes, Memory, Pos, Tier};
use log_values::{Fact, Record};
use node_journal::OpenErr;
use std::alloc::Global;

/// Adds the facts at the end.
fn add_all(facts: &mut Vec<Fact>, more: Vec<Fact>) -> Result<(), Memory>
    ensures { OnOk result (facts.new.items ≡ facts.old.items ++ more.items) }
{
    for fact in more {
        facts.push(fact)?;
    }
    Ok(())
}

/// Adds the facts of the record that the bytes spell, where it fits, and says which position is the first open one then.
fn take_record(
    alloc: Global,
    tier: Tier,
    first: Pos,
    body: &Bytes,
    facts: &mut Vec<Fact>,
) -> Result<Option<Pos>, Memory>
    ensures { IfOk result (λ found. MatchOption found (NoneFits tier first body.now) (λ next. TakesRecord tier first body.now facts.old.items facts.new.items next)) }
{
    let Some(record) = Record::decode(alloc, body.items())? else {
        return Ok(None);
    };
    let Some(next) = open_behind_all(tier, first, record.facts()) else {
        return Ok(None);
    };
    add_all(facts, record.into_facts())?;
    Ok(Some(next))
}

/// The facts of the bodies' records. It refuses at the gate of the first body that has no record, or one that doesn't
/// fit a node of the tier.
pub fn read_facts(alloc: Global, tier: Tier, bodies: &[Bytes]) -> Result<Vec<Fact>, OpenErr>
    ensures read { IfOk result (λ facts. IsRead tier bodies.now facts.items) }
    ensures misfit { (n : ℕ) → result ≡ Err (OpenErr.BadRecord n) → size_of bodies.now ≤ 2 ^ 64 → IsMisfitAt tier n bodies.now }
    ensures never { result ≡ Err OpenErr.Disk → ⊥ }
{
    let mut facts = Vec::new(alloc);
    let mut first = 0;
    let mut at = 0u64;
    for body in bodies {
        match take_record(alloc, tier, first, body, &mut facts) {
            Ok(Some(next)) => {
                first = next;
                at = at.saturating_add(5 + body.items().len() as u64);
            }
            Ok(None) => return Err(OpenErr::BadRecord { at }),
            Err(Memory) => return Err(OpenErr::Memory),
        }
    }
    Ok(facts)
}
