// Whether facts fit a node of a tier.
ghost use Rattle.std.specs.Prelude.{◌≡◌, true, false, MatchOption};
ghost use Rattle.std.specs.List.{AllByRecursion};
ghost use Rattle.log_values.specs.Records.{FitsFact};
ghost use Rattle.fact_journal.specs.Fitting.{is_placed, open_after, open_after_all, FactsFit};

use aeg_base::{Pos, Tier};
use frames::carries;
use log_values::Fact;

/// Whether the fact stands at its place, where this is the first open position.
fn stands(tier: Tier, first: Pos, fact: &Fact) -> bool
    ensures { result ≡ is_placed tier first fact.now }
{
    match fact {
        Fact::Accepted(p, _, v) => carries(tier, *p, v),
        Fact::Learned(p, v) => *p == first && carries(tier, *p, v),
        Fact::Promised(_) | Fact::Held(_, _, _) => true,
    }
}

/// The first open position after the fact, where it stands at its place.
fn open_behind(tier: Tier, first: Pos, fact: &Fact) -> Option<Pos>
    requires { FitsFact fact.now }
    ensures { MatchOption result (is_placed tier first fact.now ≡ false) (λ next. (is_placed tier first fact.now ≡ true) × (next ≡ open_after first fact.now)) }
{
    if !stands(tier, first, fact) {
        return None;
    }
    match fact {
        Fact::Learned(p, _) => Some(*p + 1),
        Fact::Promised(_) | Fact::Accepted(_, _, _) | Fact::Held(_, _, _) => Some(first),
    }
}

/// The first open position after the facts, where each of them stands at its place.
pub fn open_behind_all(tier: Tier, first: Pos, facts: &[Fact]) -> Option<Pos>
    requires { AllByRecursion FitsFact facts.now }
    ensures { MatchOption result (FactsFit tier first facts.now → ⊥) (λ next. FactsFit tier first facts.now × (next ≡ open_after_all first facts.now)) }
{
    let mut next = first;
    for fact in facts {
        match open_behind(tier, next, fact) {
            Some(position) => next = position,
            None => return None,
        }
    }
    Some(next)
}
