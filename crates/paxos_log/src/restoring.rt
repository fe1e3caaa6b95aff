// What the facts of a node leave, the oldest one in front.
ghost use Rattle.std.specs.Prelude.{◌≡◌, ◌+◌, ◌*◌, ◌<◌, ◌≤◌, List, ◌∷◌, length, replicate, None, OnOk, IfOk, IfSome};
ghost use Rattle.log_model.specs.Recover.{higher as higher_of, promised_in, learned_in, accepted_in};
ghost use Rattle.log_model.specs.declared.fact.Fact.{Fact};
ghost use Rattle.paxos_parts.specs.Acceptor.{voted_at};
ghost use Rattle.paxos_log.specs.TierLog.{after_fact, IsNext, AreInOrder, newest_first};

use aeg_base::limits::{MAX_FAULTS, POSITIONS};
use aeg_base::{Ballot, Memory, Pos, Value};
use log_model::Fact;
use paxos_parts::{Acceptor, Learner, Vote};
use std::alloc::Global;

/// The higher one.
fn higher(a: Ballot, b: Ballot) -> Ballot
    ensures { result ≡ higher_of a b }
{
    if a.is_below(b) { b } else { a }
}

/// The highest ballot, after one more fact.
fn raised_by<V: Value>(promised: Ballot, fact: &Fact<V>) -> Ballot
    ensures { (older : List (Fact V)) → promised ≡ promised_in older → result ≡ promised_in (fact.now ∷ older) }
{
    match fact {
        Fact::Promised(b) => higher(promised, *b),
        Fact::Accepted(_, b, _) => higher(promised, *b),
        Fact::Learned(_, _) => promised,
    }
}

/// The highest ballot that was promised or accepted with.
fn highest<V: Value>(facts: &[Fact<V>]) -> Ballot
    ensures { result ≡ promised_in (newest_first facts.now) }
{
    let mut promised = Ballot {
        counter: 0,
        node: 0,
    };
    for fact in facts {
        promised = raised_by(promised, fact);
    }
    promised
}

/// Learns the value, where the fact has one.
fn learn_from<V: Value>(learner: &mut Learner<V>, fact: &Fact<V>) -> Result<(), Memory>
    requires { IsNext (length learner.old.learned) fact.now }
    ensures learned { OnOk result ((older : List (Fact V)) → learner.old.learned ≡ learned_in older → learner.new.learned ≡ learned_in (fact.now ∷ older)) }
    ensures place { OnOk result (length learner.new.learned ≡ after_fact (length learner.old.learned) fact.now) }
    ensures faults { OnOk result (learner.new.faults ≡ learner.old.faults) }
    ensures seen { OnOk result (learner.old.seen ≡ replicate (length learner.old.seen) None → learner.new.seen ≡ learner.old.seen) }
{
    if let Fact::Learned(_, v) = fact {
        let value = v.copy()?;
        return learner.learn(value);
    }
    Ok(())
}

/// The learned values.
pub fn restored_learner<V: Value>(
    alloc: Global,
    u: u8,
    facts: &[Fact<V>],
) -> Result<Learner<V>, Memory>
    requires few { u ≤ MAX_FAULTS }
    requires order { AreInOrder 0 facts.now }
    ensures { IfOk result (λ learner. learner ≡ record { faults = u; learned = learned_in (newest_first facts.now); seen = replicate (2 * u + 1) None }) }
{
    let mut learner = Learner::new(alloc, u);
    for fact in facts {
        learn_from(&mut learner, fact)?;
    }
    Ok(learner)
}

/// The last vote at the position, after one more fact.
fn voted_by<V: Value>(
    vote: Option<Vote<V>>,
    fact: &Fact<V>,
    at: Pos,
) -> Result<Option<Vote<V>>, Memory>
    requires { IfSome vote (λ v. v.at ≤ at) }
    ensures last { (older : List (Fact V)) → voted_at vote at ≡ accepted_in at older → IfOk result (λ next. voted_at next at ≡ accepted_in at (fact.now ∷ older)) }
    ensures place { IfOk result (λ next. IfSome next (λ v. v.at ≤ at)) }
{
    if let Fact::Accepted(p, b, v) = fact {
        if *p == at {
            let value = v.copy()?;
            return Ok(Some(Vote {
                at,
                ballot: *b,
                value,
            }));
        }
    }
    Ok(vote)
}

/// What was last accepted at the position.
fn last_vote<V: Value>(facts: &[Fact<V>], at: Pos) -> Result<Option<Vote<V>>, Memory>
    ensures vote { IfOk result (λ vote. voted_at vote at ≡ accepted_in at (newest_first facts.now)) }
    ensures place { IfOk result (λ vote. IfSome vote (λ v. v.at ≤ at)) }
{
    let mut vote = None;
    for fact in facts {
        vote = voted_by(vote, fact, at)?;
    }
    Ok(vote)
}

/// What is promised, and what was last accepted at the position.
pub fn restored_acceptor<V: Value>(facts: &[Fact<V>], at: Pos) -> Result<Acceptor<V>, Memory>
    ensures promised { IfOk result (λ a. a.promised ≡ promised_in (newest_first facts.now)) }
    ensures vote { IfOk result (λ a. voted_at a.vote at ≡ accepted_in at (newest_first facts.now)) }
    ensures place { IfOk result (λ a. IfSome a.vote (λ v. v.at ≤ at)) }
{
    let promised = highest(facts);
    let vote = last_vote(facts, at)?;
    Ok(Acceptor::restored(promised, vote))
}
