// An acceptor, a learner, and sets of nodes.
ghost use Rattle.std.specs.Prelude.{◌≡◌, ◌+◌, ◌*◌, ◌<◌};
ghost use Rattle.paxos_parts.specs.Learner.{no_news};

use crate::marks::{FIRST, Mark, VALUE};
use aeg_base::{Ballot, Memory};
use paxos_parts::{Acceptance, Acceptor, Learner, Members, Prepared, Seen, Vote};
use std::alloc::Global;
use std::process::Abort;
use std::test::Fail;

const HIGHER: Ballot = Ballot {
    counter: 1,
    node: 2,
};

/// The vote for the value, as an acceptor reports it.
const REPORT: (Ballot, Mark) = (FIRST, VALUE);

/// Whether the answer is a promise with this report.
fn is_promise(answer: &Prepared<Mark>, report: Option<(Ballot, Mark)>) -> bool {
    matches!(answer, Prepared::Promised(found) if *found == report)
}

/// Whether a Prepare of position 0 is answered by a promise with this report.
fn promises(
    acceptor: &mut Acceptor<Mark>,
    ballot: Ballot,
    report: Option<(Ballot, Mark)>,
) -> Result<bool, Memory> {
    Ok(is_promise(&acceptor.prepare(ballot, 0)?, report))
}

/// Whether a Prepare of position 0 is refused, since this ballot is promised.
fn refuses(
    acceptor: &mut Acceptor<Mark>,
    ballot: Ballot,
    promised: Ballot,
) -> Result<bool, Memory> {
    Ok(matches!(acceptor.prepare(ballot, 0)?, Prepared::Stale(found) if found == promised))
}

/// Whether the value at position 0 is accepted so.
fn accepts(
    acceptor: &mut Acceptor<Mark>,
    ballot: Ballot,
    answer: Acceptance,
) -> Result<bool, Memory> {
    Ok(acceptor.accept(ballot, 0, &VALUE)? == answer)
}

/// Whether it promises the first ballot once, and accepts the value with it once.
fn takes_the_first_ballot(acceptor: &mut Acceptor<Mark>) -> Result<bool, Memory> {
    Ok(
        promises(acceptor, FIRST, None)?
            && refuses(acceptor, FIRST, FIRST)?
            && accepts(acceptor, FIRST, Acceptance::Accepted)?
            && accepts(acceptor, FIRST, Acceptance::Again)?,
    )
}

/// Whether it promises the higher ballot with a report, and accepts with the first one no longer.
fn takes_the_higher_ballot(acceptor: &mut Acceptor<Mark>) -> Result<bool, Memory> {
    Ok(
        promises(acceptor, HIGHER, Some(REPORT))?
            && accepts(acceptor, FIRST, Acceptance::Stale(HIGHER))?,
    )
}

/// What was accepted is forgotten: whether nothing is reported, and the promise stays.
fn forgets(acceptor: &mut Acceptor<Mark>) -> Result<bool, Memory> {
    acceptor.forget();
    Ok(acceptor.report(0)?.is_none() && acceptor.promised() == HIGHER)
}

fn promise_and_accept(rt: &impl Abort, acceptor: &mut Acceptor<Mark>) -> Result<(), Fail> {
    assert!(rt; takes_the_first_ballot(acceptor)?);
    assert!(rt; takes_the_higher_ballot(acceptor)?);
    assert!(rt; forgets(acceptor)?);
    Ok(())
}

#[test]
fn an_acceptor_promises_and_accepts(rt: HostRuntime) -> Result<(), Fail> {
    promise_and_accept(&rt, &mut Acceptor::new())
}

/// A node accepts the value at position 0: whether that position is learned then, the first open one, and whether node 0
/// is known to have accepted with the first ballot.
fn heard(learner: &mut Learner<Mark>, from: u8, ballot: Ballot) -> Result<(bool, u16, bool), Memory>
    requires { from < 2 * learner.old.faults + 1 }
    ensures { learner.new.faults ≡ learner.old.faults }
{
    let learned = learner.accepted(from, ballot, 0, &VALUE)?;
    Ok((learned, learner.first_open(), learner.knows(0, FIRST)))
}

/// Whether the learner of a node that is alone learns the value at once.
fn learns_alone(alloc: Global) -> Result<bool, Memory> {
    let mut alone = Learner::new(alloc, 0);
    Ok(alone.accepted(0, FIRST, 0, &VALUE)? && alone.learned(0) == Some(&VALUE))
}

/// Whether the learner of a node of three learns the value once nodes 0 and 1 have accepted it with the same ballot.
fn counts_each_once(learner: &mut Learner<Mark>) -> Result<bool, Memory>
    requires { learner.old.faults ≡ 1 }
{
    Ok(
        heard(learner, 0, FIRST)? == (false, 0, true)
            && heard(learner, 0, FIRST)? == (false, 0, true)
            && heard(learner, 2, HIGHER)? == (false, 0, true)
            && heard(learner, 1, FIRST)? == (true, 1, false),
    )
}

#[test]
fn a_learner_counts_each_node_once(rt: HostRuntime) -> Result<(), Fail> {
    assert!(rt; learns_alone(rt.alloc())?);
    assert!(rt; counts_each_once(&mut Learner::new(rt.alloc(), 1))?);
    Ok(())
}

/// How many members nodes 1, 1 and 2 of three are, and whether node 0 is one.
fn members() -> (u8, bool) {
    let mut members = Members::new(3);
    members.add(1);
    members.add(1);
    members.add(2);
    (members.count(), members.has(0))
}

/// How many of three have accepted with the first ballot, where node 1 has with the higher one, which is told too.
fn ballots() -> (u8, Option<Ballot>) {
    let seen = Seen::new(3).with(0, FIRST).with(1, HIGHER).with(2, FIRST);
    (seen.count(FIRST), seen.at(1))
}

#[test]
fn members_and_ballots_are_counted(rt: HostRuntime) {
    assert!(rt; members() == (2, false));
    assert!(rt; ballots() == (2, Some(HIGHER)));
}

/// The vote for the value at position 1, with the first ballot.
fn voted() -> Vote<Mark> {
    Vote {
        at: 1,
        ballot: FIRST,
        value: VALUE,
    }
}

/// How an acceptor takes another Accept at the position of its vote: with the first ballot, and with a higher one.
fn weighed(acceptor: &Acceptor<Mark>) -> (Acceptance, Acceptance) {
    (acceptor.weigh(FIRST, 1), acceptor.weigh(HIGHER, 1))
}

/// Whether it has voted at position 1 and reports that there, and promises position 2 with no report.
fn tells_its_vote(acceptor: &Acceptor<Mark>) -> Result<bool, Memory> {
    Ok(
        acceptor.has_voted(FIRST, 1)
            && acceptor.report(1)? == Some(REPORT)
            && is_promise(&acceptor.answer(HIGHER, 2)?, None),
    )
}

#[test]
fn a_restored_acceptor_weighs_by_its_vote(rt: HostRuntime) -> Result<(), Fail> {
    let acceptor = Acceptor::restored(FIRST, Some(voted()));
    assert!(rt; weighed(&acceptor) == (Acceptance::Again, Acceptance::Accepted));
    assert!(rt; tells_its_vote(&acceptor)?);
    Ok(())
}

/// An acceptor that has promised the higher ballot takes the first one so.
fn raised(acceptor: &mut Acceptor<Mark>) -> Acceptance {
    acceptor.raise(HIGHER);
    acceptor.weigh(FIRST, 0)
}

/// Its vote with the higher ballot: what it has promised then, and whether it has voted.
fn votes(acceptor: &mut Acceptor<Mark>) -> (Ballot, bool) {
    acceptor.vote(HIGHER, 0, VALUE);
    (acceptor.promised(), acceptor.has_voted(HIGHER, 0))
}

#[test]
fn an_acceptor_raises_its_promise_and_votes(rt: HostRuntime) {
    let mut acceptor = Acceptor::new();
    assert!(rt; raised(&mut acceptor) == Acceptance::Stale(HIGHER));
    assert!(rt; votes(&mut acceptor) == (HIGHER, true));
}

fn note_and_learn(rt: &impl Abort, learner: &mut Learner<Mark>) -> Result<(), Fail>
    requires { learner.old ≡ no_news 1 }
{
    assert!(rt; learner.faults() == 1);
    learner.note(0, FIRST);
    assert!(rt; !learner.completes(0, FIRST));
    assert!(rt; learner.completes(2, FIRST));
    learner.learn(VALUE)?;
    assert!(rt; learner.learned(0) == Some(&VALUE));
    Ok(())
}

#[test]
fn a_learner_notes_who_accepted(rt: HostRuntime) -> Result<(), Fail> {
    note_and_learn(&rt, &mut Learner::new(rt.alloc(), 1))
}
