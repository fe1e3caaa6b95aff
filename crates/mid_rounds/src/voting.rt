// Votes on a round.
ghost use Rattle.std.specs.Prelude.{◌≡◌, ◌+◌, ◌*◌, ◌<◌, not, IfOk, IsTrue, OnOk};
ghost use Rattle.std.specs.List.{AllByRecursion};
ghost use Rattle.round_model.specs.Numbered.{rises, without};
ghost use Rattle.round_model.specs.Verdicts.{claims_in};
ghost use Rattle.tier_model.specs.MidRows.{is_in, with_own};
ghost use Rattle.mid_rounds.specs.Mids.{claims_by};
ghost use Rattle.mid_rounds.specs.Deciding.{IsMember};

use aeg_base::{Memory, Round};
use log_values::Token;
use node_log::Member;
use numbered::Numbered;
use state_verify::Tally;

/// The tally of a number is taken out of the table; an empty one where there is none.
pub fn take_tally(member: Member, tallies: &mut Numbered<Tally>, no: u32) -> Tally
    requires member { IsMember member }
    requires tallies { AllByRecursion (λ e. e.1.faults ≡ member.faults) tallies.old }
    ensures claims { result.claims ≡ claims_in (claims_by tallies.old) no }
    ensures faults { result.faults ≡ member.faults }
    ensures left { tallies.new ≡ without tallies.old no }
    ensures sorted { IsTrue (rises 0 tallies.old) }
{
    match tallies.remove(no) {
        Some(tally) => tally,
        None => Tally::new(member.alloc, member.faults),
    }
}

/// What node `from` claims of a round joins the round's tally, where none of its claims is in: false where one is.
pub fn add_vote(
    member: Member,
    tallies: &mut Numbered<Tally>,
    round: Round,
    from: u8,
    token: &Token,
    order: &[u8],
) -> Result<bool, Memory>
    requires member { IsMember member }
    requires voter { from < 2 * member.faults + 1 }
    requires tallies { AllByRecursion (λ e. e.1.faults ≡ member.faults) tallies.old }
    ensures added { IfOk result (λ added. added ≡ not (is_in (claims_by tallies.old) (record { round = round; from = from; token = token.now; order = order.now }))) }
    ensures votes { OnOk result (claims_by tallies.new ≡ with_own (claims_by tallies.old)
        (record { round = round; from = from; token = token.now; order = order.now })) }
    ensures range { OnOk result (AllByRecursion (λ e. e.1.faults ≡ member.faults) tallies.new) }
{
    let no = u32::from(round);
    let mut tally = take_tally(member, tallies, no);
    let added = tally.add(from, token, order)?;
    tallies.put(no, tally)?;
    Ok(added)
}
