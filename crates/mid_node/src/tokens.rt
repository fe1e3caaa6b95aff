// Tokens of the runs of other middle nodes.
ghost use Rattle.std.specs.Prelude.{◌≡◌, ◌+◌, ◌*◌, ◌<◌};
ghost use Rattle.aeg_base.specs.declared.limits.TheConstants.{ROUNDS};
ghost use Rattle.log_values.specs.Outcomes.{IsCommit};
ghost use Rattle.round_model.specs.Service.{Programs};
ghost use Rattle.tier_model.specs.MidRows.{on_token};
ghost use Rattle.mid_rounds.specs.Deciding.{DecidesMove, IsInRange, IsMember, mid_in};

use aeg_base::{Memory, Round};
use frames::Outbox;
use log_values::Token;
use mid_rounds::{Keeping, add_vote};
use node_log::{Decided, Member, Working};
use tier_model::{Idle, Turn};

/// What a middle node claims of a round counts once, and until the round's verdict is learned.
pub fn on_token(
    member: Member,
    up: &mut Working<Keeping>,
    round: Round,
    from: u8,
    token: &Token,
    order: &[u8],
    out: &mut Outbox,
) -> Result<Decided, Memory>
    requires member { IsMember member }
    requires range { (p : Programs) × IsInRange p member up.old }
    requires sender { from < 2 * member.faults + 1 }
    requires round { round < ROUNDS }
    requires fits { IsCommit token.now order.now }
    ensures { (p : Programs) → IsInRange p member up.old → DecidesMove p member (on_token (mid_in member up.old)
        (record { round = round; from = from; token = token.now; order = order.now })) up.old up.new out.old out.new result }
{
    if 2 * round + 1 < up.log.first_open() {
        return Ok(Decided::without_facts(member.alloc, Turn::Idle(Idle::Nothing)));
    }
    if add_vote(member, &mut up.rest.tallies, round, from, token, order)? {
        return Ok(Decided::without_facts(member.alloc, Turn::Did));
    }
    Ok(Decided::without_facts(member.alloc, Turn::Idle(Idle::Nothing)))
}
