// Turns of the node's log.
ghost use Rattle.std.specs.Prelude.{◌≡◌};
ghost use Rattle.log_model.specs.Log.{LogState, open_at};
ghost use Rattle.log_values.specs.declared.any_value.AnyValue.{AnyValue};
ghost use Rattle.tier_model.specs.Back.{in_log};
ghost use Rattle.tier_model.specs.BackRows.{leads};
ghost use Rattle.node_log.specs.LogNodes.{IsLogTurn, whole_turn};
ghost use Rattle.backend_node.specs.Backends.{back_with, backend_by};
ghost use Rattle.backend_node.specs.Deciding.{DecidesMove, IsInRange, IsMember, back_in};

use crate::serving::Serving;
use crate::telling::send_answer_if;
use aeg_base::{Memory, Pos};
use frames::Outbox;
use log_values::AnyValue;
use node_log::{Decided, Member, Working, decide_turn};
use paxos_log::LogTurn;
use svc_api::Backend;

/// Takes what a turn of the log learned, which made its messages, and had this position open before.
pub fn take_turn<B: Backend>(
    member: Member,
    up: &mut Working<Serving<B>>,
    at: Pos,
    turn: LogTurn<AnyValue>,
    out: &mut Outbox,
) -> Result<Decided, Memory>
    requires member { IsMember member }
    requires range { IsInRange member up.old }
    requires turn { IsLogTurn member.faults member.me.tier (whole_turn up.old.log.state turn) }
    ensures { (before : LogState AnyValue) → open_at before ≡ at → DecidesMove member
        (in_log member.faults (backend_by B.opening B.state_after B.code_of) member.me.tier member.me.index (back_with before up.old.rest)
        (whole_turn up.old.log.state turn)) up.old up.new out.old out.new result }
{
    let decided = decide_turn(member.alloc, member.me, turn, out)?;
    let answer = up.rest.learn_at(&up.log, at)?;
    send_answer_if(member, answer, out)?;
    Ok(decided)
}

/// Begins to lead.
pub fn lead<B: Backend>(
    member: Member,
    up: &mut Working<Serving<B>>,
    out: &mut Outbox,
) -> Result<Decided, Memory>
    requires member { IsMember member }
    requires range { IsInRange member up.old }
    ensures { DecidesMove member (leads member.faults (backend_by B.opening B.state_after B.code_of) member.me.tier member.me.index (back_in up.old))
        up.old up.new out.old out.new result }
{
    let open = up.log.first_open();
    let turn = up.log.lead()?;
    take_turn(member, up, open, turn, out)
}
