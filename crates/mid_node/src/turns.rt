// Turns of the node's log.
ghost use Rattle.std.specs.Prelude.{◌≡◌, ◌+◌, ◌*◌, ◌==◌, ◌&&◌, ◌++◌, nat_lt, length, OnOk};
ghost use Rattle.applied_rounds.specs.States.{programs_of};
ghost use Rattle.log_model.specs.Log.{LogState, open_at};
ghost use Rattle.log_values.specs.declared.any_value.AnyValue.{AnyValue};
ghost use Rattle.tier_model.specs.Mid.{apply_sends, apply_state, in_log, ready};
ghost use Rattle.tier_model.specs.MidRows.{leads};
ghost use Rattle.node_log.specs.LogNodes.{IsLogTurn, whole_turn};
ghost use Rattle.node_log.specs.Packets.{all_sealed, StillHas};
ghost use Rattle.mid_rounds.specs.Mids.{mid_with};
ghost use Rattle.mid_rounds.specs.Deciding.{DecidesMove, IsInRange, IsMember, mid_in};

use aeg_base::{Memory, Pos};
use frames::Outbox;
use log_values::AnyValue;
use mid_rounds::{Keeping, Settling, settle_next, tell};
use node_log::{Decided, Member, Working, decide_turn};
use paxos_log::{LogTurn, TierLog};
use svc_api::Service;

/// Whether the log, which had this position open before, has learned the verdict of the next round since.
fn is_due(log: &TierLog<AnyValue>, at: Pos, keeping: &Keeping) -> bool
    ensures { result ≡ (nat_lt at (length log.now.state.learned) && (length log.now.state.learned == 2 * keeping.now.rounds.applied + 2)) }
{
    let open = log.first_open();
    at < open && open == 2 * keeping.rounds.applied() + 2
}

/// Applies the next round, where it can be, and tells of it.
fn apply_due<S: Service>(
    member: Member,
    svc: &S,
    up: &mut Working<Keeping>,
    out: &mut Outbox,
) -> Result<(), Memory>
    requires member { IsMember member }
    requires range { IsInRange (programs_of (S.table svc.now) (S.beginning svc.now)) member up.old }
    ensures state { OnOk result (mid_in member up.new ≡ apply_state (mid_in member up.old)
        (ready (programs_of (S.table svc.now) (S.beginning svc.now)) (mid_in member up.old))) }
    ensures sent { OnOk result (out.new ≡ out.old ++ all_sealed (apply_sends member.faults member.me.index (mid_in member up.old)
        (ready (programs_of (S.table svc.now) (S.beginning svc.now)) (mid_in member up.old)))) }
    ensures journal { OnOk result (up.new.journal ≡ up.old.journal) }
    ensures range { OnOk result (IsInRange (programs_of (S.table svc.now) (S.beginning svc.now)) member up.new) }
    ensures kept { StillHas out.old out.new }
{
    match settle_next(member, svc, &up.log, &mut up.rest)? {
        Settling::Applied(told) => tell(member, &told, out),
        Settling::NoAnswer { .. } => Ok(()),
        Settling::Waits => Ok(()),
    }
}

/// Takes what a turn of the log learned, which made its messages, and had this position open before: where that is the
/// verdict of the next round, the round is applied if it can be.
pub fn take_turn<S: Service>(
    member: Member,
    svc: &S,
    up: &mut Working<Keeping>,
    at: Pos,
    turn: LogTurn<AnyValue>,
    out: &mut Outbox,
) -> Result<Decided, Memory>
    requires member { IsMember member }
    requires range { IsInRange (programs_of (S.table svc.now) (S.beginning svc.now)) member up.old }
    requires turn { IsLogTurn member.faults member.me.tier (whole_turn up.old.log.state turn) }
    ensures { (before : LogState AnyValue) → open_at before ≡ at → DecidesMove (programs_of (S.table svc.now) (S.beginning svc.now)) member
        (in_log member.faults (programs_of (S.table svc.now) (S.beginning svc.now)) member.me.index (mid_with member.me.index before up.old.rest)
        (whole_turn up.old.log.state turn)) up.old up.new out.old out.new result }
{
    let decided = decide_turn(member.alloc, member.me, turn, out)?;
    if is_due(&up.log, at, &up.rest) {
        apply_due(member, svc, up, out)?;
    }
    Ok(decided)
}

/// Begins to lead.
pub fn lead<S: Service>(
    member: Member,
    svc: &S,
    up: &mut Working<Keeping>,
    out: &mut Outbox,
) -> Result<Decided, Memory>
    requires member { IsMember member }
    requires range { IsInRange (programs_of (S.table svc.now) (S.beginning svc.now)) member up.old }
    ensures { DecidesMove (programs_of (S.table svc.now) (S.beginning svc.now)) member
        (leads member.faults (programs_of (S.table svc.now) (S.beginning svc.now)) member.me.index (mid_in member up.old)) up.old up.new out.old out.new result }
{
    let open = up.log.first_open();
    let turn = up.log.lead()?;
    take_turn(member, svc, up, open, turn, out)
}
