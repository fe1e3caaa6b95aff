// Calls and floors from middle nodes.
ghost use Rattle.std.specs.Prelude.{◌≡◌, ◌+◌, ◌*◌, ◌<◌, None, false};
ghost use Rattle.log_values.specs.Fields.{IsCallNumber, IsFloor, IsText};
ghost use Rattle.round_model.specs.Shims.{is_done};
ghost use Rattle.tier_model.specs.BackRows.{notes_copy, on_call, on_settle};
ghost use Rattle.backend_node.specs.Deciding.{DecidesMove, IsInRange, IsMember, back_in};

use crate::serving::Serving;
use crate::telling::answer_one;
use aeg_base::{Bytes, CallNo, Memory};
use frames::Outbox;
use node_log::{Decided, Member, Working};
use server_shim::Kept;
use svc_api::Backend;
use tier_model::{Idle, Turn};

/// A middle node's call: one whose code is kept is answered, and one that is not done is noted.
pub fn on_call<B: Backend>(
    member: Member,
    up: &mut Working<Serving<B>>,
    from: u8,
    no: CallNo,
    body: &Bytes,
    out: &mut Outbox,
) -> Result<Decided, Memory>
    requires member { IsMember member }
    requires range { IsInRange member up.old }
    requires sender { from < 2 * member.faults + 1 }
    requires number { IsCallNumber no }
    requires text { IsText body.now }
    ensures { DecidesMove member (on_call member.me.tier member.me.index (back_in up.old) from no body.now) up.old up.new out.old out.new result }
{
    match up.rest.shim.kept(no) {
        Kept::Below => Ok(Decided::without_facts(member.alloc, Turn::Idle(Idle::Nothing))),
        Kept::Answer(code) => {
            answer_one(member, from, no, code, out)?;
            Ok(Decided::without_facts(member.alloc, Turn::Did))
        }
        Kept::NotDone => note_copy(member, up, from, no, body, out),
    }
}

/// A copy of a call that is not done. Each sender's first one counts.
fn note_copy<B: Backend>(
    member: Member,
    up: &mut Working<Serving<B>>,
    from: u8,
    no: CallNo,
    body: &Bytes,
    out: &mut Outbox,
) -> Result<Decided, Memory>
    requires member { IsMember member }
    requires range { IsInRange member up.old }
    requires sender { from < 2 * member.faults + 1 }
    requires number { IsCallNumber no }
    requires text { IsText body.now }
    requires open { is_done up.old.rest.shim no ≡ false }
    ensures { DecidesMove member (notes_copy (back_in up.old) from no body.now) up.old up.new out.old out.new result }
{
    let noted = up.rest.shim.on_call(from, no, body)?;
    if noted {
        return Ok(Decided::without_facts(member.alloc, Turn::Did));
    }
    Ok(Decided::without_facts(member.alloc, Turn::Idle(Idle::Nothing)))
}

/// A middle node's floor.
pub fn on_settle<B: Backend>(
    member: Member,
    up: &mut Working<Serving<B>>,
    from: u8,
    floor: CallNo,
    out: &mut Outbox,
) -> Result<Decided, Memory>
    requires member { IsMember member }
    requires range { IsInRange member up.old }
    requires sender { from < 2 * member.faults + 1 }
    requires floor { IsFloor floor }
    ensures { DecidesMove member (on_settle (back_in up.old) from floor) up.old up.new out.old out.new result }
{
    if up.rest.shim.on_settle(from, floor) {
        return Ok(Decided::without_facts(member.alloc, Turn::Did));
    }
    Ok(Decided::without_facts(member.alloc, Turn::Idle(Idle::Nothing)))
}
