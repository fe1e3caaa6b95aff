// The clients' table after a round.
ghost use Rattle.std.specs.Prelude.{◌≡◌, length, map, IfOk};
ghost use Rattle.std.specs.List.{All};
ghost use Rattle.log_values.specs.Fields.{IsClient};
ghost use Rattle.round_model.specs.Tables.{kept_by};
ghost use Rattle.pipeline.specs.Jobs.{IsAsked};
ghost use Rattle.applied_rounds.specs.ClientsAfter.{all_ended, ended};

use aeg_base::{Bytes, Memory, ReqId};
use batcher::Clients;
use exec_model::Seg;
use std::alloc::Global;
use std::collections::VecDeque;
use svc_api::Ending;

/// The reply of a segment that replied.
fn reply_of(ending: &Ending) -> Result<Option<Bytes>, Memory>
    ensures { IfOk result (λ reply. reply ≡ kept_by ending.now) }
{
    match ending {
        Ending::Reply(text) => Ok(Some(text.copy()?)),
        Ending::Call { .. } => Ok(None),
    }
}

/// The replies of segments, in their order.
pub fn replies_of(alloc: Global, ends: &[Ending]) -> Result<Vec<Option<Bytes>>, Memory>
    ensures { IfOk result (λ replies. replies.items ≡ map kept_by ends.now) }
{
    let mut replies = Vec::with_capacity(alloc, ends.len())?;
    for ending in ends {
        let reply = reply_of(ending)?;
        replies.push(reply)?;
    }
    Ok(replies)
}

/// A segment of the request ended, with its reply or none.
fn end_one(clients: &mut Clients, who: ReqId, reply: Option<Bytes>)
    requires { IsClient who.client }
    ensures { clients.new ≡ ended clients.old who reply }
{
    clients.started(who);
    match reply {
        None => (),
        Some(text) => clients.replied(who, text),
    }
}

/// The segments ended with these replies.
pub fn end_all(clients: &mut Clients, segs: &[Seg], replies: Vec<Option<Bytes>>)
    requires each { length replies.items ≡ length segs.now }
    requires asked { All IsAsked segs.now }
    ensures { clients.new ≡ all_ended clients.old segs.now replies.items }
{
    let mut replies = VecDeque::from(replies);
    'segments: for i in 0..segs.len() {
        let Some(reply) = replies.pop_front() else {
            unreachable!()
        };
        end_one(clients, segs[i].who, reply);
    }
}
