// Whether an entry is fresh.
ghost use Rattle.std.specs.Prelude.{◌≡◌, IfOk, Ok, false};
ghost use Rattle.log_values.specs.Fields.{IsClient};
ghost use Rattle.server_model.specs.Booking.{booking_table};
ghost use Rattle.round_model.specs.Service.{Programs};
ghost use Rattle.round_model.specs.Tables.{Tables, is_fresh};
ghost use Rattle.batcher.specs.Clients.{Agrees};
ghost use Rattle.batcher.specs.Tabled.{is_next, is_fresh_by};

use crate::Clients;
use aeg_base::{Memory, ReqId};
use booking::read_request;
use log_values::Entry;
use svc_api::Service;

/// Whether the entry is a request of the booking service, its client's next, and the client has none in progress.
pub fn fresh(clients: &Clients, e: &Entry) -> bool
    requires { IsClient e.now.client }
    ensures { (m : Programs) (T : Tables) → m.table ≡ booking_table → Agrees clients.now T → result ≡ is_fresh m T e.now }
{
    is_booking_request(clients, e)
}

/// The same, by the client table alone.
fn is_booking_request(clients: &Clients, e: &Entry) -> bool
    requires { IsClient e.now.client }
    ensures { result ≡ is_fresh_by booking_table clients.now e.now }
{
    if !clients.is_next(e) {
        return false;
    }
    read_request(e.body.items()).is_ok()
}

/// Whether the entry is a request of the service, its client's next, and the client has none in progress. The service is
/// asked only of an entry with its client's next number, so elsewhere no memory is taken.
pub fn fresh_in<S: Service>(svc: &S, clients: &Clients, e: &Entry) -> Result<bool, Memory>
    requires { IsClient e.now.client }
    ensures fresh { (m : Programs) (T : Tables) → m.table ≡ S.table svc.now → Agrees clients.now T → IfOk result (λ fresh. fresh ≡ is_fresh m T e.now) }
    ensures elsewhere { is_next clients.now e.now ≡ false → result ≡ Ok false }
{
    is_request_of(svc, clients, e)
}

/// The same, by the client table alone.
pub(crate) fn is_request_of<S: Service>(
    svc: &S,
    clients: &Clients,
    e: &Entry,
) -> Result<bool, Memory>
    requires { IsClient e.now.client }
    ensures fresh { IfOk result (λ fresh. fresh ≡ is_fresh_by (S.table svc.now) clients.now e.now) }
    ensures elsewhere { is_next clients.now e.now ≡ false → result ≡ Ok false }
{
    if !clients.is_next(e) {
        return Ok(false);
    }
    let who = ReqId {
        client: e.client,
        seq: e.seq,
    };
    let program = svc.begin(who, &e.body, 0)?;
    Ok(program.is_some())
}
