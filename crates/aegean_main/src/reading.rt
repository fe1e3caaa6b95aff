// What a line is.
ghost use Rattle.std.specs.Prelude.{◌≡◌, IfSome};
ghost use Rattle.server_model.specs.Single.{line_of, started_with, start_in, serve_in, resume_in, who_in, tier_in, call_number_in};
ghost use Rattle.server_model.specs.Requests.{request_of};
ghost use Rattle.server_model.specs.Words.{parts_of};
ghost use Rattle.server_model.specs.Further.{further_parts};
ghost use Rattle.aegean_main.specs.Reading.{line_read, step_read, IsNamedReading};
ghost use Rattle.svc_api.specs.Requests.{IsRequest};
ghost use Rattle.one_server.specs.Steps.{IsNamed};

use aeg_base::limits::{CLIENTS, LAST_SEQ};
use aeg_base::{CallNo, ReqId, Tier};
use booking::read_request;
use server_model::{Hist, first_part, next_part, number};

/// The greatest number that a line can give a call.
const LAST_CALL: u32 = 1_000_000;

/// What a line is: one to pass over, one that a row refuses, or a step with the text of its request.
#[derive(Clone, Copy)]
pub enum Reading<'a> {
    Skips,
    Bad(u8),
    Steps(Hist, &'a [u8]),
}

/// The client and the number of a request, as `C.S`.
fn who_of(word: &[u8]) -> Option<ReqId>
    ensures is { result ≡ who_in (parts_of 46 word.now) }
    ensures named { IfSome result IsRequest }
{
    let (client, rest) = first_part(word, b'.');
    let (seq, rest) = next_part(rest, b'.')?;
    if let Some(_) = next_part(rest, b'.') {
        return None;
    }
    let client = number(client, 1, u32::from(CLIENTS))?;
    let seq = number(seq, 1, LAST_SEQ)?;
    Some(ReqId {
        client: client as u8,
        seq,
    })
}

fn tier_of(word: &[u8]) -> Option<Tier>
    ensures { result ≡ tier_in word.now }
{
    if word == b"inv".as_slice() {
        return Some(Tier::Inv);
    }
    if word == b"pay".as_slice() {
        return Some(Tier::Pay);
    }
    None
}

/// A start whose text is a request.
fn started(who: ReqId, call: CallNo, body: &[u8]) -> Reading<'_>
    requires { IsRequest who }
    ensures is { line_read result ≡ started_with who call body.now (request_of body.now) }
    ensures named { IsNamedReading result }
{
    match read_request(body) {
        Ok(_) => Reading::Steps(Hist::Start(who, call), body),
        Err(_) => Reading::Bad(5),
    }
}

/// `CLIENT.SEQ NUMBER REQUEST`, the request being all that follows.
fn start_of(rest: Option<&[u8]>) -> Reading<'_>
    ensures is { line_read result ≡ start_in (further_parts 32 rest.entry) }
    ensures named { IsNamedReading result }
{
    let Some((who, rest)) = next_part(rest, b' ') else {
        return Reading::Bad(3);
    };
    let Some((call, rest)) = next_part(rest, b' ') else {
        return Reading::Bad(3);
    };
    let Some(body) = rest else {
        return Reading::Bad(3);
    };
    let Some(who) = who_of(who) else {
        return Reading::Bad(3);
    };
    let Some(call) = number(call, 0, LAST_CALL) else {
        return Reading::Bad(3);
    };
    if body.is_empty() {
        return Reading::Bad(3);
    }
    started(who, call, body)
}

/// `TIER NUMBER`
fn serve_of(rest: Option<&[u8]>) -> Option<Hist>
    ensures is { step_read result ≡ serve_in (further_parts 32 rest.entry) }
    ensures named { IfSome result IsNamed }
{
    let (tier, rest) = next_part(rest, b' ')?;
    let (call, rest) = next_part(rest, b' ')?;
    if let Some(_) = next_part(rest, b' ') {
        return None;
    }
    let tier = tier_of(tier)?;
    let call = number(call, 1, LAST_CALL)?;
    Some(Hist::Serve(tier, call))
}

/// `CLIENT.SEQ NUMBER`
fn resume_of(rest: Option<&[u8]>) -> Option<Hist>
    ensures is { step_read result ≡ resume_in (further_parts 32 rest.entry) }
    ensures named { IfSome result IsNamed }
{
    let (who, rest) = next_part(rest, b' ')?;
    let (call, rest) = next_part(rest, b' ')?;
    if let Some(_) = next_part(rest, b' ') {
        return None;
    }
    let who = who_of(who)?;
    let call = number(call, 0, LAST_CALL)?;
    Some(Hist::Resume(who, call))
}

/// A step without a text, or a line whose words are wrong.
fn plain(step: Option<Hist>) -> Reading<'static>
    ensures is { line_read result ≡ step_read step }
    ensures named { IfSome step IsNamed → IsNamedReading result }
{
    match step {
        Some(hist) => Reading::Steps(hist, b""),
        None => Reading::Bad(3),
    }
}

/// What a line is.
pub fn reading_of(line: &[u8]) -> Reading<'_>
    ensures is { line_read result ≡ line_of line.now }
    ensures named { IsNamedReading result }
{
    if line.is_empty() || line[0] == b'#' {
        return Reading::Skips;
    }
    let (first, rest) = first_part(line, b' ');
    if first == b"start".as_slice() {
        return start_of(rest);
    }
    if first == b"serve".as_slice() {
        return plain(serve_of(rest));
    }
    if first == b"resume".as_slice() {
        return plain(resume_of(rest));
    }
    Reading::Bad(2)
}
