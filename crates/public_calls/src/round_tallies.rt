// The tally of a round's tokens.
ghost use Rattle.std.specs.Prelude.{◌≡◌, ◌+◌, ◌*◌, ◌<◌, ◌≤◌};

use aeg_base::{Bytes, Memory};
use log_values::{Token, Verdict};
use state_verify::Tally;
use std::alloc::Global;
use std::test::*;

/// What a tally comes to: a commit by the first bytes of its token and of its order.
#[derive(Clone, Copy, PartialEq)]
enum CameTo {
    Open,
    Serial,
    Commit(Option<u8>, Option<u8>),
}

fn tally_of(alloc: Global, u: u8) -> Tally
    requires { u ≤ 2 }
    ensures { result.faults ≡ u }
{
    Tally::new(alloc, u)
}

/// A node tells a token and an order of one byte each. How many are in then, and what they come to.
fn told(
    alloc: Global,
    tally: &mut Tally,
    from: u8,
    token: u8,
    order: u8,
) -> Result<(bool, u8, CameTo), Memory>
    requires { from < 2 * tally.old.faults + 1 }
    ensures { tally.new.faults ≡ tally.old.faults }
{
    let added = tally.add(from, &token_of(alloc, token)?, &[order])?;
    Ok((added, tally.have(), verdict_of(tally)?))
}

fn token_of(alloc: Global, byte: u8) -> Result<Token, Memory> {
    Ok(Token::of(Bytes::of(Vec::from_slice(alloc, &[byte])?)))
}

fn verdict_of(tally: &Tally) -> Result<CameTo, Memory> {
    match tally.verdict()? {
        None => Ok(CameTo::Open),
        Some(Verdict::Serial) => Ok(CameTo::Serial),
        Some(Verdict::Commit { token, order }) => Ok(CameTo::Commit(
            token.bytes().first().copied(),
            order.items().first().copied(),
        )),
    }
}

/// Whether two of five tokens come to nothing, three to a Serial verdict, and three that agree to a commit.
fn come_to_a_verdict(alloc: Global, tally: &mut Tally) -> Result<bool, Memory>
    requires { tally.old.faults ≡ 2 }
{
    let commit = CameTo::Commit(Some(9), Some(11));
    Ok(
        told(alloc, tally, 0, 1, 10)? == (true, 1, CameTo::Open)
            && told(alloc, tally, 4, 9, 14)? == (true, 2, CameTo::Open)
            && told(alloc, tally, 0, 9, 10)? == (false, 2, CameTo::Open)
            && told(alloc, tally, 3, 9, 13)? == (true, 3, CameTo::Serial)
            && told(alloc, tally, 1, 9, 11)? == (true, 4, commit),
    )
}

#[test]
fn three_of_five_tokens_make_a_verdict(rt: HostRuntime) -> Result<(), Fail> {
    assert!(rt; come_to_a_verdict(rt.alloc(), &mut tally_of(rt.alloc(), 2))?);
    Ok(())
}
