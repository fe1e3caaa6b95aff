// What a step tells, as a line.
ghost use Rattle.std.specs.Prelude.{◌≡◌, ◌++◌, codes, OnOk};
ghost use Rattle.server_model.specs.Single.{told_line, tier_name, steps_line};

use aeg_base::{Memory, Tier};
use itoa::Buffer;
use server_model::Told;

/// The words before a call's number.
fn call_words(tier: Tier) -> &'static [u8]
    ensures { result.now ≡ codes "call " ++ (tier_name tier ++ codes " ") }
{
    match tier {
        Tier::Mid => b"call mid ",
        Tier::Inv => b"call inv ",
        Tier::Pay => b"call pay ",
    }
}

/// The words before an answered call's number.
fn answer_words(tier: Tier) -> &'static [u8]
    ensures { result.now ≡ codes "answer " ++ (tier_name tier ++ codes " ") }
{
    match tier {
        Tier::Mid => b"answer mid ",
        Tier::Inv => b"answer inv ",
        Tier::Pay => b"answer pay ",
    }
}

/// Adds the line that a step tells.
pub fn add_told(text: &mut Vec<u8>, told: &Told) -> Result<(), Memory>
    ensures { OnOk result (text.new.items ≡ text.old.items ++ told_line told.now) }
{
    let mut digits = Buffer::new();
    match told {
        Told::Replied(who, reply) => {
            text.extend_from_slice(b"reply ")?;
            text.extend_from_slice(digits.format(who.client).as_bytes())?;
            text.push(b'.')?;
            text.extend_from_slice(digits.format(who.seq).as_bytes())?;
            text.push(b' ')?;
            text.extend_from_slice(reply.items())?;
        }
        Told::Called(tier, number, call) => {
            text.extend_from_slice(call_words(*tier))?;
            text.extend_from_slice(digits.format(*number).as_bytes())?;
            text.push(b' ')?;
            text.extend_from_slice(call.items())?;
        }
        Told::Answered(tier, number, code) => {
            text.extend_from_slice(answer_words(*tier))?;
            text.extend_from_slice(digits.format(*number).as_bytes())?;
            text.push(b' ')?;
            text.extend_from_slice(digits.format(*code).as_bytes())?;
        }
    }
    text.push(b'\n')?;
    Ok(())
}

/// Adds the last line, which counts the steps.
pub fn add_steps(text: &mut Vec<u8>, count: u32) -> Result<(), Memory>
    ensures { OnOk result (text.new.items ≡ text.old.items ++ steps_line count) }
{
    let mut digits = Buffer::new();
    text.extend_from_slice(b"steps ")?;
    text.extend_from_slice(digits.format(count).as_bytes())?;
    text.extend_from_slice(b"\n")?;
    Ok(())
}
