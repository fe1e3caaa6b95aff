// One action of a program, and where it leaves it.
ghost use Rattle.std.specs.Prelude.{◌≡◌};
ghost use Rattle.server_model.specs.Booking.{cell as cell_of};
ghost use Rattle.svc_api.specs.declared.action.Action.TheVariants as acts;

use crate::course::Course;
use crate::keys::cell;
use aeg_base::{Bytes, Tier};
use svc_api::Action;

/// An action, and what is left after it.
#[derive(Drop)]
pub struct Turn {
    pub action: Action,
    pub left: Course,
}

pub fn reads(class: u8, id: u32, left: Course) -> Turn
    ensures { result ≡ record { action = acts.Get (cell_of class id); left = left } }
{
    Turn {
        action: Action::Get(cell(class, id)),
        left,
    }
}

pub fn writes(class: u8, id: u32, value: u64, left: Course) -> Turn
    ensures { result ≡ record { action = acts.Put (cell_of class id) value; left = left } }
{
    Turn {
        action: Action::Put(cell(class, id), value),
        left,
    }
}

pub fn replies(text: Bytes, left: Course) -> Turn
    ensures { result ≡ record { action = acts.Reply text; left = left } }
{
    Turn {
        action: Action::Reply(text),
        left,
    }
}

pub fn calls(tier: Tier, text: Bytes, left: Course) -> Turn
    ensures { result ≡ record { action = acts.Call tier text; left = left } }
{
    Turn {
        action: Action::Call(tier, text),
        left,
    }
}
