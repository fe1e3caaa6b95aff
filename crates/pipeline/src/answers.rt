// Which answers count.
ghost use Rattle.std.specs.Prelude.{◌≡◌, map, option_map};
ghost use Rattle.round_model.specs.Tables.{first_missing, resumed};
ghost use Rattle.pipeline.specs.Jobs.{numbered_as};
ghost use Rattle.pipeline.specs.Answers.{codes_of};

use crate::parked::Parked;
use aeg_base::{CallNo, Tier};
use resp_durable::Held;

/// Which answers count: those that are usable, or all that are held.
#[derive(Clone, Copy, Debug)]
pub enum Known {
    Usable,
    Held,
}

impl Known {
    /// The code of the call's answer, where it counts.
    pub fn code(self, held: &Held, tier: Tier, no: CallNo) -> Option<u8>
        ensures code { result ≡ codes_of self held.now tier no }
    {
        match self {
            Known::Usable => held.usable(tier, no),
            Known::Held => held.held(tier, no),
        }
    }

    /// The call of the first request whose answer doesn't count.
    pub fn first_missing(self, waiting: &[Parked], held: &Held) -> Option<(Tier, CallNo)>
        ensures first { option_map numbered_as result ≡ first_missing (codes_of self held.now) (map resumed waiting.now) }
    {
        for parked in waiting {
            let (tier, no) = (parked.tier(), parked.number());
            if self.code(held, tier, no).is_none() {
                return Some((tier, no));
            }
        }
        None
    }
}
