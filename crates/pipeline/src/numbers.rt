// The next number of a call to each tier.
ghost use Rattle.std.specs.Prelude.{◌≡◌, ◌<◌};
ghost use Rattle.round_model.specs.Lists.{OfTiers, of_tier};
ghost use Rattle.pipeline.specs.States.{greatest};
ghost use Rattle.round_model.specs.Tables.{bump};

use aeg_base::{CallNo, Tier};
use std::marker::Model;

/// The next number of a call to each tier.
#[derive(Clone, Copy, Debug)]
pub struct Numbers {
    mid: CallNo,
    inv: CallNo,
    pay: CallNo,
}

impl Model for Numbers {
    ghost use Rattle.std.specs.Prelude.{ℕ};
    ghost use Rattle.round_model.specs.Lists.{OfTiers};

    ghost Value = { OfTiers ℕ };

    ghost view = { λ n. record { mid = n.mid; inv = n.inv; pay = n.pay } };

    ghost inverse = { λ n. record { mid = n.mid; inv = n.inv; pay = n.pay } };
}

impl Numbers {
    /// Calls are numbered from 1.
    pub fn first() -> Self
        ensures ones { result ≡ record { mid = 1; inv = 1; pay = 1 } }
    {
        Numbers {
            mid: 1,
            inv: 1,
            pay: 1,
        }
    }

    fn of(&self, tier: Tier) -> CallNo
        ensures number { result ≡ of_tier self.now tier }
    {
        match tier {
            Tier::Mid => self.mid,
            Tier::Inv => self.inv,
            Tier::Pay => self.pay,
        }
    }

    /// The number of a call to the tier. The next one has the next number.
    pub fn take(&mut self, tier: Tier) -> CallNo
        requires few { of_tier self.old tier < greatest }
        ensures number { result ≡ of_tier self.old tier }
        ensures next { self.new ≡ bump self.old tier }
    {
        let number = self.of(tier);
        match tier {
            Tier::Mid => self.mid += 1,
            Tier::Inv => self.inv += 1,
            Tier::Pay => self.pay += 1,
        }
        number
    }
}
