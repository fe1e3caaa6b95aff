// The copies of one call.
ghost use Rattle.std.specs.Prelude.{◌≡◌, ◌<◌, ◌≤◌, IfOk, option_copied};
ghost use Rattle.round_model.specs.Shims.{no_copies, copy_of, with_copy, givers, agreed};

use aeg_base::limits::MAX_FAULTS;
use aeg_base::{Bytes, Memory};
use std::marker::Model;

/// The copies of one call: of each node of a tier of at most five its text, if it gave one.
#[derive(Debug, Drop)]
pub struct Copies {
    texts: [Option<Bytes>; 5],
}

impl Model for Copies {
    ghost use Rattle.std.specs.Prelude.{◌≡◌, List, Option, ℕ, length};

    ghost Value = { List (Option (List ℕ)) };

    ghost view = { λ c. c.texts };

    ghost invariant = { λ c. length c.texts ≡ 5 };
}

/// The same text again, if there is one.
fn again(text: &Option<Bytes>) -> Result<Option<Bytes>, Memory>
    ensures same { IfOk result (λ text'. text' ≡ text.now) }
{
    match text {
        Some(text) => Ok(Some(text.copy()?)),
        None => Ok(None),
    }
}

impl Copies {
    /// Nobody gave one.
    pub fn none() -> Self
        ensures none { result ≡ no_copies }
    {
        Copies {
            texts: [None, None, None, None, None],
        }
    }

    /// The node's copy.
    pub fn of(&self, node: u8) -> Option<&Bytes>
        requires index { node < 5 }
        ensures copy { option_copied result ≡ copy_of self.now node }
    {
        self.texts[node as usize].as_ref()
    }

    /// With a copy of a node.
    pub fn with(&self, node: u8, text: Bytes) -> Result<Self, Memory>
        requires index { node < 5 }
        ensures copies { IfOk result (λ copies. copies ≡ with_copy self.now node text) }
    {
        let mut texts = [
            again(&self.texts[0])?,
            again(&self.texts[1])?,
            again(&self.texts[2])?,
            again(&self.texts[3])?,
            again(&self.texts[4])?,
        ];
        texts[node as usize] = Some(text);
        Ok(Copies { texts })
    }

    /// How many of 2u+1 nodes gave this text.
    fn givers(&self, u: u8, text: &Bytes) -> u8
        requires few { u ≤ MAX_FAULTS }
        ensures count { result ≡ givers u self.now text.now }
    {
        let mut count = 0;
        for node in 0..2 * u + 1 {
            if let Some(copy) = &self.texts[node as usize] {
                if copy == text {
                    count += 1;
                }
            }
        }
        count
    }

    /// The text that u+1 nodes gave.
    pub fn agreed(&self, u: u8) -> Option<&Bytes>
        requires few { u ≤ MAX_FAULTS }
        ensures text { option_copied result ≡ agreed u self.now }
    {
        for node in 0..2 * u + 1 {
            if let Some(text) = self.of(node) {
                if self.givers(u, text) > u {
                    return Some(text);
                }
            }
        }
        None
    }
}
