// Who is known to hold an answer.
ghost use Rattle.std.specs.Prelude.{◌≡◌, ◌<◌, ◌≤◌};
ghost use Rattle.round_model.specs.Lists.{and_then};
ghost use Rattle.round_model.specs.Held.{untold, told_by, holders, is_usable, code_if_usable};

use round_model::Answer;

/// A replica of a tier of 2u+1, by the number u and its index.
#[derive(Clone, Copy, Debug)]
pub struct Replica {
    pub faults: u8,
    pub me: u8,
    ghost few: { faults ≤ 2 },
}

/// An answer with this code, of which nobody else told that it holds it.
pub fn untold(code: u8) -> Answer
    ensures answer { result ≡ untold code }
{
    Answer {
        code,
        noted: [false; 5],
    }
}

/// The answer, once this replica told that it holds it.
pub fn told_by(answer: Answer, from: u8) -> Answer
    requires sender { from < 5 }
    ensures answer { result ≡ told_by answer from }
{
    let mut noted = answer.noted;
    noted[from as usize] = true;
    Answer {
        code: answer.code,
        noted,
    }
}

impl Replica {
    /// How many replicas are known to hold the answer, this one among them.
    fn holders(self, answer: &Answer) -> u8
        ensures count { result ≡ holders self.faults self.me answer.now }
    {
        let mut count = 0;
        for node in 0..2 * self.faults + 1 {
            if node == self.me || answer.noted[node as usize] {
                count += 1;
            }
        }
        count
    }

    /// Whether u+1 replicas are known to hold the answer.
    pub fn is_usable(self, answer: &Answer) -> bool
        ensures usable { result ≡ is_usable self.faults self.me answer.now }
    {
        self.holders(answer) > self.faults
    }

    /// The code of the answer, if there is one that u+1 replicas are known to hold.
    pub fn usable_code(self, answer: Option<Answer>) -> Option<u8>
        ensures code { result ≡ and_then answer (code_if_usable self.faults self.me) }
    {
        let answer = answer?;
        if self.is_usable(&answer) {
            Some(answer.code)
        } else {
            None
        }
    }
}
