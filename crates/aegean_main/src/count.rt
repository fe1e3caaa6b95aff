// The lines behind a step that is refused are still judged: a bad line among them comes before the refusal.
ghost use Rattle.std.specs.Prelude.{◌≡◌, ◌+◌, ◌<◌, ◌^◌, length, Ok, MatchResult};
ghost use Rattle.server_model.specs.Single.{judge, Fails};
ghost use Rattle.aegean_main.specs.Counting.{steps_in};
ghost use Rattle.server_model.specs.Rests.{lines_left};

use crate::reading::{Reading, reading_of};
use server_model::next_line;

/// A line that a row refuses.
#[derive(Clone, Copy, Debug, PartialEq, Eq)]
pub struct BadLine {
    pub line: u32,
    pub row: u8,
}

/// How many steps the lines from this one on are, or the first of them that is refused.
pub fn count_steps(mut rest: Option<&[u8]>, first: u32) -> Result<u32, BadLine>
    requires { first + length (lines_left rest) < 2 ^ 32 }
    ensures { MatchResult result (λ count. steps_in (judge first (lines_left rest.entry)) ≡ Ok count) (λ bad. judge first (lines_left rest.entry) ≡ Fails bad.line bad.row) }
{
    let mut line = first;
    let mut count = 0;
    'lines: while let Some((text, more)) = next_line(rest) {
        match reading_of(text) {
            Reading::Skips => {}
            Reading::Bad(row) => return Err(BadLine { line, row }),
            Reading::Steps(_, _) => count += 1,
        }
        line += 1;
        rest = more;
    }
    Ok(count)
}
