// The lines of an input.
ghost use Rattle.std.specs.Prelude.{◌≤◌, ◌↔◌, length, IsTrue};
ghost use Rattle.server_model.specs.Single.{lines_of};

use server_model::next_line;

/// Whether the input has at most so many lines.
pub fn has_lines_within(input: &[u8], most: usize) -> bool
    ensures { IsTrue result ↔ (length (lines_of input.now) ≤ most) }
{
    let mut rest = Some(input);
    let mut count = 0;
    'lines: while let Some((_, more)) = next_line(rest) {
        if count == most {
            return false;
        }
        count += 1;
        rest = more;
    }
    true
}
