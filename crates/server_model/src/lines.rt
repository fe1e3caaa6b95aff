// The lines of an input.
ghost use Rattle.std.specs.Prelude.{◌≡◌, ◌∷◌, [], ◌<◌, IfSome, MatchOption};
ghost use Rattle.server_model.specs.Rests.{lines_left, size_left};

use crate::words::first_part;

/// The next line, and the text behind it. The last line's end may be missing.
pub fn next_line<'a>(rest: Option<&'a [u8]>) -> Option<(&'a [u8], Option<&'a [u8]>)>
    ensures lines { MatchOption result (lines_left rest.entry ≡ []) (λ found. lines_left rest.entry ≡ found.0.now ∷ lines_left found.1) }
    ensures shorter { IfSome result (λ found. size_left found.1 < size_left rest.entry) }
{
    let text = rest?;
    if text.is_empty() {
        return None;
    }
    Some(first_part(text, b'\n'))
}
