// Parts of a text, and numbers in decimal digits.
ghost use Rattle.std.specs.Prelude.{◌≡◌, ◌≤◌, ◌<◌, ◌^◌, [], ◌∷◌, length, MatchOption, SomeIff, IfSome, IfNone};
ghost use Rattle.std.specs.Char.{is_ascii_digit};
ghost use Rattle.std.specs.List.{list_all};
ghost use Rattle.server_model.specs.Further.{further_parts};
ghost use Rattle.server_model.specs.Words.{parts_of, value_of, is_numeral as numeral_test, number_in};

/// The text before the first separator, and the text behind it, if there is one.
pub fn first_part(text: &[u8], separator: u8) -> (&[u8], Option<&[u8]>)
    ensures parts { MatchOption result.1 (parts_of separator text.now ≡ result.0.now ∷ []) (λ rest. parts_of separator text.now ≡ result.0.now ∷ parts_of separator rest.now) }
    ensures whole { IfNone result.1 (result.0.now ≡ text.now) }
    ensures shorter { IfSome result.1 (λ rest. length rest.now < length text.now) }
{
    for (i, b) in text.iter().enumerate() {
        if *b == separator {
            return (&text[..i], Some(&text[i + 1..]));
        }
    }
    (text, None)
}

/// The next part, and the text behind it.
pub fn next_part<'a>(rest: Option<&'a [u8]>, separator: u8) -> Option<(&'a [u8], Option<&'a [u8]>)>
    ensures { MatchOption result (further_parts separator rest.entry ≡ []) (λ found. further_parts separator rest.entry ≡ found.0.now ∷ further_parts separator found.1) }
{
    match rest {
        None => None,
        Some(text) => Some(first_part(text, separator)),
    }
}

fn is_numeral(word: &[u8]) -> bool
    ensures { result ≡ numeral_test word.now }
{
    if word.is_empty() {
        return false;
    }
    if word[0] == b'0' {
        return word.len() == 1;
    }
    all_digits(word)
}

fn all_digits(word: &[u8]) -> bool
    ensures { result ≡ list_all is_ascii_digit word.now }
{
    word.iter().all(|b| b.is_ascii_digit())
}

// It stops at the first digit with which the value passes `high`, so no word is too long for it.
fn value_up_to(word: &[u8], high: u32) -> Option<u32>
    ensures { SomeIff result (value_of word.now ≤ high) (value_of word.now) }
{
    let mut value = 0u64;
    for b in word {
        value = 10 * value + u64::from(b.saturating_sub(48));
        if value > u64::from(high) {
            return None;
        }
    }
    Some(value as u32)
}

/// A number in decimal digits with no zero in front of others, from `low` to `high`.
pub fn number(word: &[u8], low: u32, high: u32) -> Option<u32>
    ensures { result ≡ number_in low high word.now }
{
    if !is_numeral(word) {
        return None;
    }
    let value = value_up_to(word, high)?;
    if value < low {
        return None;
    }
    Some(value)
}
