// Lines of a text, words of a line, and numbers.
use server_model::{first_part, next_line, next_part, number};
use std::process::Abort;

/// A text, and its lines.
const TEXTS: [(&[u8], &[&[u8]]); 4] = [
    (b"", &[]),
    (b"serve inv 1", &[b"serve inv 1"]),
    (b"serve inv 1\n", &[b"serve inv 1"]),
    (
        b"serve inv 1\n\nserve pay 1\n",
        &[b"serve inv 1", b"", b"serve pay 1"],
    ),
];

fn has_lines(rt: &impl Abort, text: &[u8], lines: &[&[u8]]) {
    let mut rest = Some(text);
    for line in lines {
        let Some((next, left)) = next_line(rest) else {
            panic!(rt; "a line is missing");
        };
        assert_eq!(rt; next, *line);
        rest = left;
    }
    assert!(rt; next_line(rest).is_none());
}

#[test]
fn lines_of_texts(rt: HostRuntime) {
    for (text, lines) in &TEXTS {
        has_lines(&rt, text, lines);
    }
}

/// A line, its first word, and its further words. Two spaces have an empty word between them.
const LINES: [(&[u8], &[u8], &[&[u8]]); 4] = [
    (b"", b"", &[]),
    (b"look", b"look", &[]),
    (b"book 1 2", b"book", &[b"1", b"2"]),
    (b"book 1  2", b"book", &[b"1", b"", b"2"]),
];

fn has_words(rt: &impl Abort, line: &[u8], first: &[u8], further: &[&[u8]]) {
    let (word, mut rest) = first_part(line, b' ');
    assert_eq!(rt; word, first);
    for word in further {
        let Some((next, left)) = next_part(rest, b' ') else {
            panic!(rt; "a word is missing");
        };
        assert_eq!(rt; next, *word);
        rest = left;
    }
    assert!(rt; next_part(rest, b' ').is_none());
}

#[test]
fn words_of_lines(rt: HostRuntime) {
    for (line, first, further) in &LINES {
        has_words(&rt, line, first, further);
    }
}

/// A word, the least and the greatest number, and what the word is.
const NUMBERS: [(&[u8], u32, u32, Option<u32>); 9] = [
    (b"1", 1, 100, Some(1)),
    (b"100", 1, 100, Some(100)),
    (b"0", 0, 9_999, Some(0)),
    (b"0", 1, 100, None),
    (b"101", 1, 100, None),
    (b"017", 1, 100, None),
    (b"", 0, 100, None),
    (b"1a", 1, 100, None),
    (b"4294967297", 0, 4_294_967_295, None),
];

#[test]
fn numbers_of_words(rt: HostRuntime) {
    for &(word, low, high, value) in &NUMBERS {
        assert_eq!(rt; number(word, low, high), value);
    }
}
