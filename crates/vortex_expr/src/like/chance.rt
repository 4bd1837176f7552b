//! Where in a text a pattern may match next: where its plain beginning stands, which is found among
//! the text's bytes.
ghost use Rattle.std.specs.Prelude.{◌≡◌, ◌<◌, ◌≤◌, Bool, List, ℕ, true, length, encode_utf8_all};
ghost use Rattle.std.specs.Str.{chars};
ghost use Rattle.memchr.specs.Find.{IsFirstByte, OccursAt, Passes, is_byte2};
ghost use Rattle.vortex_expr.specs.Patterns.Chance.{IsFromFirst, is_sign_or_letter};
ghost use Rattle.vortex_expr.specs.Patterns.Like.{folded, items, like, some_end};
ghost use Rattle.vortex_expr.specs.Patterns.LikeSearch.{characters};

use super::ascii::split_ascii;
use super::{Characters, Item, next_item};
use memchr::{memchr2, memchr3, memmem};

// A plain beginning of more bytes is not searched for whole.
const MOST_BYTES: usize = 64;

// The bytes before the first wildcard or backslash, if they are not too many.
fn plain_beginning(pattern: &str) -> &str
    ensures { (ds : List ℕ) → like (items (chars pattern.now)) ds ≡ true
        → OccursAt (encode_utf8_all ds) result.now 0 }
{
    let bytes = pattern.as_bytes();
    let front = &bytes[..bytes.len().min(MOST_BYTES)];
    match memchr3(b'%', b'_', b'\\', front) {
        Some(end) => &pattern[..end],
        None if bytes.len() <= MOST_BYTES => pattern,
        None => "",
    }
}

fn first_sign_or_letter(bytes: &[u8]) -> Option<usize>
    ensures { IsFirstByte is_sign_or_letter bytes.now result }
{
    for (place, byte) in bytes.iter().enumerate() {
        let byte = *byte;
        if byte == b'%' || byte == b'_' || byte == b'\\' {
            return Some(place);
        }
        if byte.to_ascii_lowercase() != byte.to_ascii_uppercase() {
            return Some(place);
        }
    }
    None
}

// The beginning before the first ASCII letter too, whose case may be ignored.
fn caseless_beginning(pattern: &str) -> &str
    ensures { (b d : Bool) (ds : List ℕ)
        → like (items (folded b (chars pattern.now))) (folded d ds) ≡ true
        → OccursAt (encode_utf8_all ds) result.now 0 }
{
    let bytes = pattern.as_bytes();
    let front = &bytes[..bytes.len().min(MOST_BYTES)];
    match first_sign_or_letter(front) {
        Some(end) => &pattern[..end],
        None if bytes.len() <= MOST_BYTES => pattern,
        None => "",
    }
}

fn beginning<'a>(pattern: Characters<'a>, text_ignores: bool) -> &'a str
    ensures { (ds : List ℕ)
        → like (items (characters pattern.entry)) (folded text_ignores ds) ≡ true
        → OccursAt (encode_utf8_all ds) result.now 0 }
{
    if pattern.ignore_case || text_ignores {
        caseless_beginning(pattern.text)
    } else {
        plain_beginning(pattern.text)
    }
}

// The text from the first place on at which the run stands, or its end.
fn from_run<'a>(text: &'a str, run: &str) -> &'a str
    requires { 0 < length run.now }
    ensures { IsFromFirst (OccursAt text.now run.now) text.now result.now }
{
    match memmem::find(text.as_bytes(), run.as_bytes()) {
        Some(place) => &text[place..],
        None => "",
    }
}

// The text from the first of two ASCII bytes on, or its end.
fn from_either(text: &str, byte: u8, other: u8) -> &str
    requires byte { byte < 128 }
    requires other { other < 128 }
    ensures { IsFromFirst (Passes (is_byte2 byte other) text.now) text.now result.now }
{
    match memchr2(byte, other, text.as_bytes()) {
        Some(place) => &text[place..],
        None => "",
    }
}

// The text from the first place on that holds the pattern's first item, if it is an ASCII letter.
#[inline(never)]
fn from_item<'a>(pattern: Characters<'a>, text: Characters<'a>) -> Characters<'a>
    ensures same { let test = like (items (characters pattern.entry)) in
        some_end test (characters result) ≡ some_end test (characters text.entry) }
    ensures shorter { length (characters result) ≤ length (characters text.entry) }
{
    match next_item(pattern) {
        None => text.end(),
        Some((Item::Char(letter), _)) if letter < '\u{80}' => {
            let byte = letter as u8;
            Characters {
                text: from_either(text.text, byte, byte.to_ascii_uppercase()),
                ignore_case: text.ignore_case,
            }
        }
        Some(_) => text,
    }
}

// The rest from a letter on, of which one that stands for itself is read from its byte.
fn from_letter<'a>(pattern: Characters<'a>, text: Characters<'a>) -> Characters<'a>
    ensures same { let test = like (items (characters pattern.entry)) in
        some_end test (characters result) ≡ some_end test (characters text.entry) }
    ensures shorter { length (characters result) ≤ length (characters text.entry) }
{
    match split_ascii(pattern.text, pattern.ignore_case) {
        Some((b'%' | b'_', _)) => text,
        Some((b'\\', _)) => from_item(pattern, text),
        Some((byte, _)) => Characters {
            text: from_either(text.text, byte, byte.to_ascii_uppercase()),
            ignore_case: text.ignore_case,
        },
        None if pattern.text.is_empty() => from_item(pattern, text),
        None => text,
    }
}

// The text from the first place on at which the pattern may match.
pub(super) fn from_chance<'a>(pattern: Characters<'a>, text: Characters<'a>) -> Characters<'a>
    ensures same { let test = like (items (characters pattern.entry)) in
        some_end test (characters result) ≡ some_end test (characters text.entry) }
    ensures shorter { length (characters result) ≤ length (characters text.entry) }
{
    let run = beginning(pattern, text.ignore_case);
    if run.is_empty() {
        return from_letter(pattern, text);
    }
    Characters {
        text: from_run(text.text, run),
        ignore_case: text.ignore_case,
    }
}
