//! The words and signs of a text.
ghost use Rattle.std.specs.Prelude.{◌≡◌};
ghost use Rattle.vortex_sql.specs.Parsing.Naming as spec;
ghost use Rattle.vortex_sql.specs.Parsing.Places.{bytes_between};

/// The kind of a word or a sign.
#[derive(Clone, Copy, PartialEq, Eq)]
pub(crate) enum Kind {
    End,
    /// A name or a keyword.
    Word,
    /// A name between double quotes.
    Name,
    /// A text between quotes.
    String,
    /// x'..', bytes in hexadecimal digits.
    Blob,
    Integer,
    /// A number with a point or an exponent.
    Decimal,
    Eq,
    NotEq,
    Lt,
    Lte,
    Gt,
    Gte,
    Open,
    Close,
    Comma,
    Dot,
    Minus,
    /// Another sign that may stand between two operands.
    Sign,
    /// `::`, with a type behind it.
    Cast,
    /// A bracket, which stands in arrays alone.
    Bracket,
    /// A quote that isn't closed.
    Unclosed,
    /// The beginning of a comment.
    Comment,
    /// A word right before a quote.
    Prefixed,
    Dollar,
    /// A number right before a letter, a dot or a quote.
    Glued,
    /// A text right behind another one.
    Adjacent,
    /// A sign that no rule reads.
    Bad,
}

/// A word or a sign, and where it stands.
#[derive(Clone, Copy)]
pub(crate) struct Token {
    pub kind: Kind,
    pub start: usize,
    pub end: usize,
}

// Signs of two and more characters that stand between operands.
const LONG_SIGNS: [&[u8]; 11] = [
    b"||", b"<<", b">>", b"~*", b"!~", b"~~", b"->", b"->>", b"!~*", b"!~~", b"~~*",
];

/// Tells whether a byte stands between words.
pub(crate) fn is_space(byte: u8) -> bool
    ensures { result ≡ spec.is_blank byte }
{
    matches!(byte, b' ' | b'\t' | b'\n' | b'\r')
}

/// Tells whether a byte is one of a name or a keyword.
pub(crate) fn is_word(byte: u8) -> bool
    ensures { result ≡ spec.is_word byte }
{
    byte.is_ascii_alphanumeric() || byte == b'_' || byte >= 128
}

fn is_operator(byte: u8) -> bool {
    matches!(
        byte,
        b'+' | b'-'
            | b'*'
            | b'/'
            | b'<'
            | b'>'
            | b'='
            | b'~'
            | b'!'
            | b'@'
            | b'#'
            | b'%'
            | b'^'
            | b'&'
            | b'|'
            | b'?'
    )
}

// A sign with one of these may end in a plus or a minus.
fn is_free(byte: u8) -> bool {
    matches!(
        byte,
        b'~' | b'!' | b'@' | b'#' | b'%' | b'^' | b'&' | b'|' | b'?'
    )
}

/// Returns what is left of a text from a place on.
fn rest(text: &[u8], from: usize) -> &[u8] {
    match text.get(from..) {
        Some(rest) => rest,
        None => &[],
    }
}

/// Returns the bytes of a text between two places.
pub(crate) fn between(text: &[u8], start: usize, end: usize) -> &[u8]
    ensures { result.now ≡ bytes_between text.now start end }
{
    match text.get(start..end) {
        Some(part) => part,
        None => &[],
    }
}

fn byte_at(text: &[u8], at: usize) -> u8 {
    text.get(at).copied().unwrap_or(0)
}

fn past_spaces(text: &[u8], from: usize) -> usize {
    match rest(text, from).iter().position(|byte| !is_space(*byte)) {
        Some(count) => from.saturating_add(count),
        None => text.len(),
    }
}

fn past_word(text: &[u8], from: usize) -> usize {
    match rest(text, from).iter().position(|byte| !is_word(*byte)) {
        Some(count) => from.saturating_add(count),
        None => text.len(),
    }
}

fn past_digits(text: &[u8], from: usize) -> usize {
    match rest(text, from)
        .iter()
        .position(|byte| !byte.is_ascii_digit())
    {
        Some(count) => from.saturating_add(count),
        None => text.len(),
    }
}

// Returns the place behind the quote that closes a text, in which a doubled quote stands for one.
fn past_quote(text: &[u8], from: usize, quote: u8) -> Option<usize> {
    let mut at = from;
    for _turn in 0..text.len() {
        let count = rest(text, at).iter().position(|byte| *byte == quote)?;
        let close = at.saturating_add(count);
        if byte_at(text, close.saturating_add(1)) != quote {
            return Some(close.saturating_add(1));
        }
        at = close.saturating_add(2);
    }
    None
}

fn quoted(text: &[u8], start: usize, from: usize, quote: u8, kind: Kind) -> Token {
    match past_quote(text, from, quote) {
        Some(end) => Token { kind, start, end },
        None => Token {
            kind: Kind::Unclosed,
            start,
            end: text.len(),
        },
    }
}

// Returns the end of an exponent that begins at a place, or the place.
fn past_exponent(text: &[u8], from: usize) -> usize {
    if !matches!(byte_at(text, from), b'e' | b'E') {
        return from;
    }
    let mut first = from.saturating_add(1);
    if matches!(byte_at(text, first), b'+' | b'-') {
        first = first.saturating_add(1);
    }
    if byte_at(text, first).is_ascii_digit() {
        past_digits(text, first)
    } else {
        from
    }
}

fn number(text: &[u8], start: usize) -> Token {
    let whole = past_digits(text, start);
    let mut end = whole;
    if byte_at(text, whole) == b'.' {
        end = past_digits(text, whole.saturating_add(1));
    }
    end = past_exponent(text, end);
    let next = byte_at(text, end);
    let kind = if is_word(next) || matches!(next, b'.' | b'\'' | b'"') {
        Kind::Glued
    } else if end == whole {
        Kind::Integer
    } else {
        Kind::Decimal
    };
    Token { kind, start, end }
}

fn begins_comment(text: &[u8], at: usize) -> bool {
    matches!(
        (byte_at(text, at), byte_at(text, at.saturating_add(1))),
        (b'-', b'-') | (b'/', b'*')
    )
}

// Returns how many signs follow one another up to a comment.
fn run_length(text: &[u8], start: usize) -> usize {
    let mut length: usize = 0;
    for byte in rest(text, start) {
        if !is_operator(*byte) || begins_comment(text, start.saturating_add(length)) {
            break;
        }
        length = length.saturating_add(1);
    }
    length
}

// Returns how many of the signs are one operator: a last plus or minus stands for itself.
fn operator_length(run: &[u8]) -> usize {
    let mut length = run.len();
    if run.iter().any(|byte| is_free(*byte)) {
        return length;
    }
    for byte in run.iter().rev() {
        if length <= 1 || !matches!(*byte, b'+' | b'-') {
            break;
        }
        length -= 1;
    }
    length
}

fn short_kind(first: u8, second: u8) -> Kind {
    match (first, second) {
        (b'=', 0) | (b'=', b'=') => Kind::Eq,
        (b'!', b'=') | (b'<', b'>') => Kind::NotEq,
        (b'<', 0) => Kind::Lt,
        (b'<', b'=') => Kind::Lte,
        (b'>', 0) => Kind::Gt,
        (b'>', b'=') => Kind::Gte,
        (b'-', 0) => Kind::Minus,
        (b'+' | b'*' | b'/' | b'%' | b'&' | b'|' | b'^' | b'~', 0) => Kind::Sign,
        _ => Kind::Bad,
    }
}

fn operator_kind(operator: &[u8]) -> Kind {
    for sign in LONG_SIGNS {
        if operator == sign {
            return Kind::Sign;
        }
    }
    if operator.len() > 2 {
        return Kind::Bad;
    }
    short_kind(byte_at(operator, 0), byte_at(operator, 1))
}

fn operator(text: &[u8], start: usize) -> Token {
    if begins_comment(text, start) {
        return Token {
            kind: Kind::Comment,
            start,
            end: start.saturating_add(2),
        };
    }
    let run = between(text, start, start.saturating_add(run_length(text, start)));
    let end = start.saturating_add(operator_length(run));
    Token {
        kind: operator_kind(between(text, start, end)),
        start,
        end,
    }
}

fn sign(text: &[u8], start: usize) -> Token {
    let first = byte_at(text, start);
    if is_operator(first) {
        return operator(text, start);
    }
    let second = byte_at(text, start.saturating_add(1));
    let (kind, length) = match (first, second) {
        (b'(', _) => (Kind::Open, 1),
        (b')', _) => (Kind::Close, 1),
        (b',', _) => (Kind::Comma, 1),
        (b'.', _) => (Kind::Dot, 1),
        (b'[' | b']', _) => (Kind::Bracket, 1),
        (b':', b':') => (Kind::Cast, 2),
        (b'$', _) => (Kind::Dollar, 1),
        _ => (Kind::Bad, 1),
    };
    Token {
        kind,
        start,
        end: start.saturating_add(length),
    }
}

fn word(text: &[u8], start: usize) -> Token {
    let end = past_word(text, start);
    let kind = if byte_at(text, end) == b'\'' {
        Kind::Prefixed
    } else {
        Kind::Word
    };
    Token { kind, start, end }
}

/// Returns the first word or sign from a place on.
pub(crate) fn next(text: &[u8], from: usize) -> Token {
    let start = past_spaces(text, from);
    let first = byte_at(text, start);
    let inner = start.saturating_add(1);
    let second = byte_at(text, inner);
    if start >= text.len() {
        Token {
            kind: Kind::End,
            start: text.len(),
            end: text.len(),
        }
    } else if first == b'\'' {
        quoted(text, start, inner, b'\'', Kind::String)
    } else if first == b'"' {
        quoted(text, start, inner, b'"', Kind::Name)
    } else if matches!(first, b'x' | b'X') && second == b'\'' {
        quoted(text, start, inner.saturating_add(1), b'\'', Kind::Blob)
    } else if first.is_ascii_digit() || (first == b'.' && second.is_ascii_digit()) {
        number(text, start)
    } else if is_word(first) {
        word(text, start)
    } else {
        sign(text, start)
    }
}
