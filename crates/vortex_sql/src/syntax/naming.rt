//! Tells whether names of several parts are read as they are wanted.
ghost use Rattle.std.specs.List.{list_any, prefix_len, suffix_len};
ghost use Rattle.std.specs.Prelude.{◌≡◌, ◌≤◌, IsTrue, length, not, option_map, true};
ghost use Rattle.vortex_sql.specs.Parsing.Naming as spec;
ghost use Rattle.vortex_sql.specs.declared.syntax.tree.Operand.TheVariants.{Column};

use crate::syntax::cursor::Names;
use crate::syntax::token::{is_space, is_word};
use crate::syntax::tree::{Condition, Leaf, Operand, Test};

fn is_of_name(byte: u8) -> bool
    ensures { result ≡ spec.is_of_name byte }
{
    is_word(byte) || byte == b'.'
}

fn front_len(bytes: &[u8]) -> usize
    ensures value { result ≡ prefix_len spec.is_of_name bytes.now }
    ensures within { result ≤ length bytes.now }
{
    bytes.iter().take_while(|byte| is_of_name(**byte)).count()
}

fn back_len(bytes: &[u8]) -> usize
    ensures value { result ≡ suffix_len spec.is_of_name bytes.now }
    ensures within { result ≤ length bytes.now }
{
    bytes
        .iter()
        .rev()
        .take_while(|byte| is_of_name(**byte))
        .count()
}

fn blanks_len(bytes: &[u8]) -> usize
    ensures value { result ≡ prefix_len spec.is_blank bytes.now }
    ensures within { result ≤ length bytes.now }
{
    bytes.iter().take_while(|byte| is_space(**byte)).count()
}

fn last_blanks_len(bytes: &[u8]) -> usize
    ensures value { result ≡ suffix_len spec.is_blank bytes.now }
    ensures within { result ≤ length bytes.now }
{
    bytes
        .iter()
        .rev()
        .take_while(|byte| is_space(**byte))
        .count()
}

fn without_blanks(bytes: &[u8]) -> &[u8]
    ensures { result.now ≡ spec.without_blanks bytes.now }
{
    &bytes[blanks_len(bytes)..]
}

fn without_last_blanks(bytes: &[u8]) -> &[u8]
    ensures { result.now ≡ spec.without_last_blanks bytes.now }
{
    &bytes[..bytes.len() - last_blanks_len(bytes)]
}

// Returns the bytes of a name at the front, and what stands behind it.
fn from_front(bytes: &[u8]) -> (&[u8], &[u8])
    ensures name { result.0.now ≡ spec.front bytes.now }
    ensures behind { result.1.now ≡ spec.behind bytes.now }
{
    let end = front_len(bytes);
    (&bytes[..end], without_blanks(&bytes[end..]))
}

// Returns what stands before the bytes of a name at the back, and these.
fn from_back(bytes: &[u8]) -> (&[u8], &[u8])
    ensures before { result.0.now ≡ spec.before bytes.now }
    ensures name { result.1.now ≡ spec.back bytes.now }
{
    let start = bytes.len() - back_len(bytes);
    (without_last_blanks(&bytes[..start]), &bytes[start..])
}

fn begins_number(name: &[u8]) -> bool
    ensures { result ≡ spec.begins_number name.now }
{
    match name {
        [] => true,
        [first, ..] => first.is_ascii_digit() || *first == b'.',
    }
}

fn has_dot(name: &[u8]) -> bool
    ensures { result ≡ list_any spec.is_dot name.now }
{
    name.iter().any(|byte| *byte == b'.')
}

fn part_len(name: &[u8]) -> usize
    ensures value { result ≡ suffix_len (λ b. not (spec.is_dot b)) name.now }
    ensures within { result ≤ length name.now }
{
    name.iter().rev().take_while(|byte| **byte != b'.').count()
}

// Returns the last part of a name of several parts.
fn last_part(name: &[u8]) -> Option<&[u8]>
    ensures { option_map (λ part. part.now) result ≡ spec.last_part name.now }
{
    if begins_number(name) {
        None
    } else if has_dot(name) {
        Some(&name[name.len() - part_len(name)..])
    } else {
        None
    }
}

fn begins_word(bytes: &[u8]) -> bool
    ensures { result ≡ spec.begins_word bytes.now }
{
    match bytes {
        [] => true,
        [first, ..] => is_word(*first),
    }
}

fn begins_comparison(bytes: &[u8]) -> bool
    ensures { result ≡ spec.begins_comparison bytes.now }
{
    bytes.starts_with(b"=")
        || bytes.starts_with(b"!=")
        || (bytes.starts_with(b"<") && !bytes.starts_with(b"<<"))
        || (bytes.starts_with(b">") && !bytes.starts_with(b">>"))
}

fn ends_comparison(bytes: &[u8]) -> bool
    ensures { result ≡ spec.ends_comparison bytes.now }
{
    bytes.ends_with(b"=")
        || (bytes.ends_with(b"<") && !bytes.ends_with(b"<<"))
        || (bytes.ends_with(b">") && !bytes.ends_with(b">>") && !bytes.ends_with(b"->"))
}

// Tells whether an operand is what a name of several parts with this last one is read as.
fn is_read_as(names: Names, part: &[u8], operand: &Operand) -> bool
    ensures { IsTrue result → operand.now ≡ spec.read_as names (Column part.now) }
{
    match (names, operand) {
        (Names::Plain, Operand::Other) => true,
        (Names::Last, Operand::Column(name)) => name.as_str().as_bytes() == part,
        _ => false,
    }
}

fn is_named(names: Names, bytes: &[u8], operand: &Operand) -> bool
    ensures { IsTrue result → spec.IsNamed names bytes.now operand.now }
{
    match last_part(bytes) {
        Some(part) => is_read_as(names, part, operand),
        None => true,
    }
}

fn is_named_at_front(names: Names, bytes: &[u8], operand: &Operand) -> bool
    ensures { IsTrue result → spec.IsNamedAtFront names bytes.now operand.now }
{
    let (name, behind) = from_front(bytes);
    !begins_word(behind) || is_named(names, name, operand)
}

fn is_left_named(names: Names, bytes: &[u8], left: &Operand) -> bool
    ensures { IsTrue result → spec.begins_comparison (spec.behind bytes.now) ≡ true
        → spec.IsNamed names (spec.front bytes.now) left.now }
{
    let (name, behind) = from_front(bytes);
    !begins_comparison(behind) || is_named(names, name, left)
}

fn is_right_named(names: Names, bytes: &[u8], right: &Operand) -> bool
    ensures { IsTrue result → spec.ends_comparison (spec.before bytes.now) ≡ true
        → spec.IsNamed names (spec.back bytes.now) right.now }
{
    let (before, name) = from_back(bytes);
    !ends_comparison(before) || is_named(names, name, right)
}

fn is_comparison_named(names: Names, bytes: &[u8], left: &Operand, right: &Operand) -> bool
    ensures { IsTrue result → spec.IsComparisonNamed names bytes.now left.now right.now }
{
    is_left_named(names, bytes, left) && is_right_named(names, bytes, right)
}

fn is_test_named(names: Names, bytes: &[u8], test: &Test) -> bool
    ensures { IsTrue result → spec.IsTestNamed names bytes.now test.now }
{
    match test {
        Test::Compare(_, left, right) => is_comparison_named(names, bytes, left, right),
        Test::Truth(x)
        | Test::IsNull(x)
        | Test::Between(x, _, _)
        | Test::BetweenSymmetric(x, _, _)
        | Test::In(x, _)
        | Test::Like(x, _, _) => is_named_at_front(names, bytes, x),
        Test::Distinct(_, _) | Test::Other => true,
    }
}

fn is_leaf_named(text: &[u8], names: Names, leaf: &Leaf) -> bool
    ensures { IsTrue result → spec.IsLeafNamed text.now names leaf.now }
{
    leaf.start <= leaf.end
        && leaf.end <= text.len()
        && is_test_named(names, &text[leaf.start..leaf.end], &leaf.test)
}

/// Tells whether each name of several parts at the front of a leaf, and at the back of one that
/// compares, is read as it is wanted.
#[tactic(auto, using(crate::proofs::Parsing::Named::of_pair))]
pub(crate) fn are_named(text: &[u8], names: Names, condition: &Condition) -> bool
    ensures { IsTrue result → spec.AreNamed text.now names condition.now }
{
    match condition {
        Condition::Leaf(leaf) => is_leaf_named(text, names, leaf),
        Condition::Not(x) | Condition::IsNull(x) | Condition::IsTrue(x) | Condition::IsFalse(x) =>
            are_named(text, names, x),
        Condition::And(left, right) | Condition::Or(left, right) => {
            are_named(text, names, left) && are_named(text, names, right)
        }
    }
}
