//! Whether the leaves of a condition ascend within its text, and what stands between them.
ghost use Rattle.std.specs.Prelude.{◌≡◌, ◌∷◌, IfSome, IsTrue, false};
ghost use Rattle.vortex_sql.specs.Parsing.Joining as joining;
ghost use Rattle.vortex_sql.specs.Parsing.Joining.{Joins, ands, end_behind};
ghost use Rattle.vortex_sql.specs.Parsing.Places.{Ascends, leaves};

use crate::syntax::tree::Condition;

// Returns where the last leaf ends, if the leaves ascend from a place on.
#[tactic(auto, using(crate::proofs::Parsing::Ascending::along))]
fn end_of(condition: &Condition, from: usize) -> Option<usize>
    ensures { IfSome result (λ end. Ascends from (leaves condition.now) end) }
{
    match condition {
        Condition::Leaf(leaf) if from <= leaf.start && leaf.start < leaf.end => Some(leaf.end),
        Condition::Leaf(_) => None,
        Condition::Not(x) | Condition::IsNull(x) | Condition::IsTrue(x) | Condition::IsFalse(x) =>
            end_of(x, from),
        Condition::And(left, right) | Condition::Or(left, right) => {
            let middle = end_of(left, from)?;
            end_of(right, middle)
        }
    }
}

/// Tells whether the leaves ascend within a text of a length.
#[tactic(auto, using(crate::proofs::Parsing::Ascending::wider))]
pub(crate) fn is_ascending(condition: &Condition, length: usize) -> bool
    ensures { IsTrue result → Ascends 0 (leaves condition.now) length }
{
    match end_of(condition, 0) {
        Some(end) => end <= length,
        None => false,
    }
}

// Tells whether bytes between two leaves have an AND.
fn has_and(bytes: &[u8]) -> bool
    ensures { result ≡ joining.has_and bytes.now }
{
    bytes.iter().any(|byte| *byte == b'D' || *byte == b'd')
}

// Returns where the last leaf ends, if from a place on there is an AND before each leaf exactly
// where AND joins it to what is before it.
#[tactic(auto, using(crate::proofs::Parsing::Joined::ends))]
fn end_of_joined(text: &[u8], condition: &Condition, from: usize, and_before: bool) -> Option<usize>
    ensures joins { IfSome result (λ end.
        Joins text.now from (leaves condition.now) (and_before ∷ ands condition.now)) }
    ensures end { IfSome result (λ end. end ≡ end_behind from (leaves condition.now)) }
{
    match condition {
        Condition::Leaf(leaf) => {
            if from > leaf.start || leaf.start > text.len() {
                return None;
            }
            if has_and(&text[from..leaf.start]) != and_before {
                return None;
            }
            Some(leaf.end)
        }
        Condition::Not(x) | Condition::IsNull(x) | Condition::IsTrue(x) | Condition::IsFalse(x) =>
            end_of_joined(text, x, from, and_before),
        Condition::And(left, right) => {
            let middle = end_of_joined(text, left, from, and_before)?;
            end_of_joined(text, right, middle, true)
        }
        Condition::Or(left, right) => {
            let middle = end_of_joined(text, left, from, and_before)?;
            end_of_joined(text, right, middle, false)
        }
    }
}

/// Tells whether AND stands between the leaves exactly where AND joins them.
pub(crate) fn is_joined(condition: &Condition, text: &[u8]) -> bool
    ensures { IsTrue result → Joins text.now 0 (leaves condition.now) (false ∷ ands condition.now) }
{
    end_of_joined(text, condition, 0, false).is_some()
}
