//! The names of columns in a condition.
ghost use Rattle.std.specs.Prelude.{◌≡◌, ◌++◌, IfOk, OnOk};
ghost use Rattle.vortex_predicates.specs.Footers.Mentions as spec;

use std::alloc::{AllocError, Global};
use vortex_base::text::Text;
use vortex_sql::syntax::tree::{Condition, Leaf, Operand, Test};

/// A name in a condition, and the bytes of the text in which the test stands that has it.
#[derive(Clone, Copy)]
pub(crate) struct Mention<'a> {
    pub(crate) name: &'a Text,
    pub(crate) start: usize,
    pub(crate) end: usize,
}

// The names that were found so far.
type Mentions<'a> = Vec<Mention<'a>>;

fn add_operand<'a>(
    found: &mut Mentions<'a>,
    leaf: &Leaf,
    operand: &'a Operand,
) -> Result<(), AllocError>
    ensures { OnOk result (spec.views found.new.items
        ≡ spec.views found.old.items ++ spec.of_operand leaf.now operand.now) }
{
    match operand {
        Operand::Column(name) => {
            found.push(Mention {
                name,
                start: leaf.start,
                end: leaf.end,
            })?;
            Ok(())
        }
        Operand::Null
        | Operand::Truth(_)
        | Operand::Exact(_)
        | Operand::Float(_)
        | Operand::Text(_)
        | Operand::Binary(_)
        | Operand::Other => Ok(()),
    }
}

fn add_operands<'a>(
    found: &mut Mentions<'a>,
    leaf: &Leaf,
    operands: &'a [Operand],
) -> Result<(), AllocError>
    ensures { OnOk result (spec.views found.new.items
        ≡ spec.views found.old.items ++ spec.of_operands leaf.now operands.now) }
{
    for operand in operands {
        add_operand(found, leaf, operand)?;
    }
    Ok(())
}

fn add_leaf<'a>(found: &mut Mentions<'a>, leaf: &'a Leaf) -> Result<(), AllocError>
    ensures { OnOk result (spec.views found.new.items
        ≡ spec.views found.old.items ++ spec.of_test leaf.now leaf.now.test) }
{
    match &leaf.test {
        Test::Truth(x) | Test::IsNull(x) => add_operand(found, leaf, x),
        Test::Compare(_, x, y) | Test::Distinct(x, y) | Test::Like(x, y, _) => {
            add_operand(found, leaf, x)?;
            add_operand(found, leaf, y)
        }
        Test::Between(x, lower, upper) | Test::BetweenSymmetric(x, lower, upper) => {
            add_operand(found, leaf, x)?;
            add_operand(found, leaf, lower)?;
            add_operand(found, leaf, upper)
        }
        Test::In(x, among) => {
            add_operand(found, leaf, x)?;
            add_operands(found, leaf, among.as_slice())
        }
        Test::Other => Ok(()),
    }
}

fn add_condition<'a>(found: &mut Mentions<'a>, condition: &'a Condition) -> Result<(), AllocError>
    ensures { OnOk result (spec.views found.new.items
        ≡ spec.views found.old.items ++ spec.mentions condition.now) }
{
    match condition {
        Condition::Leaf(leaf) => add_leaf(found, leaf),
        Condition::Not(x) | Condition::IsNull(x) | Condition::IsTrue(x) | Condition::IsFalse(x) =>
            add_condition(found, x),
        Condition::And(left, right) | Condition::Or(left, right) => {
            add_condition(found, left)?;
            add_condition(found, right)
        }
    }
}

/// Returns the names in a condition, from the left, each as often as it stands there.
pub(crate) fn mentions_of(alloc: Global, condition: &Condition) -> Result<Mentions<'_>, AllocError>
    ensures { IfOk result (λ found. spec.views found.items ≡ spec.mentions condition.now) }
{
    let mut found = Vec::new(alloc);
    add_condition(&mut found, condition)?;
    Ok(found)
}
