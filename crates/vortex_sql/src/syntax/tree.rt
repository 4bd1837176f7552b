//! A condition as a tree.
use sqlite_items::Items;
use vortex_base::bytes::Bytes;
use vortex_base::text::Text;
use vortex_logical::comparison::Comparison;
use vortex_logical::logical_type::ExactKind;

/// The escape of a pattern, which makes the next character plain.
#[derive(Clone, Copy, Debug, PartialEq, Eq)]
pub enum Escape {
    Backslash,
    /// Another character of ASCII.
    Byte(u8),
    /// No character does.
    Nothing,
}

/// A literal that is a number: `top` divided by ten to the `scale`, of what its kind counts.
#[derive(Clone, Copy, Debug, PartialEq, Eq)]
pub struct ExactNumber {
    pub kind: ExactKind,
    pub top: i128,
    pub scale: u32,
}

/// An operand of a test.
#[derive(Drop)]
pub enum Operand {
    /// The column of a name.
    Column(Text),
    Null,
    Truth(bool),
    Exact(ExactNumber),
    /// The float of these bits, as which the column of floats beside it takes a number.
    Float(u64),
    Text(Text),
    Binary(Bytes),
    /// Any other expression.
    Other,
}

/// A test that holds no other condition.
#[derive(Drop)]
pub enum Test {
    /// An operand that stands for a truth.
    Truth(Operand),
    Compare(Comparison, Operand, Operand),
    /// x IS DISTINCT FROM y.
    Distinct(Operand, Operand),
    IsNull(Operand),
    /// x BETWEEN lower AND upper.
    Between(Operand, Operand, Operand),
    /// x BETWEEN SYMMETRIC one end AND the other.
    BetweenSymmetric(Operand, Operand, Operand),
    In(Operand, Items<Operand>),
    Like(Operand, Operand, Escape),
    /// Any other expression.
    Other,
}

fn is_read(operand: &Operand) -> bool {
    !matches!(operand, Operand::Other)
}

// Tells whether an operand is a date or a time, which several texts spell.
fn is_timed(operand: &Operand) -> bool {
    match operand {
        Operand::Exact(number) => !matches!(number.kind, ExactKind::Number),
        _ => false,
    }
}

impl Test {
    /// Tells whether each operand is a column or a literal.
    pub fn has_operands(&self) -> bool {
        match self {
            Test::Truth(x) | Test::IsNull(x) => is_read(x),
            Test::Compare(_, x, y) | Test::Distinct(x, y) | Test::Like(x, y, _) => {
                is_read(x) && is_read(y)
            }
            Test::Between(x, lower, upper) | Test::BetweenSymmetric(x, lower, upper) => {
                is_read(x) && is_read(lower) && is_read(upper)
            }
            Test::In(x, among) => is_read(x) && among.as_slice().iter().all(is_read),
            Test::Other => false,
        }
    }

    /// Tells whether an operand is a date or a time, which several texts spell.
    pub fn has_times(&self) -> bool {
        match self {
            Test::Truth(x) | Test::IsNull(x) => is_timed(x),
            Test::Compare(_, x, y) | Test::Distinct(x, y) | Test::Like(x, y, _) => {
                is_timed(x) || is_timed(y)
            }
            Test::Between(x, lower, upper) | Test::BetweenSymmetric(x, lower, upper) => {
                is_timed(x) || is_timed(lower) || is_timed(upper)
            }
            Test::In(x, among) => is_timed(x) || among.as_slice().iter().any(is_timed),
            Test::Other => false,
        }
    }
}

/// A test and the bytes of the text that it stands in. A NOT within it, as in NOT LIKE, is part of
/// one with an operand that isn't read.
#[derive(Drop)]
pub struct Leaf {
    pub test: Test,
    pub start: usize,
    pub end: usize,
}

/// A condition. A chain of AND or of OR is joined in halves, so that it nests by the logarithm of
/// its length.
#[derive(Drop)]
pub enum Condition {
    Leaf(Leaf),
    Not(Box<Condition>),
    And(Box<Condition>, Box<Condition>),
    Or(Box<Condition>, Box<Condition>),
    /// Whether a condition is null.
    IsNull(Box<Condition>),
    /// Whether it is true, and not false or null.
    IsTrue(Box<Condition>),
    IsFalse(Box<Condition>),
}
