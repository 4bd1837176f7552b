//! Functions, operators and their options, as nodes of an expression apply them; and the kinds
//! of a node.
ghost use Rattle.std.specs.Prelude.{◌≡◌};

use crate::like::LikeOptions;
use vortex_base::aggregate::AggregateFnRef;

/// A comparison or a connective of two operands.
#[derive(Clone, Copy, Debug, PartialEq, Eq)]
pub enum Operator {
    Eq,
    NotEq,
    Gt,
    Gte,
    Lt,
    Lte,
    /// The three-valued AND.
    And,
    /// The three-valued OR.
    Or,
}

/// How the predicates of a chain are joined.
#[derive(Clone, Copy, Debug, PartialEq, Eq)]
pub enum Connective {
    /// The three-valued AND.
    And,
    /// The three-valued OR.
    Or,
}

impl Connective {
    ghost use Rattle.vortex_expr.specs.Trees.Connectives.{for_truth, is_and, operator_of};

    /// Returns the operator by which a chain joins two predicates.
    pub fn operator(self) -> Operator
        ensures { result ≡ operator_of (is_and self) }
    {
        match self {
            Connective::And => Operator::And,
            Connective::Or => Operator::Or,
        }
    }

    /// Returns the truth that makes no difference to what it is joined with: true for AND, false
    /// for OR.
    pub fn unit(self) -> bool
        ensures { result ≡ is_and self }
    {
        match self {
            Connective::And => true,
            Connective::Or => false,
        }
    }

    /// Returns the connective that joins tests of the operands to one of whether the whole has a
    /// truth: this one for true, the other one for false, since NOT (a AND b) is NOT a OR NOT b.
    pub fn for_truth(self, wanted: bool) -> Connective
        ensures { is_and result ≡ for_truth (is_and self) wanted }
    {
        if self.unit() == wanted {
            Connective::And
        } else {
            Connective::Or
        }
    }
}

/// Whether an end of a range is left out of it.
#[derive(Clone, Copy, Debug, PartialEq, Eq)]
pub enum StrictComparison {
    /// The end is no part of the range.
    Strict,
    /// The end is a part of the range.
    NonStrict,
}

impl StrictComparison {
    ghost use Rattle.vortex_expr.specs.Trees.Between.{to_operator};

    /// The comparison of the lesser with the greater: `Lt` for a strict end, `Lte` for one that
    /// isn't.
    pub fn to_operator(self) -> Operator
        ensures { result ≡ to_operator self }
    {
        match self {
            StrictComparison::Strict => Operator::Lt,
            StrictComparison::NonStrict => Operator::Lte,
        }
    }
}

/// How a BETWEEN compares its operand with the two ends.
#[derive(Clone, Copy, Debug, PartialEq, Eq)]
pub struct BetweenOptions {
    /// How the lower end is compared with the operand.
    pub lower_strict: StrictComparison,
    /// How the operand is compared with the upper end.
    pub upper_strict: StrictComparison,
}

/// A function that a node applies to its children. A column applies nothing and has none.
#[derive(Clone, Copy, Debug, PartialEq, Eq, Hash)]
pub enum ScalarFnId {
    Literal,
    Binary,
    Between,
    IsNull,
    IsNotNull,
    Not,
    Like,
    Stat,
    RowCount,
}

impl ScalarFnId {
    ghost use Rattle.vortex_expr.specs.Trees.ScalarFns.{name_of};

    /// The function's name in the format.
    pub fn name(self) -> &'static str
        ensures { result.now ≡ name_of self }
    {
        match self {
            ScalarFnId::Literal => "literal",
            ScalarFnId::Binary => "binary",
            ScalarFnId::Between => "between",
            ScalarFnId::IsNull => "is_null",
            ScalarFnId::IsNotNull => "is_not_null",
            ScalarFnId::Not => "not",
            ScalarFnId::Like => "like",
            ScalarFnId::Stat => "vortex.stat",
            ScalarFnId::RowCount => "row_count",
        }
    }
}

/// The kind of a typed node with all that it holds but its children, its type and its literal.
#[derive(Clone, Copy, Debug, PartialEq, Eq)]
pub enum ExprKind {
    /// The column at this place of a row.
    Column(usize),
    Literal,
    Binary(Operator),
    Between(BetweenOptions),
    IsNull,
    IsNotNull,
    Not,
    Like(LikeOptions),
    /// A placeholder for an aggregate of the node's input.
    Stat(AggregateFnRef),
    /// The number of rows that is handed in beside a row.
    RowCount,
}
