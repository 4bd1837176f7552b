//! Typed expressions as text, in the form in which Vortex prints them: `($.a > 10i64)`, and
//! `stat($.a, max)` for a placeholder.
use std::fmt;
use vortex_base::aggregate::AggregateFnRef;
use vortex_base::pvalue::PValue;
use vortex_base::scalar_value::ScalarValue;
use vortex_base::scope::Scope;
use vortex_expr::bound_expression::BoundExpression;
use vortex_expr::bound_expression::parts::Parts;
use vortex_expr::like::LikeOptions;
use vortex_expr::scalar_fn::{ExprKind, Operator, StrictComparison};

/// An expression to be printed, with the scope that names its columns.
#[derive(Clone, Copy)]
pub struct Shown<'a> {
    expression: &'a BoundExpression,
    scope: &'a Scope,
}

impl<'a> Shown<'a> {
    /// The expression over the columns of a scope. A column that the scope hasn't is printed by its
    /// place.
    pub fn new(expression: &'a BoundExpression, scope: &'a Scope) -> Shown<'a> {
        Shown { expression, scope }
    }
}

fn operator_text(operator: Operator) -> &'static str {
    match operator {
        Operator::Eq => "=",
        Operator::NotEq => "!=",
        Operator::Gt => ">",
        Operator::Gte => ">=",
        Operator::Lt => "<",
        Operator::Lte => "<=",
        Operator::And => "and",
        Operator::Or => "or",
    }
}

fn strictness_text(strictness: StrictComparison) -> &'static str {
    match strictness {
        StrictComparison::Strict => "<",
        StrictComparison::NonStrict => "<=",
    }
}

fn like_text(options: LikeOptions) -> &'static str {
    match (options.negated, options.case_insensitive) {
        (false, false) => "like",
        (true, false) => "not like",
        (false, true) => "ilike",
        (true, true) => "not ilike",
    }
}

fn aggregate_text(aggregate: AggregateFnRef) -> &'static str {
    match aggregate {
        AggregateFnRef::Max => "max",
        AggregateFnRef::Min => "min",
        AggregateFnRef::Sum => "sum",
        AggregateFnRef::NullCount => "null_count",
        AggregateFnRef::NanCount => "nan_count",
        AggregateFnRef::UncompressedSizeInBytes => "uncompressed_size_in_bytes",
        AggregateFnRef::AllNull => "all_null",
        AggregateFnRef::AllNonNull => "all_non_null",
        AggregateFnRef::MinMax => "min_max",
    }
}

#[inline(never)]
fn write_number<W: fmt::Write>(f: &mut fmt::Formatter<W>, number: PValue) -> fmt::Result {
    match number {
        PValue::U8(n) => write!(f, "{n}u8"),
        PValue::U16(n) => write!(f, "{n}u16"),
        PValue::U32(n) => write!(f, "{n}u32"),
        PValue::U64(n) => write!(f, "{n}u64"),
        PValue::I8(n) => write!(f, "{n}i8"),
        PValue::I16(n) => write!(f, "{n}i16"),
        PValue::I32(n) => write!(f, "{n}i32"),
        PValue::I64(n) => write!(f, "{n}i64"),
    }
}

#[inline(never)]
fn write_bytes<W: fmt::Write>(f: &mut fmt::Formatter<W>, bytes: &[u8]) -> fmt::Result {
    write!(f, "x")?;
    for byte in bytes {
        write!(f, "{byte:02x}")?;
    }
    Ok(())
}

#[inline(never)]
fn write_value<W: fmt::Write>(
    f: &mut fmt::Formatter<W>,
    value: Option<&ScalarValue>,
) -> fmt::Result {
    match value {
        None => write!(f, "null"),
        Some(ScalarValue::Bool(truth)) => write!(f, "{truth}"),
        Some(ScalarValue::Primitive(number)) => write_number(f, *number),
        Some(ScalarValue::Utf8(text)) => {
            let text = text.as_str();
            write!(f, "{text:?}")
        }
        Some(ScalarValue::Binary(bytes)) => write_bytes(f, bytes.as_slice()),
    }
}

#[inline(never)]
fn write_column<W: fmt::Write>(
    f: &mut fmt::Formatter<W>,
    scope: &Scope,
    place: usize,
) -> fmt::Result {
    if place < scope.len() {
        let name = scope.name(place);
        write!(f, "$.{name}")
    } else {
        write!(f, "$.{place}")
    }
}

// The words between the two operands of an expression, if it has two.
fn infix(e: &BoundExpression) -> &'static str {
    match e.kind() {
        ExprKind::Binary(operator) => operator_text(operator),
        ExprKind::Like(options) => like_text(options),
        _ => "",
    }
}

// The words before the one operand of an expression, if it has one.
fn prefix(e: &BoundExpression) -> &'static str {
    match e.kind() {
        ExprKind::IsNull => "is_null",
        ExprKind::IsNotNull => "is_not_null",
        ExprKind::Not => "not",
        _ => "",
    }
}

#[inline(never)]
fn write_spaced<W: fmt::Write>(f: &mut fmt::Formatter<W>, word: &str) -> fmt::Result {
    write!(f, " {word} ")
}

#[inline(never)]
fn write_word<W: fmt::Write>(f: &mut fmt::Formatter<W>, word: &str) -> fmt::Result {
    write!(f, "{word}")
}

// The expression, one level of it in each call.
fn write_expression<W: fmt::Write>(
    f: &mut fmt::Formatter<W>,
    scope: &Scope,
    e: &BoundExpression,
) -> fmt::Result {
    match e.parts() {
        Parts::Column(place, _) => write_column(f, scope, place),
        Parts::Literal(value) => write_value(f, value.value()),
        Parts::RowCount => write_word(f, "row_count()"),
        Parts::Binary(_, left, right) | Parts::Like(_, left, right) => {
            write_word(f, "(")?;
            write_expression(f, scope, left)?;
            write_spaced(f, infix(e))?;
            write_expression(f, scope, right)?;
            write_word(f, ")")
        }
        Parts::Between(options, x, lower, upper) => {
            write_word(f, "(")?;
            write_expression(f, scope, lower)?;
            write_spaced(f, strictness_text(options.lower_strict))?;
            write_expression(f, scope, x)?;
            write_spaced(f, strictness_text(options.upper_strict))?;
            write_expression(f, scope, upper)?;
            write_word(f, ")")
        }
        Parts::IsNull(x) | Parts::IsNotNull(x) | Parts::Not(x) => {
            write_word(f, prefix(e))?;
            write_word(f, "(")?;
            write_expression(f, scope, x)?;
            write_word(f, ")")
        }
        Parts::Stat(aggregate, x) => {
            write_word(f, "stat(")?;
            write_expression(f, scope, x)?;
            write_word(f, ", ")?;
            write_word(f, aggregate_text(aggregate))?;
            write_word(f, ")")
        }
    }
}

impl fmt::Display for Shown<'_> {
    fn fmt<W: fmt::Write>(&self, f: &mut fmt::Formatter<W>) -> fmt::Result {
        write_expression(f, self.scope, self.expression)
    }
}
