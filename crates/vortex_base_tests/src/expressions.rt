//! Tests of expressions over names and of typed ones: each constructor, binding, copies and values.
use crate::testing::*;
use std::alloc::Global;
use std::process::Abort;
use std::test::Fail;
use vortex_base::{AggregateFnRef, BaseError, Chunk, Column, DType, Row, Scalar, ScalarValue};
use vortex_expr::scalar_fn::{ExprKind, ScalarFnId};
use vortex_expr::{
    BetweenOptions, BoundExpression, Expression, LikeOptions, Operator, Parts, StrictComparison,
    bound, evaluate, expr,
};

const HALF_OPEN: BetweenOptions = BetweenOptions {
    lower_strict: StrictComparison::Strict,
    upper_strict: StrictComparison::NonStrict,
};

const NOT_ILIKE: LikeOptions = LikeOptions {
    negated: true,
    case_insensitive: true,
};

type Made = Result<Expression, BaseError>;

type Built = Result<BoundExpression, BaseError>;

fn five() -> Result<Scalar, BaseError> {
    Scalar::try_new(I32, Some(ScalarValue::from(5i32)))
}

fn text(alloc: Global, value: &str) -> Result<Scalar, BaseError> {
    Scalar::try_new(UTF8, Some(text_value(alloc, value)?))
}

/// Expressions over the name of a column `a` of numbers.
mod named {
    use super::*;

    fn a(rt: &impl Abort, alloc: Global) -> Expression {
        expr::col(alloc, "a").expect(rt, "a")
    }

    fn five(rt: &impl Abort, alloc: Global) -> Expression {
        expr::lit(alloc, super::five().expect(rt, "five")).expect(rt, "a literal")
    }

    fn text(rt: &impl Abort, alloc: Global, value: &str) -> Expression {
        expr::lit(alloc, super::text(alloc, value).expect(rt, "a text")).expect(rt, "a literal")
    }

    // The two, both true where `a` is 5.
    fn both(rt: &impl Abort, alloc: Global, left: Expression, right: Made) -> Expression {
        expr::and(alloc, left, right.expect(rt, "right")).expect(rt, "both")
    }

    // `a = 5 AND a >= 5 AND a <= 5 AND NOT (a != 5)`
    fn compared(rt: &impl Abort, alloc: Global) -> Expression {
        let eq = expr::eq(alloc, a(rt, alloc), five(rt, alloc)).expect(rt, "eq");
        let gte = both(
            rt,
            alloc,
            eq,
            expr::gt_eq(alloc, a(rt, alloc), five(rt, alloc)),
        );
        let lte = both(
            rt,
            alloc,
            gte,
            expr::lt_eq(alloc, a(rt, alloc), five(rt, alloc)),
        );
        let other = expr::not_eq(alloc, a(rt, alloc), five(rt, alloc)).expect(rt, "not_eq");
        both(rt, alloc, lte, expr::not(alloc, other))
    }

    fn ranged(rt: &impl Abort, alloc: Global) -> Expression {
        let gt = expr::gt(alloc, a(rt, alloc), five(rt, alloc)).expect(rt, "gt");
        let lt = expr::lt(alloc, a(rt, alloc), five(rt, alloc)).expect(rt, "lt");
        let either = expr::or(alloc, gt, lt).expect(rt, "or");
        let (x, lower, upper) = (a(rt, alloc), five(rt, alloc), five(rt, alloc));
        let range = expr::between(alloc, x, lower, upper, HALF_OPEN).expect(rt, "between");
        let null = expr::is_null(alloc, range).expect(rt, "is_null");
        let either = expr::or(alloc, either, null).expect(rt, "or");
        expr::is_not_null(alloc, either).expect(rt, "is_not_null")
    }

    fn patterned(rt: &impl Abort, alloc: Global) -> Expression {
        let (ab, pattern) = (text(rt, alloc, "ab"), text(rt, alloc, "a%"));
        let like = expr::like(alloc, ab, pattern).expect(rt, "like");
        let (ab, pattern) = (text(rt, alloc, "ab"), text(rt, alloc, "B%"));
        both(
            rt,
            alloc,
            like,
            Expression::like_with(alloc, ab, pattern, NOT_ILIKE),
        )
    }

    /// An expression with a node of each kind but placeholders and the row count.
    pub fn plain(rt: &impl Abort, alloc: Global) -> Expression {
        let both_first = both(rt, alloc, compared(rt, alloc), Ok(ranged(rt, alloc)));
        both(rt, alloc, both_first, Ok(patterned(rt, alloc)))
    }

    /// An expression with a node of each kind.
    pub fn whole(rt: &impl Abort, alloc: Global) -> Expression {
        let input = a(rt, alloc);
        let nulls = Expression::new_stat(alloc, input, AggregateFnRef::NullCount);
        let rows = Expression::row_count(alloc).expect(rt, "row_count");
        let all = expr::eq(alloc, nulls.expect(rt, "new_stat"), rows);
        both(rt, alloc, plain(rt, alloc), all)
    }
}

/// Typed expressions of a column of numbers.
mod placed {
    use super::*;

    fn a(rt: &impl Abort, alloc: Global) -> BoundExpression {
        bound::col(alloc, 0, I32).expect(rt, "a")
    }

    fn five(rt: &impl Abort, alloc: Global) -> BoundExpression {
        bound::lit(alloc, super::five().expect(rt, "five")).expect(rt, "a literal")
    }

    fn text(rt: &impl Abort, alloc: Global, value: &str) -> BoundExpression {
        bound::lit(alloc, super::text(alloc, value).expect(rt, "a text")).expect(rt, "a literal")
    }

    // The two, both true where `a` is 5.
    fn both(
        rt: &impl Abort,
        alloc: Global,
        left: BoundExpression,
        right: Built,
    ) -> BoundExpression {
        bound::and(alloc, left, right.expect(rt, "right")).expect(rt, "both")
    }

    // `a = 5 AND a >= 5 AND a <= 5 AND NOT (a != 5)`
    fn compared(rt: &impl Abort, alloc: Global) -> BoundExpression {
        let eq = bound::eq(alloc, a(rt, alloc), five(rt, alloc)).expect(rt, "eq");
        let gte = both(
            rt,
            alloc,
            eq,
            bound::gt_eq(alloc, a(rt, alloc), five(rt, alloc)),
        );
        let lte = both(
            rt,
            alloc,
            gte,
            bound::lt_eq(alloc, a(rt, alloc), five(rt, alloc)),
        );
        let other = bound::not_eq(alloc, a(rt, alloc), five(rt, alloc)).expect(rt, "not_eq");
        both(rt, alloc, lte, bound::not(alloc, other))
    }

    fn ranged(rt: &impl Abort, alloc: Global) -> BoundExpression {
        let gt = bound::gt(alloc, a(rt, alloc), five(rt, alloc)).expect(rt, "gt");
        let lt = bound::lt(alloc, a(rt, alloc), five(rt, alloc)).expect(rt, "lt");
        let either = bound::or(alloc, gt, lt).expect(rt, "or");
        let (x, lower, upper) = (a(rt, alloc), five(rt, alloc), five(rt, alloc));
        let range = bound::between(alloc, x, lower, upper, HALF_OPEN).expect(rt, "between");
        let null = bound::is_null(alloc, range).expect(rt, "is_null");
        let either = bound::or(alloc, either, null).expect(rt, "or");
        bound::is_not_null(alloc, either).expect(rt, "is_not_null")
    }

    fn patterned(rt: &impl Abort, alloc: Global) -> BoundExpression {
        let (ab, pattern) = (text(rt, alloc, "ab"), text(rt, alloc, "a%"));
        let like = bound::like(alloc, ab, pattern).expect(rt, "like");
        let (ab, pattern) = (text(rt, alloc, "ab"), text(rt, alloc, "B%"));
        both(
            rt,
            alloc,
            like,
            bound::like_with(alloc, ab, pattern, NOT_ILIKE),
        )
    }

    /// An expression with a node of each kind but placeholders and the row count.
    pub fn plain(rt: &impl Abort, alloc: Global) -> BoundExpression {
        let both_first = both(rt, alloc, compared(rt, alloc), Ok(ranged(rt, alloc)));
        both(rt, alloc, both_first, Ok(patterned(rt, alloc)))
    }

    /// An expression with a node of each kind.
    pub fn whole(rt: &impl Abort, alloc: Global) -> BoundExpression {
        let input = a(rt, alloc);
        let nulls = bound::new_stat(alloc, input, AggregateFnRef::NullCount);
        let rows = bound::row_count(alloc).expect(rt, "row_count");
        let all = bound::eq(alloc, nulls.expect(rt, "new_stat"), rows);
        both(rt, alloc, plain(rt, alloc), all)
    }
}

// Bound to the columns, it is the typed one; so is a copy of each.
#[test]
fn each_kind_is_bound_and_copied(rt: HostRuntime) {
    let alloc = rt.alloc();
    let scope = scope(alloc, &[("a", I32)]).expect(&rt, "a scope");
    let expression = named::whole(&rt, alloc);
    let copy = expression.try_clone().expect(&rt, "a copy");
    let bound = expression.bind(alloc, &scope).expect(&rt, "bound");
    assert!(rt; bound == placed::whole(&rt, alloc) && bound.fits_scope(&scope));
    assert!(rt; copy.bind(alloc, &scope).expect(&rt, "a bound copy") == bound);
    assert!(rt; bound.try_clone().expect(&rt, "a copy") == bound);
    assert!(rt; bound != placed::plain(&rt, alloc) && bound.dtype() == BOOL_OR_NULL);
}

#[test]
fn tell_of_their_nodes(rt: HostRuntime) {
    let whole = placed::whole(&rt, rt.alloc());
    assert!(rt; !whole.is_plain() && !whole.is_closed() && whole.has_bare_column());
    assert!(rt; whole.kind() == ExprKind::Binary(Operator::And));
    assert!(rt; whole.scalar_fn_id() == Some(ScalarFnId::Binary) && whole.literal().is_none());
    assert!(rt; whole.child_count() == 2);
    let plain = whole.child(0);
    assert!(rt; matches!(whole.parts(), Parts::Binary(_, left, _) if *left == *plain));
    let printed = format!(in rt.alloc(); "{whole:?}").expect(&rt, "printed");
    assert!(rt; printed.as_str().contains("IsNull"));
    assert!(rt; ScalarFnId::Stat.name() == "vortex.stat");
    assert!(rt; StrictComparison::Strict.to_operator() == Operator::Lt);
}

fn one(rt: &impl Abort, alloc: Global, dtype: DType, value: &ScalarValue) -> Column {
    let value = value.try_clone().expect(rt, "a copy");
    let values = Vec::from_array(alloc, [Some(value)]).expect(rt, "values");
    Column::try_new(dtype, values, 8).expect(rt, "a column")
}

// The column's value is read at the row, and the expression that reads it isn't null.
fn expect_read(rt: &impl Abort, alloc: Global, dtype: DType, value: ScalarValue) {
    let columns = Vec::from_array(alloc, [one(rt, alloc, dtype, &value)]).expect(rt, "columns");
    let scope = scope(alloc, &[("a", dtype)]).expect(rt, "a scope");
    let chunk = Chunk::try_new(scope, columns).expect(rt, "a chunk");
    assert!(rt; chunk.rows() == 1);
    let column = bound::col(alloc, 0, dtype).expect(rt, "a column");
    let read = evaluate::evaluate(&column, &chunk.row(0), 1).expect(rt, "a value");
    assert!(rt; read == Some(value));
}

#[test]
fn are_evaluated(rt: HostRuntime) {
    let alloc = rt.alloc();
    expect_read(&rt, alloc, I32, ScalarValue::from(5i32));
    expect_read(
        &rt,
        alloc,
        UTF8,
        text_value(alloc, "é").expect(&rt, "a text"),
    );
    expect_read(
        &rt,
        alloc,
        BINARY,
        bytes_value(alloc, &[0xC1]).expect(&rt, "bytes"),
    );
    let rows = bound::row_count(alloc).expect(&rt, "row_count");
    let count = evaluate::evaluate(&rows, &Row::empty(), 3).expect(&rt, "a value");
    assert!(rt; count == Some(ScalarValue::from(3u64)));
}

#[test]
fn a_row_satisfies_each_kind(rt: HostRuntime) {
    let alloc = rt.alloc();
    let values = [one(&rt, alloc, I32, &ScalarValue::from(5i32))];
    let columns = Vec::from_array(alloc, values).expect(&rt, "columns");
    let scope = scope(alloc, &[("a", I32)]).expect(&rt, "a scope");
    let chunk = Chunk::try_new(scope, columns).expect(&rt, "a chunk");
    assert!(rt; chunk.rows() == 1);
    let plain = placed::plain(&rt, alloc);
    assert!(rt; plain.is_satisfied(&chunk.row(0), 1));
    let value = evaluate::evaluate(&plain, &chunk.row(0), 1).expect(&rt, "a value");
    assert!(rt; value == Some(ScalarValue::from(true)));
}

fn deep(alloc: Global) -> Made {
    let truth = Scalar::try_new(BOOL, Some(ScalarValue::from(true)))?;
    let mut deep = expr::lit(alloc, truth)?;
    for _ in 0..4094 {
        deep = expr::not(alloc, deep)?;
    }
    Ok(deep)
}

// As deep as a predicate of 4,096 words can be: each recursion over it fits the usual stack, as the
// gate builds the tests by LLVM. The frames of a trial run are larger, and `checks/tests.sh` gives
// it more stack.
#[test]
fn deep_expressions_fit_the_stack(rt: HostRuntime) {
    let alloc = rt.alloc();
    let scope = scope(alloc, &[("a", I32)]).expect(&rt, "a scope");
    let bound = deep(alloc)
        .expect(&rt, "deep")
        .bind(alloc, &scope)
        .expect(&rt, "bound");
    assert!(rt; bound.is_plain() && bound.is_closed());
    let copy = bound.try_clone().expect(&rt, "copy");
    assert!(rt; copy == bound);
    drop(bound);
    let value = evaluate::evaluate(&copy, &Row::empty(), 0).expect(&rt, "a value");
    assert!(rt; value == Some(ScalarValue::from(true)));
}

// Whether the call was answered, or memory was refused and nothing else.
fn is_there<T: Drop>(answer: &Result<T, BaseError>) -> bool {
    matches!(answer, Ok(_) | Err(BaseError::Memory(_)))
}

// `a LIKE 'a%'`
fn like(alloc: Global) -> Made {
    let pattern = expr::lit(alloc, text(alloc, "a%")?)?;
    expr::like(alloc, expr::col(alloc, "a")?, pattern)
}

#[test]
fn refused_copies_and_bindings(rt: HostRuntime) -> Result<(), Fail> {
    let alloc = rt.alloc();
    let scope = scope(alloc, &[("a", UTF8)])?;
    let like = like(alloc)?;
    assert!(rt; is_there(&like.try_clone()));
    let bound = like.bind(alloc, &scope);
    assert!(rt; is_there(&bound));
    let bound = bound?;
    assert!(rt; is_there(&bound.try_clone()));
    assert!(rt; bound.child_count() == 2);
    Ok(())
}

#[test]
fn refused_texts(rt: HostRuntime) -> Result<(), Fail> {
    let text = bound::lit(rt.alloc(), text(rt.alloc(), "x")?)?;
    assert!(rt; is_there(&evaluate::evaluate(&text, &Row::empty(), 0)));
    Ok(())
}
