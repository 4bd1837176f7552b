//! The text of a condition as a predicate over a scope that has a column for each leaf that isn't
//! read.
ghost use Rattle.std.specs.Prelude.{◌≡◌, ◌++◌, ◌∷◌, [], IfErr, IfOk, IsTrue, false, length, map};
ghost use Rattle.std.specs.String.{string_bytes};
ghost use Rattle.vortex_base.specs.Data.Scopes.{IsScope, named_columns};
ghost use Rattle.vortex_expr.specs.Meanings.Fitting.{fits_scope};
ghost use Rattle.vortex_expr.specs.Trees.Tree.{is_plain};
ghost use Rattle.vortex_sql.specs.Lowering as spec;
ghost use Rattle.vortex_sql.specs.Refusals.{IsNameRefusal, IsSchemaRefusal, IsTextRefusal, is_fit, misfits};
ghost use Rattle.vortex_sql.specs.Parsing.Joining.{Joins, ands};
ghost use Rattle.vortex_sql.specs.Parsing.Naming.{AreNamed};
ghost use Rattle.vortex_sql.specs.Parsing.Places.{Ascends, leaves};

use crate::error::SqlError;
use crate::lower::{Said, lower};
use crate::schema::Schema;
use crate::syntax::parse::{Names, parse};
use crate::syntax::token::between;
use crate::syntax::tree::Condition;
use std::alloc::{AllocError, Global};
use vortex_base::dtype::DType;
use vortex_base::scope::Scope;
use vortex_base::types::Nullability;
use vortex_expr::bound_expression::BoundExpression;

/// A condition of SQL over the columns of a scope.
#[derive(Drop)]
pub struct Predicate {
    /// The condition as it was read.
    pub condition: Condition,
    /// An expression over `scope` that means the same.
    pub predicate: BoundExpression,
    /// The scope with a nullable column of type Bool behind it for each leaf that isn't read, which
    /// has the place and the text of the leaf for a name. Nothing has to be known of these columns.
    pub scope: Scope,
    /// The bytes of the text at which each of these leaves begins and ends.
    pub opaque: Vec<(usize, usize)>,
}

fn columns_of(alloc: Global, scope: &Scope) -> Result<Vec<(String, DType)>, AllocError>
    ensures read { IfOk result (λ columns. named_columns columns.items ≡ scope.now) }
    ensures is_scope { IsScope scope.now }
{
    let mut columns = Vec::new(alloc);
    for place in 0..scope.len() {
        let name = String::from_str(alloc, scope.name(place))?;
        columns.push((name, scope.dtype(place)))?;
    }
    Ok(columns)
}

// Returns the name of a leaf's column: where the leaf begins, and its text. So no two have one
// name.
fn name_of(alloc: Global, text: &str, span: (usize, usize)) -> Result<String, AllocError>
    ensures { IfOk result (λ name. string_bytes name ≡ spec.leaf_name text.now span) }
{
    let (start, end) = span;
    let leaf = String::from_utf8_lossy(alloc, between(text.as_bytes(), start, end))?;
    format!(in alloc; "{start}: {leaf}")
}

fn opaque_columns(
    alloc: Global,
    text: &str,
    opaque: &[(usize, usize)],
) -> Result<Vec<(String, DType)>, AllocError>
    ensures { IfOk result (λ columns.
        named_columns columns.items ≡ spec.leaf_columns text.now opaque.now) }
{
    let mut columns = Vec::new(alloc);
    for span in opaque {
        let name = name_of(alloc, text, *span)?;
        columns.push((name, DType::Bool(Nullability::Nullable)))?;
    }
    Ok(columns)
}

fn widened(
    alloc: Global,
    text: &str,
    scope: &Scope,
    opaque: &[(usize, usize)],
) -> Result<Scope, SqlError>
    ensures made { IfOk result (λ wide.
        wide ≡ scope.now ++ spec.leaf_columns text.now opaque.now) }
    ensures refused { IfErr result
        (IsNameRefusal (scope.now ++ spec.leaf_columns text.now opaque.now)) }
{
    let mut columns = columns_of(alloc, scope)?;
    let mut more = opaque_columns(alloc, text, opaque)?;
    columns.append(&mut more)?;
    match Scope::try_new(columns) {
        Ok(wide) => Ok(wide),
        Err(_) => Err(SqlError::Name),
    }
}

// Tells whether an expression is a plain predicate over a scope.
fn is_plain_predicate(predicate: &BoundExpression, scope: &Scope) -> bool
    ensures test { result ≡ is_fit predicate.now scope.now }
    ensures fits { IsTrue result → IsTrue (fits_scope predicate.now scope.now) }
    ensures plain { IsTrue result → IsTrue (is_plain predicate.now) }
    ensures bool { IsTrue result → IsTrue (spec.is_of_bool predicate.now) }
{
    let is_bool = matches!(predicate.dtype(), DType::Bool(_));
    is_bool && predicate.is_plain() && predicate.fits_scope(scope)
}

/// Returns the predicate that a condition is over the columns of a schema. The text that it was
/// read from names the columns of the leaves that aren't read.
pub fn over_schema(
    alloc: Global,
    text: &str,
    condition: Condition,
    schema: &Schema,
) -> Result<Predicate, SqlError>
    ensures same { IfOk result (λ p. p.condition ≡ condition) }
    ensures says { IfOk result (λ p. spec.Says schema.now p.condition p.predicate) }
    ensures opaque { IfOk result (λ p.
        p.opaque.items ≡ map spec.span_of (spec.opaques schema.now p.condition)) }
    ensures typed { IfOk result (λ p. misfits schema.now p.condition ≡ []) }
    ensures scope { IfOk result (λ p.
        p.scope ≡ schema.now.scope ++ spec.leaf_columns text.now p.opaque.items) }
    ensures fits { IfOk result (λ p. IsTrue (fits_scope p.predicate p.scope)) }
    ensures plain { IfOk result (λ p. IsTrue (is_plain p.predicate)) }
    ensures bool { IfOk result (λ p. IsTrue (spec.is_of_bool p.predicate)) }
    // A misfit is the first of the condition.
    ensures refused { IfErr result (IsSchemaRefusal text.now schema.now condition) }
{
    let Said { predicate, opaque } = lower(alloc, schema, &condition)?;
    let scope = widened(alloc, text, schema.scope(), &opaque)?;
    if !is_plain_predicate(&predicate, &scope) {
        return Err(SqlError::Name);
    }
    Ok(Predicate {
        condition,
        predicate,
        scope,
        opaque,
    })
}

/// Returns the predicate that the text of a condition is over the columns of a schema, with names
/// of one or of several parts as `names` says.
pub fn condition(
    alloc: Global,
    text: &str,
    schema: &Schema,
    names: Names,
) -> Result<Predicate, SqlError>
    // A name of several parts is the column of its last part where that is wanted, and else isn't
    // read.
    ensures named { IfOk result (λ p. AreNamed text.now names p.condition) }
    ensures says { IfOk result (λ p. spec.Says schema.now p.condition p.predicate) }
    ensures places { IfOk result (λ p. Ascends 0 (leaves p.condition) (length text.now)) }
    ensures joined { IfOk result (λ p.
        Joins text.now 0 (leaves p.condition) (false ∷ ands p.condition)) }
    ensures opaque { IfOk result (λ p.
        p.opaque.items ≡ map spec.span_of (spec.opaques schema.now p.condition)) }
    ensures typed { IfOk result (λ p. misfits schema.now p.condition ≡ []) }
    ensures scope { IfOk result (λ p.
        p.scope ≡ schema.now.scope ++ spec.leaf_columns text.now p.opaque.items) }
    ensures fits { IfOk result (λ p. IsTrue (fits_scope p.predicate p.scope)) }
    ensures plain { IfOk result (λ p. IsTrue (is_plain p.predicate)) }
    ensures bool { IfOk result (λ p. IsTrue (spec.is_of_bool p.predicate)) }
    // A refusal has a place in the text; a misfit is the first of the condition that was read.
    ensures refused { IfErr result (IsTextRefusal text.now schema.now) }
{
    let condition = parse(alloc, text, names)?;
    over_schema(alloc, text, condition, schema)
}
