//! Binding an expression to a scope.
ghost use Rattle.std.specs.Prelude.{◌≡◌, IfOk, IsOk, IsTrue, option_map};
ghost use Rattle.vortex_base.specs.Answer.{Gives, Makes};
ghost use Rattle.vortex_expr.specs.Meanings.Binding as binding;
ghost use Rattle.vortex_expr.specs.Meanings.Fitting.{fits_scope};

use crate::bound_expression::BoundExpression;
use crate::expression::{Expression, NamedNode};
use crate::{bound, typing};
use std::alloc::Global;
use vortex_base::dtype::DType;
use vortex_base::error::BaseError;
use vortex_base::scope::Scope;

fn find_column(scope: &Scope, name: &str) -> Option<(usize, DType)>
    ensures { option_map (λ p. record { index = p.0; dtype = p.1 }) result
        ≡ binding.find_column scope.now name.now }
{
    let place = scope.find(name)?;
    Some((place, scope.dtype(place)))
}

impl Expression {
    /// The typed expression that this is under a scope. A fault is that of the first faulty node,
    /// children before their parent and from the left: `UnknownColumn`, `TypeFault` or
    /// `Unsupported`. It is found before any memory is taken.
    pub fn bind(self, alloc: Global, scope: &Scope) -> Result<BoundExpression, BaseError>
        ensures value { Gives (binding.bound_in scope.now self) result }
        ensures fits { IfOk result (λ b. IsTrue (fits_scope b scope.now)) }
    {
        self.type_in(scope)?;
        self.placed_in(alloc, scope)
    }

    fn type_in(&self, scope: &Scope) -> Result<DType, BaseError>
        ensures { result ≡ binding.type_in scope.now self.now }
    {
        match &*self.node {
            NamedNode::Column(name) => match find_column(scope, name.as_str()) {
                Some((_, dtype)) => Ok(dtype),
                None => Err(BaseError::UnknownColumn),
            },
            NamedNode::Literal(value) => Ok(value.dtype()),
            NamedNode::Binary(operator, left, right) => {
                typing::binary_type(*operator, left.type_in(scope)?, right.type_in(scope)?)
            }
            NamedNode::Between(_, x, lower, upper) => {
                typing::between_type(
                    x.type_in(scope)?,
                    lower.type_in(scope)?,
                    upper.type_in(scope)?,
                )
            }
            NamedNode::IsNull(x) | NamedNode::IsNotNull(x) => {
                x.type_in(scope)?;
                Ok(typing::NULL_TEST)
            }
            NamedNode::Not(x) => typing::not_type(x.type_in(scope)?),
            NamedNode::Like(_, text, pattern) => {
                typing::like_type(text.type_in(scope)?, pattern.type_in(scope)?)
            }
            NamedNode::Stat(aggregate, input) => {
                typing::stat_type(*aggregate, input.type_in(scope)?)
            }
            NamedNode::RowCount => Ok(typing::ROW_COUNT),
        }
    }

    fn placed_in(self, alloc: Global, scope: &Scope) -> Result<BoundExpression, BaseError>
        requires { IsOk (binding.type_in scope.now self) }
        ensures { Makes (binding.placed_in scope.now self) result }
    {
        match self.into_node() {
            NamedNode::Column(name) => match find_column(scope, name.as_str()) {
                Some((place, dtype)) => bound::col(alloc, place, dtype),
                None => unreachable!(),
            },
            NamedNode::Literal(value) => bound::lit(alloc, value),
            NamedNode::Binary(operator, left, right) => {
                let left = left.placed_in(alloc, scope)?;
                let right = right.placed_in(alloc, scope)?;
                bound::binary(alloc, operator, left, right)
            }
            NamedNode::Between(options, x, lower, upper) => {
                let x = x.placed_in(alloc, scope)?;
                let lower = lower.placed_in(alloc, scope)?;
                let upper = upper.placed_in(alloc, scope)?;
                bound::between(alloc, x, lower, upper, options)
            }
            NamedNode::IsNull(x) => bound::is_null(alloc, x.placed_in(alloc, scope)?),
            NamedNode::IsNotNull(x) => bound::is_not_null(alloc, x.placed_in(alloc, scope)?),
            NamedNode::Not(x) => bound::not(alloc, x.placed_in(alloc, scope)?),
            NamedNode::Like(options, text, pattern) => {
                let text = text.placed_in(alloc, scope)?;
                let pattern = pattern.placed_in(alloc, scope)?;
                bound::like_with(alloc, text, pattern, options)
            }
            NamedNode::Stat(aggregate, input) => {
                bound::new_stat(alloc, input.placed_in(alloc, scope)?, aggregate)
            }
            NamedNode::RowCount => bound::row_count(alloc),
        }
    }
}
