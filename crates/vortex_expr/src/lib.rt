//! Expressions: their trees and types, what one means on a row, and patterns of LIKE.
#![tactic(auto)]

mod bind;
pub mod bound;
pub mod bound_expression;
pub mod evaluate;
pub mod expr;
pub mod expression;
pub mod laws;
pub mod like;
pub mod like_pattern;
pub mod scalar_fn;
mod typing;

pub use bound_expression::BoundExpression;
pub use bound_expression::parts::Parts;
pub use expression::Expression;
pub use like::LikeOptions;
pub use like_pattern::{LikePattern, successor};
pub use scalar_fn::{BetweenOptions, Connective, ExprKind, Operator, ScalarFnId, StrictComparison};
