//! Nodes over operands that are known to fit.
ghost use Rattle.std.specs.Prelude.{◌≡◌, Ok, IfErr, alloc_error};
ghost use Rattle.vortex_base.specs.declared.error.BaseError.TheVariants.{Memory};
ghost use Rattle.vortex_rewrite.specs.Answers.{Makes, OkOrMemory};

use vortex_base::error::BaseError;
use vortex_expr::bound_expression::BoundExpression;
use vortex_stats::error::StatsError;

/// Takes the product of a constructor over operands that fit; `Memory` is the one refusal that is
/// left.
pub fn expect_memory_only<T>(made: Result<T, BaseError>) -> Result<T, StatsError>
    requires { IfErr made (λ fault. fault ≡ Memory alloc_error) }
    ensures { OkOrMemory result (λ e. made ≡ Ok e) }
{
    match made {
        Ok(e) => Ok(e),
        Err(BaseError::Memory(refused)) => Err(StatsError::Memory(refused)),
        Err(_) => unreachable!(),
    }
}

/// A copy of an expression, by the allocators that its nodes hold.
pub fn cloned(e: &BoundExpression) -> Result<BoundExpression, StatsError>
    ensures { Makes e.now result }
{
    expect_memory_only(e.try_clone())
}
