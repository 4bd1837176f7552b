//! Laws of pruning by conditions, in the words of its definitions.
ghost use Rattle.vortex_predicates.specs.Conditions.Conditions.{ProofsTell};

use vortex_sql::laws::{predicate_confirms_condition, predicate_refutes_condition};

/// Proofs over statistics that are right of the predicate of a condition are right of the condition
/// by the statistics of its own scope, whatever the leaves mean that aren't read.
pub fn proofs_tell_of_conditions()
    ensures { ProofsTell }
{
    predicate_refutes_condition();
    predicate_confirms_condition();
}
