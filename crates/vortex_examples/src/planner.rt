//! A planner with a rule of its own beside the built-in ones.
ghost use Rattle.std.specs.Prelude.{◌≡◌, All, IfOk, IsTrue};
ghost use Rattle.std.specs.List.{AllByRecursion};
ghost use Rattle.vortex_expr.specs.Meanings.Fitting.{fits_scope};
ghost use Rattle.vortex_expr.specs.Trees.Tree.{is_plain};
ghost use Rattle.vortex_prune.specs.Part.{IsTruePart};
ghost use Rattle.vortex_prune.specs.Scanning.Selection.{full};

use crate::null_operands::NullOperands;
use std::alloc::Global;
use vortex_expr::{BoundExpression, ScalarFnId};
use vortex_prune::laws::statistics_binders_are_honest;
use vortex_prune::scan::scan;
use vortex_prune::{Part, Rules, Scan, StatsBinder};
use vortex_stats::StatsError;

/// The scan by the parts' own statistics, the built-in rules, and the rule that an operator rules
/// out the rows of which an operand is null.
pub fn scan_by_null_operands(
    alloc: Global,
    parts: &[Part],
    predicate: &BoundExpression,
) -> Result<Scan, StatsError>
    requires plain { IsTrue (is_plain predicate.now) }
    requires fits { All (λ part. IsTrue (fits_scope predicate.now part.chunk.scope)) parts.now }
    // The rule loses no row: where the statistics are true these are the full scan's.
    ensures full { IfOk result (λ scan. AllByRecursion IsTruePart parts.now
        → scan.selected.items ≡ full predicate.now parts.now) }
{
    statistics_binders_are_honest();
    let binders = StatsBinder::of_parts(alloc, parts)?;
    let mut rules = Rules::builtin(alloc);
    let function = ScalarFnId::Binary;
    rules.push(Box::new(alloc, NullOperands { function })?)?;
    scan(alloc, parts, &binders, predicate, &rules)
}
