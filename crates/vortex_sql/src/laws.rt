//! Laws of this layer, in the words of its definitions. The functions carry them by their
//! contracts.
ghost use Rattle.vortex_sql.specs.Pruning.{ConfirmsCondition, RefutesCondition};
ghost use Rattle.vortex_sql.specs.Worked.{FloatCells, FloatReadings};
ghost use Rattle.vortex_sql.specs.Worked.{LeafNames, OrderExamples, OtherReadings, PatternExamples};
ghost use Rattle.vortex_sql.specs.Worked.{ReadingExamples, TextReadings, TruthExamples};
ghost use Rattle.vortex_sql.specs.Worked.{TypedReadings, TypedTruths};

/// Where no row of a zone satisfies the predicate of a condition, whatever stands in the columns of
/// the leaves that aren't read, none satisfies the condition.
pub fn predicate_refutes_condition()
    ensures { RefutesCondition }
{}

/// Where each row of a zone satisfies the predicate of a condition, whatever stands in those
/// columns, each satisfies the condition.
pub fn predicate_confirms_condition()
    ensures { ConfirmsCondition }
{}

/// Worked rows of what is said of tests, and of what they mean.
pub fn examples_hold()
    ensures readings { ReadingExamples }
    ensures others { OtherReadings }
    ensures orders { OrderExamples }
    ensures patterns { PatternExamples }
    ensures truths { TruthExamples }
    ensures typed { TypedReadings }
    ensures typed_texts { TextReadings }
    ensures typed_truths { TypedTruths }
    ensures names { LeafNames }
    ensures floats { FloatReadings }
    ensures float_cells { FloatCells }
{}
