//! Laws of this layer, in the words of its definitions. The functions carry them by their
//! contracts.
ghost use Rattle.vortex_literals.specs.Dates.{DatesCompareAsDays};
ghost use Rattle.vortex_literals.specs.Worked.{DateExamples, InstantExamples, IntervalExamples};
ghost use Rattle.vortex_literals.specs.Worked.{NumberExamples, TimeExamples, TimestampExamples};

/// A column of dates compares with a date's midnight as the day numbers.
pub fn dates_compare_as_days()
    ensures { DatesCompareAsDays }
{}

/// Worked rows of the definitions: what texts write, what they don't, and how dates move.
pub fn examples_hold()
    ensures dates { DateExamples }
    ensures timestamps { TimestampExamples }
    ensures instants { InstantExamples }
    ensures times { TimeExamples }
    ensures numbers { NumberExamples }
    ensures intervals { IntervalExamples }
{}
