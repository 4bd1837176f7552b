//! Laws of this layer, in the words of its definitions. The functions carry them by their
//! contracts.
ghost use Rattle.vortex_logical.specs.Floats.{FloatsCompareAsNumbers};
ghost use Rattle.vortex_logical.specs.Points.{CutGreatestIsRaised, CutsKeepOrder};
ghost use Rattle.vortex_logical.specs.Sortable.{BytesCompareAsNumbers};
ghost use Rattle.vortex_logical.specs.Worked.{FloatExamples, HalfExamples, MeaningExamples};
ghost use Rattle.vortex_logical.specs.Worked.{PointExamples};

/// The bytes of two numbers compare as the numbers.
pub fn bytes_compare_as_numbers()
    ensures { BytesCompareAsNumbers }
{}

/// Two floats compare as their whole numbers, NaN being the greatest.
pub fn floats_compare_as_numbers()
    ensures { FloatsCompareAsNumbers }
{}

/// Numbers cut down to a coarser unit keep their order.
pub fn cuts_keep_order()
    ensures { CutsKeepOrder }
{}

/// Where only the cut of a greatest number is told, one unit more is above all.
pub fn cut_greatest_is_raised()
    ensures { CutGreatestIsRaised }
{}

/// Worked rows of the definitions: what cells stand for, points and tests, floats of 16 bits, and
/// floats of three widths.
pub fn examples_hold()
    ensures meanings { MeaningExamples }
    ensures points { PointExamples }
    ensures halves { HalfExamples }
    ensures floats { FloatExamples }
{}
