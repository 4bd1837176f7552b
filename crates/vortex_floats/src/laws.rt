//! Laws of this layer, in the words of its definitions. The functions carry them by their
//! contracts.
ghost use Rattle.vortex_floats.specs.Cells.{CellsStandForFloats, MeaningsAgree, RangesAgree};
ghost use Rattle.vortex_floats.specs.Worked.{CellExamples, NumberExamples};

/// The cell that holds the whole number of a float stands for that float.
pub fn cells_stand_for_floats()
    ensures { CellsStandForFloats }
{}

/// Where nothing is said of NaN, a comparison that is a test says the same under both meanings.
pub fn meanings_agree()
    ensures { MeaningsAgree }
{}

/// A float lies between two finite ones under both meanings of NaN or under neither.
pub fn ranges_agree()
    ensures { RangesAgree }
{}

/// The worked rows hold.
pub fn examples_hold()
    ensures cells { CellExamples }
    ensures numbers { NumberExamples }
{}
