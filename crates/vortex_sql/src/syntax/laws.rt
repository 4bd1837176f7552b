//! Laws of this layer, in the words of its definitions. The functions carry them by their
//! contracts.
ghost use Rattle.vortex_sql.specs.Parsing.Worked.{NameExamples, NamedExamples, NeighbourExamples};

/// Worked rows of names of several parts, and of how they are read.
pub fn examples_hold()
    ensures names { NameExamples }
    ensures neighbours { NeighbourExamples }
    ensures named { NamedExamples }
{}
