//! Laws of this layer, in the words of its definitions.
ghost use Rattle.vortex_predicates.specs.Footers.PageWitness.{RangeExamples, TruePagedFile};

/// Worked rows of where stretches stand, and of the pages of leaf columns.
pub fn page_examples_hold()
    ensures { RangeExamples }
{}

/// A file and the rows of its row group, of which the statistics of its pages are true: a witness
/// of `FooterCondition::prune_pages`.
pub fn a_paged_file_is_true()
    ensures { TruePagedFile }
{}
