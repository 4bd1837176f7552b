//! Laws of pruning by normal forms, in the words of the definitions.
ghost use Rattle.vortex_predicates.specs.Beyond.{BeyondGoesFar, BoundedGoesFar};
ghost use Rattle.vortex_predicates.specs.Carried.{SatisfiabilityIsCarried};
ghost use Rattle.vortex_predicates.specs.EqualBounds.{OneTextIsTold};
ghost use Rattle.vortex_predicates.specs.Full.{SameSelectsTheSame};
ghost use Rattle.vortex_predicates.specs.Worked.{JointExamples, ProofExamples};
ghost use Rattle.vortex_predicates.specs.WorkedComplete.{CompleteExamples};
ghost use Rattle.vortex_predicates.specs.WorkedLikes.{LikeExamples, LikeProofExamples};
ghost use Rattle.vortex_predicates.specs.WorkedNulls.{FarExamples, NullExamples, NullZoneExamples};
ghost use Rattle.vortex_predicates.specs.WorkedNulls.{OneSidedExamples};

/// Two predicates that are satisfied by the same rows select the same rows of parts.
pub fn same_selects_the_same()
    ensures { SameSelectsTheSame }
{}

/// Values within bounds satisfy a predicate exactly if some satisfy one that the same rows satisfy,
/// also where that has fewer columns.
pub fn satisfiability_is_carried()
    ensures { SatisfiabilityIsCarried }
{}

/// Worked joint proofs.
pub fn joint_examples_hold()
    ensures { JointExamples }
{}

/// The proofs of worked predicates.
pub fn proof_examples_hold()
    ensures { ProofExamples }
{}

/// Worked predicates for which pruning is complete, and some for which it isn't.
pub fn complete_examples_hold()
    ensures { CompleteExamples }
{}

/// Worked predicates for which pruning is complete where null counts are known, worked zones, some
/// of which lack a bound, and boxes that go far enough for these, and some that don't.
pub fn null_examples_hold()
    ensures predicates { NullExamples }
    ensures zones { NullZoneExamples }
    ensures one_sided { OneSidedExamples }
    ensures boxes { FarExamples }
{}

/// Where bounds aren't known, a box goes far enough for a test if its sides there lie beyond all
/// that the test compares.
pub fn beyond_goes_far()
    ensures { BeyondGoesFar }
{}

/// Where both bounds of each column with values are known, no box is asked to go further.
pub fn bounded_goes_far()
    ensures { BoundedGoesFar }
{}

/// Where a column's bounds are one text of which a LIKE isn't true, the proof that no row satisfies
/// the LIKE is true.
pub fn one_text_is_told()
    ensures { OneTextIsTold }
{}

/// Worked proofs of LIKE for a column that has one value alone.
pub fn like_examples_hold()
    ensures proofs { LikeExamples }
    ensures predicates { LikeProofExamples }
{}
