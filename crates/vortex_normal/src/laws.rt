//! Laws of normal forms.
ghost use Rattle.vortex_normal.specs.Laws.{ChainsAreShallow, GroupsAreSame, NormalIsShallow, SetsAreShallow};
ghost use Rattle.vortex_normal.specs.OneColumn.{JoiningsAreApart, OneColumnIsApart};
ghost use Rattle.vortex_normal.specs.Worked.{BalancedExamples, FormExamples};
ghost use Rattle.vortex_normal.specs.WorkedLinks.{LinkExamples};
ghost use Rattle.vortex_normal.specs.WorkedNarrowed.{NarrowedExamples};
ghost use Rattle.vortex_normal.specs.WorkedTests.{StrictExamples, TestExamples};

/// Groups of what is said of one column in one place are satisfied by the same rows.
pub fn groups_are_same()
    ensures { GroupsAreSame }
{}

/// The normal form of a predicate over one column is one that bounds decide, where neither null nor
/// every value satisfies the predicate; of texts, bytes and truths where it comes to no range that
/// is open at both ends.
pub fn one_column_is_apart()
    ensures { OneColumnIsApart }
{}

/// So is that of a joining of such predicates by AND, OR and NOT, where the sides of each AND and OR
/// have no column in common.
pub fn joinings_are_apart()
    ensures { JoiningsAreApart }
{}

/// A chain is deeper than its items by no more than the logarithm of their number.
pub fn chains_are_shallow()
    ensures { ChainsAreShallow }
{}

/// The test of a set is deeper than a comparison by no more than the logarithm of the number of its
/// intervals.
pub fn sets_are_shallow()
    ensures { SetsAreShallow }
{}

/// A normal form is deeper than the predicate, or than the test of a set, by no more than the
/// logarithm of the number of the predicate's leaves for each turn of AND and OR, and once more.
pub fn normal_is_shallow()
    ensures { NormalIsShallow }
{}

/// Worked normal forms.
pub fn examples_hold()
    ensures { FormExamples }
{}

/// Worked joinings two by two, and depths.
pub fn balanced_examples_hold()
    ensures { BalancedExamples }
{}

/// Worked tests of truths.
pub fn test_examples_hold()
    ensures { TestExamples }
{}

/// Worked strict predicates, and strict normal forms.
pub fn strict_examples_hold()
    ensures { StrictExamples }
{}

/// Worked narrowed predicates.
pub fn narrowed_examples_hold()
    ensures { NarrowedExamples }
{}

/// Worked consequences of comparisons of columns.
pub fn link_examples_hold()
    ensures { LinkExamples }
{}
