//! Says what joining the chains of an expression in halves keeps.
ghost use Rattle.vortex_capi.specs.Nesting.Laws.{ChainsAreShallow, EvaluatesTheSame, FitsTheSameScopes, HasTheSameColumns, HasTheSameColumnsInOrder, HasTheSameType, IsAsDecided, IsAsPlain, IsTheSamePredicate, KeepsItsType, MeansTheSame};

/// Keeps the value of an expression on every row, null included.
pub fn means_the_same()
    ensures { MeansTheSame }
{}

/// Keeps the rows on which the expression evaluates, and its fault on the others.
pub fn evaluates_the_same()
    ensures { EvaluatesTheSame }
{}

/// Gives the type of the expression, or none where it has none.
pub fn has_the_same_type()
    ensures { HasTheSameType }
{}

/// Keeps the type of an expression that has one.
pub fn keeps_its_type()
    ensures { KeepsItsType }
{}

/// Makes a predicate of a predicate alone.
pub fn is_the_same_predicate()
    ensures { IsTheSamePredicate }
{}

/// Keeps whether a test passes at each column.
pub fn has_the_same_columns()
    ensures { HasTheSameColumns }
{}

/// Keeps the scopes that the expression fits.
pub fn fits_the_same_scopes()
    ensures { FitsTheSameScopes }
{}

/// Keeps whether there is a placeholder or a row count.
pub fn is_as_plain()
    ensures { IsAsPlain }
{}

/// Keeps the columns and their order.
pub fn has_the_same_columns_in_order()
    ensures { HasTheSameColumnsInOrder }
{}

/// Keeps whether bounds decide the expression.
pub fn is_as_decided()
    ensures { IsAsDecided }
{}

/// Makes a chain deeper than its items by no more than the logarithm of their number, rounded up.
pub fn chains_are_shallow()
    ensures { ChainsAreShallow }
{}
