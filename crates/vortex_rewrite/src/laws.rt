//! Laws of rewriting, in the words of its definitions. The functions carry them by their contracts.
ghost use Rattle.vortex_rewrite.specs.Laws.{FalsifiersAreSound, ReadOnceIsApart, SatisfiersAreSound};
ghost use Rattle.vortex_rewrite.specs.RuleLaws.{BothProofsAreTrue, ComparisonsAreSound, FactsHoldAtRows};
ghost use Rattle.vortex_rewrite.specs.RuleLaws.{OneOfProofsIsTrue, PartsAreOver};
ghost use Rattle.vortex_rewrite.specs.RuleLaws.{PlaceholdersAreNullable, TablesAreSound, WholesAreOver};
ghost use Rattle.vortex_rewrite.specs.Rewriting.BuiltInRules.{ProofsAreInOrder, RulesAreOfFunctions};

/// Where a falsifier is true under facts, no row satisfies the predicate, whichever lawful rules
/// took part in it.
pub fn falsifiers_are_sound()
    ensures { FalsifiersAreSound }
{}

/// Where a satisfier is true under facts, every row satisfies the predicate, whichever lawful rules
/// took part in it.
pub fn satisfiers_are_sound()
    ensures { SatisfiersAreSound }
{}

/// At each node of a function the proofs of the built-in rules stand in the order of `BuiltinRule`,
/// before those of the user's rules; and none of them proves anything of another function's node.
pub fn built_in_rules_are_in_order()
    ensures order { ProofsAreInOrder }
    ensures functions { RulesAreOfFunctions }
{}

/// A read-once predicate is one whose ANDs are apart: so what bounds decide of these they decide of
/// those.
pub fn read_once_is_apart()
    ensures { ReadOnceIsApart }
{}

/// Answers to placeholders of an input say, where they are facts of a chunk, what is so of its
/// value on each row: a least and a greatest value bound it, and it is null or isn't as the counts
/// of nulls and the two truths on nulls say.
pub fn facts_hold_at_rows()
    ensures { FactsHoldAtRows }
{}

/// Of two proofs joined by OR one is true where they are, and of two joined by AND both.
pub fn joined_proofs_are_true()
    ensures one { OneOfProofsIsTrue }
    ensures both { BothProofsAreTrue }
{}

/// The proofs that the built-in tables have for one node, without its sides, are right.
pub fn tables_are_sound()
    ensures comparisons { ComparisonsAreSound }
    ensures others { TablesAreSound }
{}

/// An expression over a chunk has parts that are, and a node that has a type is where its operands
/// are.
pub fn parts_and_wholes_are_over()
    ensures parts { PartsAreOver }
    ensures wholes { WholesAreOver }
{}

/// The type of a placeholder has null, so that a missing answer may stand for it.
pub fn placeholders_are_nullable()
    ensures { PlaceholdersAreNullable }
{}
