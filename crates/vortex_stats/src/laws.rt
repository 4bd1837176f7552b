//! Laws of the definitions, as functions whose contracts state them.
ghost use Rattle.vortex_stats.specs.Bounds.Bound.{IsTightIntersection};
ghost use Rattle.vortex_stats.specs.Bounds.Order.{greater, lesser};
ghost use Rattle.vortex_stats.specs.Bounds.UpperBound.{upper_allows, upper_union, upper_intersection};
ghost use Rattle.vortex_stats.specs.Bounds.LowerBound.{lower_allows, lower_union, lower_intersection};
ghost use Rattle.vortex_stats.specs.Bounds.Tightest.{IsTightestUnion, BoundTree, leaves, ArePresent, tree_union};
ghost use Rattle.vortex_stats.specs.Bounds.Tightest.{IsGreatestOf, IsLeastOf, AnswersAlike};
ghost use Rattle.std.specs.Prelude.{◌≡◌, ℕ, IsTrue, IsPermutation, List, MatchOption, false};
ghost use Rattle.std.specs.Ordering.{nat_cmp};
ghost use Rattle.vortex_base.specs.declared.dtype.DType.{DType};
ghost use Rattle.vortex_stats.specs.declared.stat.Stat.{Stat};
ghost use Rattle.vortex_stats.specs.Stat.{stat_number, stat_eq, pruning_stats, IsTold, IsColumnType, AgreesWithAggregate};
ghost use Rattle.vortex_stats.specs.Sets.Bitset.{IsBitsetOf, stats_in, distinct_ascending};
ghost use Rattle.vortex_base.specs.declared.scalar_value.ScalarValue.{ScalarValue};
ghost use Rattle.vortex_stats.specs.declared.precision.Precision.{Precision};
ghost use Rattle.vortex_stats.specs.Merging.Merges.{merged_ordered, merged_by_steps};
ghost use Rattle.vortex_stats.specs.Copies.{holds_long, merge_copies, combination_copies};
ghost use Rattle.vortex_stats.specs.Sets.Entries.{entries_fit};

pub mod truth;

use crate::stat::{PRUNING_STATS, Stat};
use std::hash::Hash;

/// An intersection of present upper bounds allows exactly what both allow, its own value among it,
/// and is Empty exactly where that is nothing.
pub fn upper_intersection_is_tight<T: Ord>()
    ensures { IsTightIntersection (upper_allows T.cmp) (upper_intersection T.cmp) }
{}

/// An intersection of present lower bounds allows exactly what both allow, its own value among it,
/// and is Empty exactly where that is nothing.
pub fn lower_intersection_is_tight<T: Ord>()
    ensures { IsTightIntersection (lower_allows T.cmp) (lower_intersection T.cmp) }
{}

/// The union of two present bounds is the tightest bound that there is: what it allows, every bound
/// allows that allows the picks of what the operands allow, taken among that value and the
/// operands' own.
pub fn union_is_tightest<T: Ord>()
    ensures upper { IsTightestUnion (upper_allows T.cmp) (greater T.cmp) (upper_union T.cmp) }
    ensures lower { IsTightestUnion (lower_allows T.cmp) (lesser T.cmp) (lower_union T.cmp) }
{}

/// The union of many present bounds is there in whatever grouping and order: of upper bounds it has
/// the greatest value and of lower bounds the least, and it is exact exactly if an exact one of the
/// bounds has that value. Values that compare equal count as one.
pub fn unions_agree<T: Ord>()
    ensures greatest { (t : BoundTree T) → ArePresent (leaves t)
        → MatchOption (tree_union (upper_union T.cmp) t) ⊥ (IsGreatestOf T.cmp (leaves t)) }
    ensures least { (t : BoundTree T) → ArePresent (leaves t)
        → MatchOption (tree_union (lower_union T.cmp) t) ⊥ (IsLeastOf T.cmp (leaves t)) }
    ensures upper { (s t : BoundTree T) → ArePresent (leaves s)
        → IsPermutation (leaves s) (leaves t)
        → AnswersAlike T.cmp (tree_union (upper_union T.cmp) s) (tree_union (upper_union T.cmp) t) }
    ensures lower { (s t : BoundTree T) → ArePresent (leaves s)
        → IsPermutation (leaves s) (leaves t)
        → AnswersAlike T.cmp (tree_union (lower_union T.cmp) s) (tree_union (lower_union T.cmp) t) }
{}

/// A statistic is told by its number, and by its aggregate where it has one.
#[tactic(auto, using(crate::specs::Stat::stats_are_told))]
pub fn statistics_are_told()
    ensures { (s : Stat) → IsTold s }
{}

/// For every statistic with an aggregate and every column type, the statistic's type and the type
/// of the aggregate's state are equal up to nullability, or there is neither.
#[tactic(auto, using(crate::specs::Stat::stats_agree))]
pub fn state_types_agree()
    ensures { (s : Stat) (t : DType) → IsColumnType t → AgreesWithAggregate s t }
{}

/// Statistics are equal, and ordered, as their numbers are.
pub fn statistics_compare_by_number()
    ensures order { (a b : Stat)
        → ⟦<Stat as Ord>⟧.cmp a b ≡ nat_cmp (stat_number a) (stat_number b) }
    ensures equality { (a b : Stat) → ⟦<Stat as PartialEq>⟧.eq a b ≡ stat_eq a b }
{}

/// The statistics that pruning reads are Min, Max, Sum, NullCount and NaNCount.
pub fn pruning_reads_these()
    ensures { PRUNING_STATS.now ≡ pruning_stats }
{}

/// Equal statistics hash alike.
pub fn equal_statistics_hash_alike()
    ensures { (a b : Stat) → IsTrue (stat_eq a b)
        → ⟦<Stat as Hash>⟧.hash_input a ≡ ⟦<Stat as Hash>⟧.hash_input b }
{}

/// Bytes that hold a list of statistics are read back as those statistics, each once and ascending.
#[tactic(auto, using(crate::specs::Sets::Bitset::stats_in_written))]
pub fn bitsets_are_read_back()
    ensures { (stats : List Stat) (bytes : List ℕ) → IsBitsetOf stats bytes
        → stats_in bytes ≡ distinct_ascending stats }
{}

/// The table of a merge is what the statistics give one after the other, in the order of their
/// numbers, where each step sees what the earlier ones left.
pub fn merges_go_step_by_step()
    ensures { (a b : List (Stat × Precision ScalarValue))
        → merged_ordered a b ≡ merged_by_steps a b }
{}

/// In a column without texts and bytes no merge and no combination makes a copy that takes memory,
/// so that neither is refused for it.
pub fn short_values_are_not_copied()
    ensures merged { (t : DType) (a b : List (Stat × Precision ScalarValue))
        → holds_long t ≡ false → IsTrue (entries_fit a t) → IsTrue (entries_fit b t)
        → merge_copies a b ≡ false }
    ensures combined { (t : DType) (a b : List (Stat × Precision ScalarValue))
        → holds_long t ≡ false → IsTrue (entries_fit a t) → IsTrue (entries_fit b t)
        → combination_copies a b ≡ false }
{}
