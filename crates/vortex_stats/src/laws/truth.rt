//! Laws of true sets: a set is true of a column if its values are of their statistics' types and
//! each claims what holds of the column's values and size.
ghost use Rattle.std.specs.Prelude.{◌≡◌, ◌↔◌, List, false, None, Contains, IsTrue};
ghost use Rattle.vortex_base.specs.declared.scalar_value.ScalarValue.{ScalarValue};
ghost use Rattle.vortex_base.specs.Data.Columns.{ColumnData};
ghost use Rattle.vortex_stats.specs.declared.precision.Precision.{Precision};
ghost use Rattle.vortex_stats.specs.declared.stat.Stat.{Stat};
ghost use Rattle.vortex_stats.specs.declared.stat.Stat.TheVariants.{IsSorted, IsStrictSorted};
ghost use Rattle.vortex_stats.specs.Sets.Claims.{Claims, IsTrueOf, IsReordered, appended};
ghost use Rattle.vortex_stats.specs.Merging.Combined.{combined};
ghost use Rattle.vortex_stats.specs.Sets.Entries.{AreDistinct, entries_fit, has_entry, entry_value, with_entry, without_entry, retained_entries};
ghost use Rattle.vortex_stats.specs.Merging.Merges.{merged_ordered, merged_unordered};
ghost use Rattle.vortex_stats.specs.Precision.{inexact_of};

/// A set whose values are of their statistics' types is true of a column exactly if each of its
/// entries claims what holds of it.
pub fn sets_are_true_by_entry()
    ensures { (es : List (Stat × Precision ScalarValue)) (c : ColumnData)
        → AreDistinct es → IsTrue (entries_fit es c.dtype)
        → IsTrueOf es c ↔ ((e : Stat × Precision ScalarValue) → Contains es e → Claims e.0 e.1 c) }
{}

/// The ordered merge of sets that are true of two columns of one type is true of the first column
/// with the second appended, sizes added.
pub fn ordered_merges_stay_true()
    ensures { (a b : List (Stat × Precision ScalarValue)) (c d : ColumnData)
        → c.dtype ≡ d.dtype → IsTrueOf a c → IsTrueOf b d
        → IsTrueOf (merged_ordered a b) (appended c d) }
{}

/// The unordered merge of sets that are true of two columns of one type is true of the appended
/// column in whatever order its values stand.
pub fn unordered_merges_stay_true()
    ensures { (a b : List (Stat × Precision ScalarValue)) (c d e : ColumnData)
        → c.dtype ≡ d.dtype → IsTrueOf a c → IsTrueOf b d → IsReordered (appended c d) e
        → IsTrueOf (merged_unordered a b) e }
{}

/// An unordered merge says nothing of the order of the values.
pub fn unordered_merges_forget_order()
    ensures sorted { (a b : List (Stat × Precision ScalarValue))
        → has_entry IsSorted (merged_unordered a b) ≡ false }
    ensures strict_sorted { (a b : List (Stat × Precision ScalarValue))
        → has_entry IsStrictSorted (merged_unordered a b) ≡ false }
{}

/// Unordered merges of two sets have the same statistics with the same values, whichever comes
/// first.
pub fn unordered_merges_commute()
    ensures statistics { (s : Stat) (a b : List (Stat × Precision ScalarValue))
        → has_entry s (merged_unordered a b) ≡ has_entry s (merged_unordered b a) }
    ensures values { (s : Stat) (a b : List (Stat × Precision ScalarValue))
        → entry_value s (merged_unordered a b) ≡ entry_value s (merged_unordered b a) }
{}

/// Sets that are true of one column do not contradict each other.
pub fn true_sets_agree()
    ensures { (a b : List (Stat × Precision ScalarValue)) (c : ColumnData)
        → AreDistinct b → IsTrueOf a c → IsTrueOf b c → (combined a b).conflict ≡ None }
{}

/// The combination of sets that are true of one column is true of it.
pub fn combinations_stay_true()
    ensures { (a b : List (Stat × Precision ScalarValue)) (c : ColumnData)
        → AreDistinct b → IsTrueOf a c → IsTrueOf b c → IsTrueOf (combined a b).entries c }
{}

/// A true set stays true without the entry of a statistic.
pub fn cleared_sets_stay_true()
    ensures { (s : Stat) (es : List (Stat × Precision ScalarValue)) (c : ColumnData)
        → IsTrueOf es c → IsTrueOf (without_entry s es) c }
{}

/// A true set stays true with the entries of some statistics alone.
pub fn retained_sets_stay_true()
    ensures { (stats : List Stat) (es : List (Stat × Precision ScalarValue)) (c : ColumnData)
        → IsTrueOf es c → IsTrueOf (retained_entries stats es) c }
{}

/// A true set stays true with a statistic's value made inexact.
pub fn loosened_sets_stay_true()
    ensures { (s : Stat) (es : List (Stat × Precision ScalarValue)) (c : ColumnData)
        → IsTrueOf es c → IsTrueOf (with_entry s (inexact_of (entry_value s es)) es) c }
{}
