//! Laws of pruning, in the words of its definitions. The functions carry them by their contracts.
ghost use Rattle.std.specs.Prelude.{◌≡◌, ℕ, List, false};
ghost use Rattle.std.specs.List.{AllByRecursion};
ghost use Rattle.vortex_prune.specs.Choosing.{ChosenSetsStayTrue};
ghost use Rattle.vortex_prune.specs.Scanning.Complete.{FalsifiersAreComplete};
ghost use Rattle.vortex_prune.specs.Laws.{LiteralsAreAnswers, NullsAreAnswers, StatisticsAreHonest};
ghost use Rattle.vortex_prune.specs.Part.{AreParts, IsTruePart, PartData};
ghost use Rattle.vortex_prune.specs.Scanning.RangeScans.{RangesAreThere, RangesBehindAreThere};
ghost use Rattle.vortex_prune.specs.Scanning.Selection.{AreByStatistics, AreFaithful, AreHonest, any_binder};
ghost use Rattle.vortex_prune.specs.Scanning.TrueRows.{ZonesHaveTrueRows};

use crate::bind::stat_binder::StatBinder;
use crate::bind::stats_binder::StatsBinder;

/// Answers of a part's statistics to placeholders are facts of its columns, where they are
/// true of them.
pub fn statistics_are_honest()
    ensures { StatisticsAreHonest }
{}

/// Over columns whose least and greatest values are known and in order, the falsifier of a
/// predicate whose ANDs are apart is there, and true exactly if no values within them satisfy it.
pub fn falsifiers_are_complete()
    ensures { FalsifiersAreComplete }
{}

/// The binders of the parts' own statistics meet what a scan asks of its binders: they are
/// faithful, answer by those statistics and name no fault, and they are honest where the statistics
/// are true.
pub fn statistics_binders_are_honest<'a>()
    ensures faithful { (parts : List PartData)
        → AreFaithful ⟦<StatsBinder<'a> as StatBinder>⟧.is_faithful_over parts parts }
    ensures statistics { (parts : List PartData)
        → AreByStatistics ⟦<StatsBinder<'a> as StatBinder>⟧.value parts parts }
    ensures honest { (parts : List PartData) → AreParts parts → AllByRecursion IsTruePart parts
        → AreHonest ⟦<StatsBinder<'a> as StatBinder>⟧.value parts parts }
    ensures quiet { (parts : List PartData) (k : ℕ)
        → any_binder ⟦<StatsBinder<'a> as StatBinder>⟧.can_fault parts k ≡ false }
{}

/// Literals that a binder's author may answer: those of the type asked for, nullability aside, and
/// null, which is worth null.
pub fn literals_are_answers()
    ensures literals { LiteralsAreAnswers }
    ensures nulls { NullsAreAnswers }
{}

/// Sets that are true of the columns beside them stay so beside the columns that are chosen, as
/// pruning by zones of chosen columns asks of the rows that they tell of.
pub fn chosen_sets_stay_true()
    ensures { ChosenSetsStayTrue }
{}

/// Wherever the zones of a map are ranges of a chunk there are parts that are what stands in them:
/// the rows of each with its sets. So what `scan_ranges` promises of such parts is promised of
/// every chunk and map that it doesn't refuse for a mismatch; and so of `scan_ranges_from`.
pub fn ranges_are_there()
    ensures from_the_first { RangesAreThere }
    ensures from_a_row_on { RangesBehindAreThere }
{}

/// In a map of zones the row of each is true of whatever rows stand in the zone, where its
/// statistics are: so the clauses of `prune` on rows hold of zones too.
pub fn zones_have_true_rows()
    ensures { ZonesHaveTrueRows }
{}
