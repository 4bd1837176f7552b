//! The calls over columns, statistics and tables, under the names of the header.
ghost use Rattle.std.specs.Prelude.{◌≡◌, ◌≢◌, IfOk, length};
ghost use Rattle.vortex_capi.specs.Arrow as arrow;
ghost use Rattle.vortex_capi.specs.Checks as checks;
ghost use Rattle.vortex_capi.specs.Measures.{measured};
ghost use Rattle.vortex_capi.specs.Merges.{merged, together};
ghost use Rattle.vortex_capi.specs.Prunes as prunes;
ghost use Rattle.vortex_capi.specs.Slots.{IsTold};
ghost use Rattle.vortex_capi.specs.Values.{given_column};
ghost use Rattle.vortex_capi.specs.SqlCalls.SqlPrunes as sql_prunes;

use std::alloc::Global;
use vortex_capi::arrow::ArrowValues;
use vortex_capi::check::{check, check_arrow};
use vortex_capi::fault::Fault;
use vortex_capi::field::Field;
use vortex_capi::measure::{measure, measure_arrow};
use vortex_capi::merge::merge;
use vortex_capi::merge_zones::merge_zones;
use vortex_capi::prune::prune;
use vortex_capi::span::Span;
use vortex_capi::sql::prune_sql::prune_sql;
use vortex_capi::statistic::Statistic;
use vortex_capi::values::Values;

/// Whether a zone has as many rows as a column and each of its statistics is true of the column's
/// values, `vortex_check` of the header.
#[unsafe(no_mangle)]
pub extern "C" fn vortex_check(
    alloc: Global,
    column: &Values<'_>,
    rows: u64,
    stats: &[Statistic<'_>],
    zone: usize,
    fault: &mut Fault,
) -> u8
    // Each is true, or the first that isn't or that is refused is told.
    ensures { checks.IsTold (given_column column.now) rows zone stats.now result fault.new }
{
    check(alloc, column, rows, stats, zone, fault)
}

/// Checks whether a zone has as many rows as a column in Arrow's layout and each of its statistics
/// is true of the column's values, `vortex_check_arrow` of the header.
#[unsafe(no_mangle)]
pub extern "C" fn vortex_check_arrow(
    alloc: Global,
    column: &ArrowValues<'_>,
    rows: u64,
    stats: &[Statistic<'_>],
    zone: usize,
    fault: &mut Fault,
) -> u8
    // Each is true, or the first that isn't or that is refused is told.
    ensures { checks.IsTold (arrow.given_column column.now) rows zone stats.now result fault.new }
{
    check_arrow(alloc, column, rows, stats, zone, fault)
}

/// The statistics of a column of values, `vortex_measure` of the header: for each wanted number how
/// it is known, and its value's bytes.
#[unsafe(no_mangle)]
pub extern "C" fn vortex_measure(
    alloc: Global,
    column: &Values<'_>,
    stats: &[u8],
    known: &mut [u8],
    ends: &mut [u64],
    values: &mut [u8],
    len: &mut usize,
    fault: &mut Fault,
) -> u8
    // The statistics of the column's values stand in the arrays, or the arrays are as they were.
    ensures { IsTold (measured column.now stats.now)
        (record { known = known.old; ends = ends.old; values = values.old }) result
        (record { known = known.new; ends = ends.new; values = values.new }) len.new fault.new }
{
    measure(alloc, column, stats, known, ends, values, len, fault)
}

/// Measures a column of values in Arrow's layout, `vortex_measure_arrow` of the header: tells what
/// `vortex_measure` tells of the same column.
#[unsafe(no_mangle)]
pub extern "C" fn vortex_measure_arrow(
    alloc: Global,
    column: &ArrowValues<'_>,
    stats: &[u8],
    known: &mut [u8],
    ends: &mut [u64],
    values: &mut [u8],
    len: &mut usize,
    fault: &mut Fault,
) -> u8
    // The statistics of the column's values stand in the arrays, or the arrays are as they were.
    ensures { IsTold (arrow.measured column.now stats.now)
        (record { known = known.old; ends = ends.old; values = values.old }) result
        (record { known = known.new; ends = ends.new; values = values.new }) len.new fault.new }
{
    measure_arrow(alloc, column, stats, known, ends, values, len, fault)
}

/// The statistics of chunks, each a chunk of the left table followed by that of the right one in
/// the same zone, `vortex_merge` of the header.
#[unsafe(no_mangle)]
pub extern "C" fn vortex_merge(
    alloc: Global,
    kind: u8,
    nullable: u8,
    zones: usize,
    left: &[Statistic<'_>],
    right: &[Statistic<'_>],
    known: &mut [u8],
    ends: &mut [u64],
    values: &mut [u8],
    len: &mut usize,
    fault: &mut Fault,
) -> u8
    // The merged statistics stand in the arrays, or the arrays are as they were.
    ensures { IsTold (merged kind nullable zones left.now right.now)
        (record { known = known.old; ends = ends.old; values = values.old }) result
        (record { known = known.new; ends = ends.new; values = values.new }) len.new fault.new }
{
    merge(
        alloc, kind, nullable, zones, left, right, known, ends, values, len, fault,
    )
}

/// The statistics of a table's zones, one behind the other, as those of one chunk,
/// `vortex_merge_zones` of the header.
#[unsafe(no_mangle)]
pub extern "C" fn vortex_merge_zones(
    alloc: Global,
    kind: u8,
    nullable: u8,
    zones: usize,
    stats: &[Statistic<'_>],
    known: &mut [u8],
    ends: &mut [u64],
    values: &mut [u8],
    len: &mut usize,
    fault: &mut Fault,
) -> u8
    // The statistics of all zones stand in the arrays, or the arrays are as they were.
    ensures { IsTold (together kind nullable zones stats.now)
        (record { known = known.old; ends = ends.old; values = values.old }) result
        (record { known = known.new; ends = ends.new; values = values.new }) len.new fault.new }
{
    merge_zones(
        alloc, kind, nullable, zones, stats, known, ends, values, len, fault,
    )
}

/// Answers for each zone of a table under a predicate, as `vortex_prune` of the header.
#[unsafe(no_mangle)]
pub extern "C" fn vortex_prune(
    alloc: Global,
    scope: &[Field<'_>],
    rows: &[u64],
    stats: &[Statistic<'_>],
    predicate: &[u8],
    flags: u8,
    answers: &mut [u8],
    fault: &mut Fault,
) -> u8
    // The answer that the statistics of each zone prove, or the arrays are as they were.
    ensures answers { let asked =
        prunes.asked scope.now rows.now stats.now predicate.now flags (length answers.old) in
        prunes.IsPruned asked answers.old result answers.new fault.new }
    // A place is told where the call is refused.
    ensures told { result ≡ 0 → fault.new ≡ fault.old }
    // Whatever rows a zone holds, if its statistics are true of them: of a skipped zone none
    // satisfies the predicate as it was given, and of a whole one each does.
    ensures sound { let asked =
        prunes.asked scope.now rows.now stats.now predicate.now flags (length answers.old) in
        result ≡ 0 → IfOk asked (prunes.IsSound answers.new) }
    // Each zone is skipped that the predicate's own falsifier by built-in rules skips, or that of
    // its normal form, and each that their satisfiers find whole is whole or skipped.
    ensures no_fewer { let asked =
        prunes.asked scope.now rows.now stats.now predicate.now flags (length answers.old) in
        result ≡ 0 → IfOk asked (prunes.IsNoFewer answers.new) }
    // A zone is skipped if no values within its bounds satisfy the predicate as it was given, where
    // its ANDs are apart or those of its normal form.
    ensures complete { let asked =
        prunes.asked scope.now rows.now stats.now predicate.now flags (length answers.old) in
        result ≡ 0 → IfOk asked (prunes.IsComplete answers.new) }
{
    prune(alloc, scope, rows, stats, predicate, flags, answers, fault)
}

/// Answers for each zone of a table under a condition in SQL, and tells which tests of it aren't
/// read: `vortex_prune_sql` of the header.
#[unsafe(no_mangle)]
pub extern "C" fn vortex_prune_sql(
    alloc: Global,
    scope: &[Field<'_>],
    rows: &[u64],
    stats: &[Statistic<'_>],
    text: &[u8],
    flags: u8,
    answers: &mut [u8],
    unread: &mut [Span],
    len: &mut usize,
    fault: &mut Fault,
) -> u8
    // Of an answer: the text is a condition over the columns. The arrays have the answer for each
    // zone that its proofs give, and where each leaf stands that isn't read. Whatever rows a zone
    // holds, if its statistics are true of them, and whatever those leaves mean: of a skipped zone
    // none satisfies the condition, and of a whole one each does.
    ensures answered { result ≡ 0
        → sql_prunes.AreAnswered scope.now rows.now stats.now text.now flags
        (record { answers = answers.old; unread = unread.old })
        (record { answers = answers.new; unread = unread.new }) len.new }
    // Of a refusal the arrays are as they were.
    ensures answers { result ≢ 0 → answers.new ≡ answers.old }
    ensures unread { result ≢ 0 → unread.new ≡ unread.old }
    // How many leaves aren't read is told of an answer, and where the room for them is too little.
    ensures counted { result ≢ 0 → result ≢ 3 → len.new ≡ len.old }
    // A place is told where the call is refused.
    ensures told { result ≡ 0 → fault.new ≡ fault.old }
    // A refusal other than for memory has its cause, the first of several.
    ensures refused { result ≢ 0 → result ≢ 4 → sql_prunes.IsRefusedFor
        (sql_prunes.columns_asked scope.now rows.now flags (length answers.old)) rows.now stats.now
        text.now (length unread.old) result len.new fault.new }
{
    prune_sql(
        alloc, scope, rows, stats, text, flags, answers, unread, len, fault,
    )
}
