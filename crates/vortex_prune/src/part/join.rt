//! Parts joined to one.
ghost use Rattle.std.specs.Prelude.{◌≡◌, ◌<◌, IfErr, IfOk, IsTrue, OnOk, length, slice_get, Some};
ghost use Rattle.std.specs.Bool.{MatchBool};
ghost use Rattle.vortex_base.specs.Data.Columns.{sizes_fit};
ghost use Rattle.vortex_prune.specs.Part.{IsPart, IsTruePart, joined};
ghost use Rattle.vortex_zone_map.specs.Zone.{merged_sets, Entries};
ghost use Rattle.vortex_stats.specs.Merging.Merges.{merged_ordered};
ghost use Rattle.vortex_stats.specs.declared.error.StatsError.TheVariants.{TooLarge};
ghost use Rattle.vortex_rewrite.specs.Answers.{IsMemory, OkOrMemory};

use crate::part::{JoinRefused, Part};
use std::alloc::{AllocError, Global};
use vortex_stats::error::StatsError;
use vortex_stats::stats_set::StatsSet;

// The set of one column of the joined part. The sets that it is made of stay as they are.
fn merged_set(left: &Part, right: &Part, i: usize) -> Result<StatsSet, StatsError>
    requires scope { left.now.chunk.scope ≡ right.now.chunk.scope }
    requires within { i < length left.now.chunk.scope }
    ensures merged { OkOrMemory result (λ set. (a b : Entries) → slice_get left.now.stats i ≡ Some a
        → slice_get right.now.stats i ≡ Some b → set ≡ merged_ordered a b) }
    ensures left_part { IsPart left.now }
    ensures right_part { IsPart right.now }
{
    let dtype = left.chunk().column(i).dtype();
    let other = right.stats(i);
    let set = left.stats(i).try_clone()?;
    match set.merge_ordered(other, &dtype) {
        Ok(set) => Ok(set),
        Err(refused) => Err(refused.error),
    }
}

// The sets of the joined part's columns.
fn merged_sets(alloc: Global, left: &Part, right: &Part) -> Result<Vec<StatsSet>, StatsError>
    requires { left.now.chunk.scope ≡ right.now.chunk.scope }
    ensures { OkOrMemory result (λ sets. sets.items ≡ merged_sets left.now.stats right.now.stats) }
{
    let mut sets = Vec::new(alloc);
    for i in 0..left.chunk().scope().len() {
        sets.push(merged_set(left, right, i)?)?;
    }
    Ok(sets)
}

impl Part {
    /// The rows of one part and then those of another of the same scope, as one part: its sets are
    /// merged in that order, and its declared sizes are added. `TooLarge` if two sizes of one
    /// column add up past `u64`, which is found before anything is taken, and else `Memory` if a
    /// growth or a clone is refused. The rows of the right part are copied behind those of the left
    /// one, which are copied too where their memory can't grow in place; a refusal hands both parts
    /// back as they were.
    pub fn join(alloc: Global, left: Part, right: Part) -> Result<Part, JoinRefused>
        requires { left.chunk.scope ≡ right.chunk.scope }
        ensures joined { IfOk result (λ part. part ≡ joined left right) }
        ensures sizes { OnOk result (IsTrue (sizes_fit left.chunk.columns right.chunk.columns)) }
        ensures error { IfErr result (λ refused.
            MatchBool (sizes_fit left.chunk.columns right.chunk.columns)
            (IsMemory refused.error) (refused.error ≡ TooLarge)) }
        ensures left_back { IfErr result (λ refused. refused.left ≡ left) }
        ensures right_back { IfErr result (λ refused. refused.right ≡ right) }

        // Where the statistics of both parts are true, so are those of the joined one.
        ensures truth { IfOk result (λ part. IsTruePart left → IsTruePart right → IsTruePart part) }
    {
        if !left.chunk.sizes_fit(&right.chunk) {
            let error = StatsError::TooLarge;
            return Err(JoinRefused { error, left, right });
        }
        let stats = match merged_sets(alloc, &left, &right) {
            Ok(stats) => stats,
            Err(error) => return Err(JoinRefused { error, left, right }),
        };
        append(left, right, stats)
    }
}

// The first part with the rows of the second behind its own, and these sets.
fn append(left: Part, right: Part, stats: Vec<StatsSet>) -> Result<Part, JoinRefused>
    requires scope { left.chunk.scope ≡ right.chunk.scope }
    requires sizes { IsTrue (sizes_fit left.chunk.columns right.chunk.columns) }
    requires stats { stats.items ≡ merged_sets left.stats right.stats }
    ensures joined { IfOk result (λ part. part ≡ joined left right) }
    ensures error { IfErr result (λ refused. IsMemory refused.error) }
    ensures left_back { IfErr result (λ refused. refused.left ≡ left) }
    ensures right_back { IfErr result (λ refused. refused.right ≡ right) }
{
    let Part {
        mut chunk,
        stats: left_stats,
    } = left;
    let Part {
        chunk: mut other,
        stats: right_stats,
    } = right;
    match chunk.append(&mut other) {
        Ok(()) => Ok(Part { chunk, stats }),
        Err(_) => Err(JoinRefused {
            error: StatsError::Memory(AllocError),
            left: Part {
                chunk,
                stats: left_stats,
            },
            right: Part {
                chunk: other,
                stats: right_stats,
            },
        }),
    }
}
