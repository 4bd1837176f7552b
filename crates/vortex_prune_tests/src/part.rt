//! Parts of numbers and texts that are joined, taken apart and refused.
ghost use Rattle.std.specs.Bool.{OnTrue};
ghost use Rattle.std.specs.Prelude.{◌≡◌};

use std::alloc::{AllocError, Global};
use std::test::Fail;
use vortex_base::{Chunk, PValue, ScalarValue, ValueRef};
use vortex_prune::{JoinRefused, Part};
use vortex_stats::{Precision, Stat, StatsError, StatsSet};
use vortex_testing::nodes::*;
use vortex_testing::parts::*;

mod measured;

type Made = Result<Part, StatsError>;

type Joined = Result<Part, JoinRefused>;

// A part of numbers of this declared size, beside texts of which the bounds are known.
fn part(alloc: Global, rows: &[Option<i32>], size: u64, known: Sets, words: (&str, &str)) -> Made {
    let scope = scope_of_two(alloc, ("n", I32_OR_NULL), ("t", UTF8));
    let first = column(I32_OR_NULL, numbers(alloc, rows), size);
    let second = column(UTF8, texts(alloc, &[words.0, words.1]), 7);
    let chunk = chunk_of_two(alloc, scope, first, second);
    part_of_two(alloc, chunk, known, text_bounds(alloc, words.0, words.1))
}

// The numbers 1 and 10, which lie from 1 to 10.
fn first(alloc: Global, size: u64) -> Made {
    let known = bounds(alloc, 1, 10);
    part(alloc, &[Some(1), Some(10)], size, known, ("pear", "quince"))
}

// The number 8 and null, of which the greatest is at most 25.
fn second(alloc: Global, size: u64) -> Made {
    let known = bounds(alloc, 8, 25);
    part(alloc, &[Some(8), None], size, known, ("apple", "fig"))
}

fn have_one_scope(left: &Part, right: &Part) -> bool
    ensures { OnTrue result (left.now.chunk.scope ≡ right.now.chunk.scope) }
{
    *left.chunk().scope() == *right.chunk().scope()
}

// The join of two parts, if their scopes are the same.
fn join(alloc: Global, left: Part, right: Part) -> Joined {
    if !have_one_scope(&left, &right) {
        let error = StatsError::Mismatch;
        return Err(JoinRefused { error, left, right });
    }
    Part::join(alloc, left, right)
}

fn joined(alloc: Global, left: Made, right: Made) -> Result<Joined, StatsError> {
    Ok(join(alloc, left?, right?))
}

// A statistic of the column at a place.
fn statistic(part: &Part, place: usize, stat: Stat) -> Result<Precision<ScalarValue>, StatsError> {
    if place >= part.chunk().scope().len() {
        return Ok(Precision::Absent);
    }
    part.stats(place).get(stat)
}

// The declared size of the first column.
fn size(part: &Part) -> u64 {
    if part.chunk().scope().len() == 0 {
        return 0;
    }
    part.chunk().column(0).size()
}

// The number of a row, `None` being null.
fn number_at(part: &Part, i: usize) -> Option<i32> {
    if i >= part.chunk().rows() {
        return None;
    }
    match part.chunk().row(i).value(0) {
        Some(ValueRef::Primitive(PValue::I32(n))) => Some(n),
        _ => None,
    }
}

// Whether the numbers lie from 1 to at most 25.
fn are_numbers_joined(part: &Part) -> Result<bool, StatsError> {
    Ok(
        statistic(part, 0, Stat::Min)? == Precision::Exact(number(1))
            && statistic(part, 0, Stat::Max)? == Precision::Inexact(number(25)),
    )
}

// Whether the texts lie from `apple` to `quince`.
fn are_texts_joined(alloc: Global, part: &Part) -> Result<bool, StatsError> {
    let (least, greatest) = (text_value(alloc, "apple")?, text_value(alloc, "quince")?);
    Ok(
        statistic(part, 1, Stat::Min)? == Precision::Exact(least)
            && statistic(part, 1, Stat::Max)? == Precision::Exact(greatest),
    )
}

// Whether the part has the rows of both, their sizes and the merge of their statistics.
fn is_joined(alloc: Global, part: &Part) -> Result<bool, StatsError> {
    let numbers = [
        number_at(part, 0),
        number_at(part, 1),
        number_at(part, 2),
        number_at(part, 3),
    ];
    Ok(
        part.chunk().rows() == 4
            && numbers == [Some(1), Some(10), Some(8), None]
            && size(part) == 40
            && are_numbers_joined(part)?
            && are_texts_joined(alloc, part)?,
    )
}

#[test]
fn parts_are_joined(rt: HostRuntime) {
    let alloc = rt.alloc();
    let joined = joined(alloc, first(alloc, 24), second(alloc, 16)).expect(&rt, "parts");
    let part = joined.expect(&rt, "a part");
    assert!(rt; is_joined(alloc, &part).expect(&rt, "an answer"));
}

#[test]
fn sizes_past_their_type_are_not_joined(rt: HostRuntime) {
    let alloc = rt.alloc();
    let joined = joined(alloc, first(alloc, u64::MAX), second(alloc, 1)).expect(&rt, "parts");
    let refused = joined.expect_err(&rt, "a refusal");
    assert!(rt; matches!(refused.error, StatsError::TooLarge));
}

fn together((chunk, sets): (Chunk, Vec<StatsSet>)) -> Made {
    match new_part(chunk, sets) {
        Ok(part) => Ok(part),
        Err(refused) => Err(refused.error),
    }
}

// The part of the chunk and the sets that a part came apart into.
fn made_again(part: Made) -> Made {
    together(part?.into_inner())
}

fn printed_two(alloc: Global, left: &Part, right: &Part) -> Result<String, StatsError> {
    Ok(format!(in alloc; "{left:?} and {right:?}")?)
}

fn printed_parts(alloc: Global, left: Part, right: Part) -> Result<String, StatsError> {
    printed_two(alloc, &left, &right)
}

// How two parts look.
fn looks(alloc: Global, left: Made, right: Made) -> Result<String, StatsError> {
    printed_parts(alloc, left?, right?)
}

#[test]
fn parts_come_apart_into_what_makes_them(rt: HostRuntime) {
    let alloc = rt.alloc();
    let given = looks(alloc, first(alloc, 3), second(alloc, 4)).expect(&rt, "a text");
    let (left, right) = (made_again(first(alloc, 3)), made_again(second(alloc, 4)));
    assert!(rt; looks(alloc, left, right).expect(&rt, "a text") == given);
}

fn hands_back(alloc: Global, refused: &JoinRefused, looks: &str) -> Result<bool, StatsError> {
    let back = printed_two(alloc, &refused.left, &refused.right)?;
    Ok(is_memory(&refused.error) && back.as_str() == looks)
}

fn joins_or_hands_back(alloc: Global, joined: &Joined, looks: &str) -> Result<bool, StatsError> {
    match joined {
        Ok(part) => is_joined(alloc, part),
        Err(refused) => hands_back(alloc, refused, looks),
    }
}

// Where a request for memory within the join is refused, both parts come back as they were.
#[test]
fn refused_joins_hand_back(rt: HostRuntime) -> Result<(), Fail> {
    let alloc = rt.alloc();
    // What they are compared with is made before the join, so a refusal of its own ends the test.
    let looks = looks(alloc, first(alloc, 24), second(alloc, 16))?;
    let joined = joined(alloc, first(alloc, 24), second(alloc, 16))?;
    assert!(rt; joins_or_hands_back(alloc, &joined, looks.as_str())?);
    Ok(())
}
