//! AND and OR chains, with what is said of one column in one place.
ghost use Rattle.std.specs.Prelude.{◌≡◌, ◌<◌, ◌++◌, ◌∷◌, [], IfSome, IsTrue, None, OnOk, length, map};
ghost use Rattle.vortex_expr.specs.Trees.Connectives.{is_and};
ghost use Rattle.vortex_rewrite.specs.Answers.{Makes, OkOrMemory};
ghost use Rattle.vortex_rewrite.specs.Rewriting.Predicates.{is_predicate};
ghost use Rattle.vortex_normal.specs.Chains.{IsIndexOf, item_at};
ghost use Rattle.vortex_normal.specs.Groups as spec;
ghost use Rattle.vortex_normal.specs.Intervals.{interval_of, place_at, set_of};
ghost use Rattle.vortex_normal.specs.declared.groups.Item.TheVariants as kept;
ghost use Rattle.vortex_normal.specs.Groups.{item_fits, item_of, items_fit};
ghost use Rattle.vortex_normal.specs.Separate.{are_of_separate, is_of_separate};

use crate::balanced::balanced;
use crate::interval::{Cut, Interval, comparison_set, one, swapped};
use crate::leaves::connected;
use crate::range_predicate::values_test;
use crate::ranges::combined;
use std::alloc::Global;
use std::collections::BTreeMap;
use vortex_base::dtype::DType;
use vortex_base::scalar::Scalar;
use vortex_expr::bound_expression::BoundExpression;
use vortex_expr::bound_expression::parts::Parts;
use vortex_expr::scalar_fn::{Connective, Operator};
use vortex_rewrite::predicate::Predicate;
use vortex_stats::error::StatsError;

/// The column at a place, of a type, is null where that counts, or has a value in sets that the
/// chain's connective combines: at its end, all at once.
#[derive(Drop)]
pub(crate) struct Values<'a> {
    place: usize,
    dtype: DType,
    with_null: bool,
    sets: Vec<Vec<Interval<'a>>>,
}

/// One predicate of a chain.
#[derive(Drop)]
pub(crate) enum Item<'a> {
    /// The values that a column is said to have.
    Inside(Values<'a>),
    /// Any other.
    Other(Predicate),
}

// The predicate that what is said of a column is.
fn said_test(
    alloc: Global,
    connective: Connective,
    said: Values<'_>,
) -> Result<Predicate, StatsError>
    requires fits { IsTrue (item_fits (item_of (kept.Inside said))) }
    requires separate { IsTrue (is_of_separate (item_of (kept.Inside said))) }
    ensures { Makes (spec.item_test (is_and connective) (item_of (kept.Inside said.entry))) result }
{
    let Values {
        place,
        dtype,
        with_null,
        sets,
    } = said;
    let set = combined(alloc, connective, sets)?;
    values_test(alloc, place, dtype, with_null, &set)
}

// The predicate that an item is.
fn item_test(alloc: Global, connective: Connective, item: Item<'_>) -> Result<Predicate, StatsError>
    requires fits { IsTrue (item_fits (item_of item)) }
    requires separate { IsTrue (is_of_separate (item_of item)) }
    ensures { Makes (spec.item_test (is_and connective) (item_of item.entry)) result }
{
    match item {
        Item::Inside(said) => said_test(alloc, connective, said),
        Item::Other(predicate) => Ok(predicate),
    }
}

// The predicates that items are.
fn item_tests(
    alloc: Global,
    connective: Connective,
    items: Vec<Item<'_>>,
) -> Result<Vec<Predicate>, StatsError>
    requires fit { IsTrue (items_fit (map item_of items.items)) }
    requires separate { IsTrue (are_of_separate (map item_of items.items)) }
    ensures { OkOrMemory result (λ tests. tests.items
        ≡ map (spec.item_test (is_and connective)) (map item_of items.entry.items)) }
{
    let mut tests = Vec::new(alloc);
    for item in items {
        let test = item_test(alloc, connective, item)?;
        tests.push(test)?;
    }
    Ok(tests)
}

// The predicate that items make up, joined by AND or by OR.
fn items_test(
    alloc: Global,
    connective: Connective,
    items: Vec<Item<'_>>,
) -> Result<Predicate, StatsError>
    requires fit { IsTrue (items_fit (map item_of items.items)) }
    requires separate { IsTrue (are_of_separate (map item_of items.items)) }
    ensures { Makes (spec.items_test (is_and connective) (map item_of items.entry.items)) result }
{
    let tests = item_tests(alloc, connective, items)?;
    let joined = balanced(alloc, connective, tests)?;
    let truth = Predicate::truth(alloc, connective.unit())?;
    connected(alloc, connective, joined, truth)
}

fn other<'a>(e: &BoundExpression) -> Result<Item<'a>, StatsError>
    requires { IsTrue (is_predicate e.now) }
    ensures { OkOrMemory result (λ item. item_of item ≡ spec.other e.now) }
{
    Ok(Item::Other(Predicate::copied(e)?))
}

fn inside<'a>(
    alloc: Global,
    place: usize,
    dtype: DType,
    with_null: bool,
    set: Vec<Interval<'a>>,
) -> Result<Item<'a>, StatsError>
    ensures { OkOrMemory result (λ item. item_of item
        ≡ spec.inside (place_at place dtype) with_null (map interval_of set.entry.items ∷ [])) }
{
    let mut sets = Vec::new(alloc);
    sets.push(set)?;
    Ok(Item::Inside(Values {
        place,
        dtype,
        with_null,
        sets,
    }))
}

// A comparison of a column with a literal; `e` is the whole.
fn compared_item<'a>(
    alloc: Global,
    operator: Operator,
    place: usize,
    dtype: DType,
    literal: &'a Scalar,
    e: &'a BoundExpression,
) -> Result<Item<'a>, StatsError>
    requires { IsTrue (is_predicate e.now) }
    ensures { let column = place_at place dtype in OkOrMemory result
        (λ item. item_of item ≡ spec.compared_item operator column literal.now.value e.now) }
{
    match operator {
        Operator::And | Operator::Or => other(e),
        _ => match literal.value() {
            None => other(e),
            Some(value) => {
                let set = comparison_set(alloc, operator, value)?;
                inside(alloc, place, dtype, false, set)
            }
        },
    }
}

fn leaf_item<'a>(alloc: Global, e: &'a BoundExpression) -> Result<Item<'a>, StatsError>
    requires { IsTrue (is_predicate e.now) }
    ensures { OkOrMemory result (λ item. item_of item ≡ spec.leaf_item e.now) }
{
    match e.parts() {
        Parts::Binary(operator, left, right) => match (left.parts(), right.parts()) {
            (Parts::Column(place, dtype), Parts::Literal(literal)) => {
                compared_item(alloc, operator, place, dtype, literal, e)
            }
            (Parts::Literal(literal), Parts::Column(place, dtype)) => {
                compared_item(alloc, swapped(operator), place, dtype, literal, e)
            }
            _ => other(e),
        },
        Parts::IsNull(x) => match x.parts() {
            Parts::Column(place, dtype) => inside(alloc, place, dtype, true, Vec::new(alloc)),
            _ => other(e),
        },
        Parts::IsNotNull(x) => match x.parts() {
            Parts::Column(place, dtype) => {
                let all = one(alloc, Cut::Lowest, Cut::Highest)?;
                inside(alloc, place, dtype, false, all)
            }
            _ => other(e),
        },
        _ => other(e),
    }
}

impl<'a> Item<'a> {
    // Whether this says something of the column at a place, of a type.
    fn is_of(&self, place: usize, dtype: DType) -> bool
        ensures { result ≡ spec.is_of (place_at place dtype) (item_of self.now) }
    {
        match self {
            Item::Inside(said) => place == said.place && dtype == said.dtype,
            Item::Other(_) => false,
        }
    }
}

// Joins to an item what is said of the same column.
fn widen<'a>(
    connective: Connective,
    said: Values<'a>,
    item: &mut Item<'a>,
) -> Result<(), StatsError>
    ensures { OkOrMemory result (λ _. item_of item.new
        ≡ spec.widened (is_and connective) said.entry.with_null
        (map set_of said.entry.sets.items) (item_of item.old)) }
{
    match item {
        Item::Inside(here) => {
            here.with_null = match connective {
                Connective::And => said.with_null && here.with_null,
                Connective::Or => said.with_null || here.with_null,
            };
            let mut sets = said.sets;
            here.sets.append(&mut sets)?;
            Ok(())
        }
        Item::Other(_) => Ok(()),
    }
}

fn place_of(items: &[Item<'_>], place: usize, dtype: DType) -> Option<usize>
    ensures value { result
        ≡ item_at (place_at place dtype) items.now }
    ensures in_range { IfSome result (λ i. i < length items.now) }
{
    items.iter().position(|item| item.is_of(place, dtype))
}

// The items of a chain, and by the places of columns which of them speak of those.
#[derive(Drop)]
struct Chain<'a> {
    items: Vec<Item<'a>>,
    places: BTreeMap<usize, usize>,
}

impl<'a> Chain<'a> {
    fn new(alloc: Global) -> Chain<'a>
        ensures items { result.items.items ≡ [] }
        ensures index { IsIndexOf result.items.items result.places }
    {
        Chain {
            items: Vec::new(alloc),
            places: BTreeMap::new(alloc),
        }
    }

    // The item of a column: none is passed by, save where a place has columns of several types.
    fn find(&self, place: usize, dtype: DType) -> Option<usize>
        requires { IsIndexOf self.now.items.items self.now.places }
        ensures value { result ≡ item_at (place_at place dtype) self.now.items.items }
        ensures in_range { IfSome result (λ i. i < length self.now.items.items) }
    {
        match self.places.get(&place).copied() {
            None => None,
            Some(found) => {
                if self.items[found].is_of(place, dtype) {
                    Some(found)
                } else {
                    place_of(&self.items, place, dtype)
                }
            }
        }
    }

    // Puts an item of a column that had none behind the others.
    fn push_said(&mut self, said: Values<'a>) -> Result<(), StatsError>
        requires absent { item_at (place_at said.place said.dtype) self.old.items.items ≡ None }
        requires index { IsIndexOf self.old.items.items self.old.places }
        ensures items { OkOrMemory result (λ _. self.new.items.items
            ≡ self.old.items.items ++ kept.Inside said.entry ∷ []) }
        ensures index { OnOk result (IsIndexOf self.new.items.items self.new.places) }
    {
        let place = said.place;
        let behind = self.items.len();
        self.places.insert(place, behind)?;
        self.items.push(Item::Inside(said))?;
        Ok(())
    }

    // Joins to the items what sets say of a column.
    fn add_sets(&mut self, connective: Connective, said: Values<'a>) -> Result<(), StatsError>
        requires index { IsIndexOf self.old.items.items self.old.places }
        ensures items { OkOrMemory result (λ _. map item_of self.new.items.items
            ≡ spec.add_sets (is_and connective) (place_at said.entry.place said.entry.dtype)
            said.entry.with_null (map set_of said.entry.sets.items)
            (map item_of self.old.items.items)) }
        ensures index { OnOk result (IsIndexOf self.new.items.items self.new.places) }
    {
        let place = said.place;
        let dtype = said.dtype;
        match self.find(place, dtype) {
            Some(found) => {
                widen(connective, said, &mut self.items[found])?;
                Ok(())
            }
            None => {
                self.push_said(said)?;
                Ok(())
            }
        }
    }

    fn add(&mut self, connective: Connective, item: Item<'a>) -> Result<(), StatsError>
        requires index { IsIndexOf self.old.items.items self.old.places }
        ensures items { OkOrMemory result (λ _. map item_of self.new.items.items
            ≡ spec.add (is_and connective) (item_of item.entry)
            (map item_of self.old.items.items)) }
        ensures index { OnOk result (IsIndexOf self.new.items.items self.new.places) }
    {
        match item {
            Item::Inside(said) => self.add_sets(connective, said),
            Item::Other(predicate) => {
                self.items.push(Item::Other(predicate))?;
                Ok(())
            }
        }
    }
}

// Says by one set of a column all that the sets of a chain say.
fn said_once<'a>(
    alloc: Global,
    connective: Connective,
    said: Values<'a>,
) -> Result<Item<'a>, StatsError>
    requires { IsTrue (is_of_separate (item_of (kept.Inside said))) }
    ensures { OkOrMemory result (λ item. item_of item
        ≡ spec.lone_item (is_and connective) (item_of (kept.Inside said.entry))) }
{
    let Values {
        place,
        dtype,
        with_null,
        sets,
    } = said;
    let set = combined(alloc, connective, sets)?;
    inside(alloc, place, dtype, with_null, set)
}

// The only item of a chain as one of another.
fn lone_item<'a>(
    alloc: Global,
    connective: Connective,
    item: Item<'a>,
) -> Result<Item<'a>, StatsError>
    requires { IsTrue (is_of_separate (item_of item)) }
    ensures { OkOrMemory result
        (λ lone. item_of lone ≡ spec.lone_item (is_and connective) (item_of item.entry)) }
{
    match item {
        Item::Inside(said) => said_once(alloc, connective, said),
        Item::Other(predicate) => Ok(Item::Other(predicate)),
    }
}

// The items of a whole chain as one of another.
fn as_one<'a>(
    alloc: Global,
    connective: Connective,
    chain: Chain<'a>,
) -> Result<Item<'a>, StatsError>
    requires fit { IsTrue (items_fit (map item_of chain.items.items)) }
    requires separate { IsTrue (are_of_separate (map item_of chain.items.items)) }
    ensures { OkOrMemory result (λ item. item_of item
        ≡ spec.as_one (is_and connective) (map item_of chain.entry.items.items)) }
{
    let Chain { mut items, .. } = chain;
    if items.len() == 1 {
        if let Some(only) = items.pop() {
            return lone_item(alloc, connective, only);
        }
    }
    Ok(Item::Other(items_test(alloc, connective, items)?))
}

// Joins a predicate to the items of a chain.
fn collect<'a>(
    alloc: Global,
    connective: Connective,
    e: &'a BoundExpression,
    chain: &mut Chain<'a>,
) -> Result<(), StatsError>
    requires predicate { IsTrue (is_predicate e.now) }
    requires index { IsIndexOf chain.old.items.items chain.old.places }
    ensures items { OkOrMemory result (λ _. map item_of chain.new.items.items
        ≡ spec.collected (is_and connective) e.now (map item_of chain.old.items.items)) }
    ensures index { OnOk result (IsIndexOf chain.new.items.items chain.new.places) }
{
    match e.parts() {
        Parts::Binary(Operator::And, left, right) => match connective {
            Connective::And => {
                collect(alloc, Connective::And, left, chain)?;
                collect(alloc, Connective::And, right, chain)
            }
            Connective::Or => {
                let mut inner = Chain::new(alloc);
                collect(alloc, Connective::And, left, &mut inner)?;
                collect(alloc, Connective::And, right, &mut inner)?;
                chain.add(Connective::Or, as_one(alloc, Connective::And, inner)?)
            }
        },
        Parts::Binary(Operator::Or, left, right) => match connective {
            Connective::And => {
                let mut inner = Chain::new(alloc);
                collect(alloc, Connective::Or, left, &mut inner)?;
                collect(alloc, Connective::Or, right, &mut inner)?;
                chain.add(Connective::And, as_one(alloc, Connective::Or, inner)?)
            }
            Connective::Or => {
                collect(alloc, Connective::Or, left, chain)?;
                collect(alloc, Connective::Or, right, chain)
            }
        },
        _ => {
            let item = leaf_item(alloc, e)?;
            chain.add(connective, item)
        }
    }
}

/// A predicate with what its AND and OR chains say of one column in one place.
pub(crate) fn grouped(alloc: Global, e: &BoundExpression) -> Result<Predicate, StatsError>
    requires { IsTrue (is_predicate e.now) }
    ensures { Makes (spec.grouped e.now) result }
{
    let mut chain = Chain::new(alloc);
    collect(alloc, Connective::And, e, &mut chain)?;
    let Chain { items, .. } = chain;
    items_test(alloc, Connective::And, items)
}
