//! Intervals of values, by the cuts between values that bound them.
ghost use Rattle.std.specs.Prelude.{◌≡◌, ◌++◌, ◌∷◌, [], map, not};
ghost use Rattle.std.specs.List.{flat_map};
ghost use Rattle.std.specs.Ordering.{is_lt};
ghost use Rattle.vortex_expr.specs.Trees.Connectives.{is_and};
ghost use Rattle.vortex_rewrite.specs.Answers.{OkOrMemory};
ghost use Rattle.vortex_normal.specs.Intervals as spec;
ghost use Rattle.vortex_normal.specs.Intervals.{cut_of, interval_of, set_of};
ghost use Rattle.vortex_normal.specs.Separate.{hull, lower};

use std::alloc::Global;
use std::cmp::Ordering;
use vortex_base::scalar_value::ScalarValue;
use vortex_expr::scalar_fn::{Connective, Operator};
use vortex_stats::error::StatsError;

/// A place between values, in their order; the values are lent by the predicate that names them.
#[derive(Clone, Copy)]
pub(crate) enum Cut<'a> {
    /// Below all values.
    Lowest,
    /// Just below a value.
    Before(&'a ScalarValue),
    /// Just above a value.
    After(&'a ScalarValue),
    /// Above all values.
    Highest,
}

/// The values above one cut and not above another.
#[derive(Clone, Copy)]
pub(crate) struct Interval<'a> {
    pub(crate) low: Cut<'a>,
    pub(crate) high: Cut<'a>,
}

pub(crate) fn is_at_most(a: &ScalarValue, b: &ScalarValue) -> bool
    ensures { result ≡ spec.at_most a.now b.now }
{
    !a.cmp(b).is_gt()
}

impl<'a> Cut<'a> {
    // Whether this cut is at most the other.
    pub(crate) fn is_at_most(self, other: Cut<'a>) -> bool
        ensures { result ≡ spec.cut_le (cut_of self.entry) (cut_of other.entry) }
    {
        match (self, other) {
            (Cut::Lowest, _) | (_, Cut::Highest) => true,
            (Cut::Highest, _) | (_, Cut::Lowest) => false,
            (Cut::After(a), Cut::Before(b)) => !is_at_most(b, a),
            (Cut::Before(a), Cut::Before(b)) => is_at_most(a, b),
            (Cut::Before(a), Cut::After(b)) => is_at_most(a, b),
            (Cut::After(a), Cut::After(b)) => is_at_most(a, b),
        }
    }

    fn lower(self, other: Cut<'a>) -> Cut<'a>
        ensures { cut_of result ≡ lower (cut_of self.entry) (cut_of other.entry) }
    {
        if self.is_at_most(other) { self } else { other }
    }

    fn higher(self, other: Cut<'a>) -> Cut<'a>
        ensures { cut_of result ≡ spec.higher (cut_of self.entry) (cut_of other.entry) }
    {
        if self.is_at_most(other) { other } else { self }
    }

    // The order of two cuts.
    fn order(self, other: Cut<'a>) -> Ordering
        ensures { is_lt result ≡ not (spec.cut_le (cut_of other.entry) (cut_of self.entry)) }
    {
        if !other.is_at_most(self) {
            Ordering::Less
        } else if self.is_at_most(other) {
            Ordering::Equal
        } else {
            Ordering::Greater
        }
    }
}

impl<'a> Interval<'a> {
    fn is_empty(self) -> bool
        ensures { result ≡ spec.is_empty (interval_of self.entry) }
    {
        self.high.is_at_most(self.low)
    }

    // From the lower beginning of two intervals to the higher end.
    pub(crate) fn hull(self, other: Interval<'a>) -> Interval<'a>
        ensures { interval_of result ≡ hull (interval_of self.entry) (interval_of other.entry) }
    {
        Interval {
            low: self.low.lower(other.low),
            high: self.high.higher(other.high),
        }
    }
}

// Puts intervals in the order of their low cuts.
fn sort(set: &mut Vec<Interval<'_>>) -> Result<(), StatsError>
    ensures { OkOrMemory result (λ _. map interval_of set.new.items
        ≡ spec.sorted (map interval_of set.old.items)) }
{
    set.sort_by(|a, b| a.low.order(b.low))?;
    Ok(())
}

// Appends the values between two cuts, if there are any.
pub(crate) fn push_between<'a>(
    low: Cut<'a>,
    high: Cut<'a>,
    out: &mut Vec<Interval<'a>>,
) -> Result<(), StatsError>
    ensures { OkOrMemory result (λ _. map interval_of out.new.items ≡ map interval_of out.old.items
        ++ spec.unless_empty (spec.interval (cut_of low.entry) (cut_of high.entry)) []) }
{
    let between = Interval { low, high };
    if !between.is_empty() {
        out.push(between)?;
    }
    Ok(())
}

// Appends the values that are in none of some intervals in the order of their low cuts.
fn push_left_out<'a>(set: &[Interval<'a>], out: &mut Vec<Interval<'a>>) -> Result<(), StatsError>
    ensures { OkOrMemory result (λ _. map interval_of out.new.items ≡ map interval_of out.old.items
        ++ spec.left_out spec.Lowest (map interval_of set.now)) }
{
    let mut low = Cut::Lowest;
    for interval in set {
        push_between(low, interval.low, out)?;
        low = low.higher(interval.high);
    }
    push_between(low, Cut::Highest, out)
}

// Appends the values that are not in a set.
fn push_complement<'a>(
    set: Vec<Interval<'a>>,
    out: &mut Vec<Interval<'a>>,
) -> Result<(), StatsError>
    ensures { OkOrMemory result (λ _. map interval_of out.new.items ≡ map interval_of out.old.items
        ++ spec.complement (map interval_of set.entry.items)) }
{
    let mut set = set;
    sort(&mut set)?;
    push_left_out(&set, out)
}

fn complement<'a>(alloc: Global, set: Vec<Interval<'a>>) -> Result<Vec<Interval<'a>>, StatsError>
    ensures { OkOrMemory result (λ rest. map interval_of rest.items
        ≡ spec.complement (map interval_of set.entry.items)) }
{
    let mut rest = Vec::new(alloc);
    push_complement(set, &mut rest)?;
    Ok(rest)
}

// Appends a set's share of what the sets of an AND or OR say.
pub(crate) fn push_share<'a>(
    connective: Connective,
    set: Vec<Interval<'a>>,
    out: &mut Vec<Interval<'a>>,
) -> Result<(), StatsError>
    ensures { OkOrMemory result (λ _. map interval_of out.new.items ≡ map interval_of out.old.items
        ++ spec.share (is_and connective) (map interval_of set.entry.items)) }
{
    match connective {
        Connective::And => push_complement(set, out),
        Connective::Or => {
            let mut set = set;
            out.append(&mut set)?;
            Ok(())
        }
    }
}

// The shares of all sets, one after another.
fn shares<'a>(
    alloc: Global,
    connective: Connective,
    sets: Vec<Vec<Interval<'a>>>,
) -> Result<Vec<Interval<'a>>, StatsError>
    ensures { OkOrMemory result (λ out. map interval_of out.items
        ≡ flat_map (spec.share (is_and connective)) (map set_of sets.entry.items)) }
{
    let mut out = Vec::new(alloc);
    for set in sets {
        push_share(connective, set, &mut out)?;
    }
    Ok(out)
}

/// The values in all of some sets, or in any: in time that is linear but for sorting.
pub(crate) fn merged<'a>(
    alloc: Global,
    connective: Connective,
    sets: Vec<Vec<Interval<'a>>>,
) -> Result<Vec<Interval<'a>>, StatsError>
    ensures { OkOrMemory result (λ set. map interval_of set.items
        ≡ spec.combined (is_and connective) (map set_of sets.entry.items)) }
{
    let mut sets = sets;
    if sets.len() == 1 {
        if let Some(only) = sets.pop() {
            return Ok(only);
        }
    }
    let shares = shares(alloc, connective, sets)?;
    let rest = complement(alloc, shares)?;
    match connective {
        Connective::And => Ok(rest),
        Connective::Or => complement(alloc, rest),
    }
}

/// The values between two cuts.
pub(crate) fn one<'a>(
    alloc: Global,
    low: Cut<'a>,
    high: Cut<'a>,
) -> Result<Vec<Interval<'a>>, StatsError>
    ensures { OkOrMemory result
        (λ set. map interval_of set.items
        ≡ spec.interval (cut_of low.entry) (cut_of high.entry) ∷ []) }
{
    let mut set = Vec::new(alloc);
    set.push(Interval { low, high })?;
    Ok(set)
}

/// The values of which a comparison with a value is true.
pub(crate) fn comparison_set<'a>(
    alloc: Global,
    operator: Operator,
    value: &'a ScalarValue,
) -> Result<Vec<Interval<'a>>, StatsError>
    ensures { OkOrMemory result
        (λ set. map interval_of set.items ≡ spec.comparison_set operator value.now) }
{
    match operator {
        Operator::Eq => one(alloc, Cut::Before(value), Cut::After(value)),
        Operator::NotEq => {
            let mut set = one(alloc, Cut::Lowest, Cut::Before(value))?;
            set.push(Interval {
                low: Cut::After(value),
                high: Cut::Highest,
            })?;
            Ok(set)
        }
        Operator::Gt => one(alloc, Cut::After(value), Cut::Highest),
        Operator::Gte => one(alloc, Cut::Before(value), Cut::Highest),
        Operator::Lt => one(alloc, Cut::Lowest, Cut::Before(value)),
        Operator::Lte => one(alloc, Cut::Lowest, Cut::After(value)),
        Operator::And | Operator::Or => Ok(Vec::new(alloc)),
    }
}

/// The comparison that says the same with its operands swapped.
pub(crate) fn swapped(operator: Operator) -> Operator
    ensures { result ≡ spec.swapped operator }
{
    match operator {
        Operator::Gt => Operator::Lt,
        Operator::Gte => Operator::Lte,
        Operator::Lt => Operator::Gt,
        Operator::Lte => Operator::Gte,
        _ => operator,
    }
}
