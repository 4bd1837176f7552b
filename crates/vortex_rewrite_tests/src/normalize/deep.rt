// Chains of as many words as a predicate may have, and refused memory.
use super::*;
use std::test::Fail;
use vortex_expr::Connective;

// Comparisons in a chain: of three nodes each, joined, they make 4,091.
const LINKS: i32 = 1023;

// More than a stack could hold one below the other: 17 deep they are normalized as they stand.
const LEAVES: i32 = 100_000;

// Half as many columns as a chain has links.
const COLUMNS: usize = 511;

fn joined(alloc: Global, connective: Connective, left: Built, right: Built) -> Built {
    match connective {
        Connective::And => and(alloc, left, right),
        Connective::Or => or(alloc, left, right),
    }
}

// One comparison of a after the other, at the left or at the right.
fn chain(alloc: Global, connective: Connective, test: Test, is_left: bool) -> Built {
    let mut chain = tested(alloc, 0, test, 0)?;
    for value in 1..LINKS {
        let link = tested(alloc, 0, test, value);
        chain = if is_left {
            joined(alloc, connective, Ok(chain), link)?
        } else {
            joined(alloc, connective, link, Ok(chain))?
        };
    }
    Ok(chain)
}

#[test]
fn deep_at_each_side(rt: HostRuntime) {
    let alloc = rt.alloc();
    for is_left in [true, false] {
        expect(
            &rt,
            alloc,
            chain(alloc, Connective::And, Test::Gt, is_left),
            a_gt(alloc, 1022),
        );
        expect(
            &rt,
            alloc,
            chain(alloc, Connective::Or, Test::Lt, is_left),
            a_lt(alloc, 1022),
        );
    }
}

fn deep_not(alloc: Global) -> Built {
    let mut deep = a_lt(alloc, 5)?;
    for _ in 0..4092 {
        deep = not(alloc, Ok(deep))?;
    }
    Ok(deep)
}

// As the gate builds the tests by LLVM: the frames of `rt try --test` are larger, and don't fit.
#[test]
fn deep_in_not(rt: HostRuntime) {
    let alloc = rt.alloc();
    expect(&rt, alloc, deep_not(alloc), a_lt(alloc, 5));
}

// AND and OR by turns, so that no chain has more than two links.
fn deep_turns(alloc: Global) -> Built {
    let mut deep = tested(alloc, 1, Test::Lt, 0)?;
    for value in 0..LINKS {
        let connective = if value % 2 == 0 {
            Connective::And
        } else {
            Connective::Or
        };
        deep = joined(alloc, connective, Ok(deep), a_lt(alloc, value))?;
    }
    Ok(deep)
}

// The predicate has a plain form.
fn expect_plain(rt: &impl Abort, alloc: Global, predicate: Built) {
    let predicate = predicate.expect(rt, "predicate");
    assert!(rt; normalize(alloc, &predicate).expect(rt, "form").is_plain());
}

#[test]
fn deep_turns_are_answered(rt: HostRuntime) {
    expect_plain(&rt, rt.alloc(), deep_turns(rt.alloc()));
}

// Neighbours joined by AND or by OR; the last of an odd number stays as it is.
fn pairs(
    alloc: Global,
    connective: Connective,
    tests: Vec<BoundExpression>,
) -> Result<Vec<BoundExpression>, StatsError> {
    let mut pairs = Vec::new(alloc);
    let mut odd = None;
    for test in tests {
        odd = match odd {
            None => Some(test),
            Some(first) => {
                pairs.push(joined(alloc, connective, Ok(first), Ok(test))?)?;
                None
            }
        };
    }
    if let Some(last) = odd {
        pairs.push(last)?;
    }
    Ok(pairs)
}

// As many turns as join 2^17 predicates.
fn balanced(alloc: Global, connective: Connective, tests: Vec<BoundExpression>) -> Built {
    let mut left = tests;
    for _ in 0..17 {
        left = pairs(alloc, connective, left)?;
    }
    match left.pop() {
        Some(only) => Ok(only),
        None => truth(alloc, connective.unit()),
    }
}

// Comparisons of a with as many values, the least first, as a normal form writes them.
fn spread(alloc: Global, connective: Connective, test: Test, count: i32) -> Built {
    let mut tests = Vec::new(alloc);
    for value in 0..count {
        tests.push(tested(alloc, 0, test, value)?)?;
    }
    balanced(alloc, connective, tests)
}

#[test]
fn many_values_and_holes(rt: HostRuntime) {
    let alloc = rt.alloc();
    let in_order = spread(alloc, Connective::Or, Test::Eq, LINKS);
    expect(
        &rt,
        alloc,
        chain(alloc, Connective::Or, Test::Eq, false),
        in_order,
    );
    let none = and(
        alloc,
        chain(alloc, Connective::And, Test::NotEq, true),
        a_eq(alloc, 511),
    );
    expect(&rt, alloc, none, truth(alloc, false));
}

// Each column is named twice, with all others between.
fn wide(alloc: Global) -> Built {
    let mut chain = tested(alloc, 0, Test::Gt, 3)?;
    for place in 1..COLUMNS {
        chain = and(alloc, Ok(chain), tested(alloc, place, Test::Gt, 3))?;
    }
    for place in 0..COLUMNS {
        chain = and(alloc, Ok(chain), tested(alloc, place, Test::Lt, 9))?;
    }
    Ok(chain)
}

#[test]
fn many_columns(rt: HostRuntime) {
    let alloc = rt.alloc();
    let mut ranges = Vec::new(alloc);
    for place in 0..COLUMNS {
        let column = col(alloc, place, I32_OR_NULL);
        let range = between(alloc, column, num(alloc, 3), num(alloc, 9), OPEN);
        ranges.push(range.expect(&rt, "range")).expect(&rt, "push");
    }
    expect(
        &rt,
        alloc,
        wide(alloc),
        balanced(alloc, Connective::And, ranges),
    );
}

#[test]
fn very_many_values(rt: HostRuntime) {
    let alloc = rt.alloc();
    let values = spread(alloc, Connective::Or, Test::Eq, LEAVES);
    expect(
        &rt,
        alloc,
        values,
        spread(alloc, Connective::Or, Test::Eq, LEAVES),
    );
}

#[test]
fn very_many_values_are_left_out(rt: HostRuntime) {
    let alloc = rt.alloc();
    expect_plain(
        &rt,
        alloc,
        spread(alloc, Connective::And, Test::NotEq, LEAVES),
    );
    let none = and(
        alloc,
        spread(alloc, Connective::And, Test::NotEq, LEAVES),
        a_eq(alloc, 511),
    );
    expect(&rt, alloc, none, truth(alloc, false));
}

// As many columns, each compared.
fn very_wide(alloc: Global, connective: Connective) -> Built {
    let mut columns = Vec::new(alloc);
    for place in 0..LEAVES as usize {
        columns.push(tested(alloc, place, Test::Gt, 3)?)?;
    }
    balanced(alloc, connective, columns)
}

#[test]
fn very_many_columns(rt: HostRuntime) {
    let alloc = rt.alloc();
    expect(
        &rt,
        alloc,
        very_wide(alloc, Connective::And),
        very_wide(alloc, Connective::And),
    );
    expect(
        &rt,
        alloc,
        very_wide(alloc, Connective::Or),
        very_wide(alloc, Connective::Or),
    );
}

fn is_made_or_memory(found: Built) -> bool {
    matches!(found, Ok(_) | Err(StatsError::Memory(_)))
}

// With a growth refused, as `rt try --test --fail-alloc` refuses one,
// a normal form is refused for memory and nothing else.
#[test]
fn refused_normal_forms(rt: HostRuntime) -> Result<(), Fail> {
    let alloc = rt.alloc();
    let outside = or(alloc, a_lt(alloc, 3), a_gt(alloc, 7));
    let unlike = not(alloc, s_like(alloc, "a%"));
    let chain = and(alloc, and(alloc, outside, unlike), a_gt(alloc, 1))?;
    assert!(rt; is_made_or_memory(normalize(alloc, &chain)));
    let holes = and(alloc, a_not_eq(alloc, 3), a_not_eq(alloc, 5));
    let more = and(alloc, holes, tested(alloc, 1, Test::Lt, 1));
    let more = and(alloc, more, c_eq(alloc, true))?;
    assert!(rt; is_made_or_memory(normalize(alloc, &more)));
    let range = between(alloc, a(alloc), num(alloc, 3), num(alloc, 9), CLOSED);
    let both = and(alloc, range, a_lt(alloc, 5))?;
    assert!(rt; is_made_or_memory(normalize(alloc, &both)));
    Ok(())
}
