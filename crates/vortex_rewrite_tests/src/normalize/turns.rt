// Chains over one column in which AND and OR take turns.
use super::*;

const GREATEST: i32 = 99;

// The next of numbers that look random.
fn next(state: u32) -> u32 {
    state.wrapping_mul(1_103_515_245).wrapping_add(12_345)
}

// A part that an OR adds: one value, a closed range or an open one.
fn added(alloc: Global, state: u32) -> Built {
    let low = ((state >> 8) % 97) as i32;
    match (state >> 24) % 4 {
        0 => a_within(alloc, low, low + 2),
        1 => between(alloc, a(alloc), num(alloc, low), num(alloc, low + 3), OPEN),
        _ => a_eq(alloc, low),
    }
}

// A part that an AND takes away: one value, a closed range or an open one, and now and then an end.
fn kept(alloc: Global, state: u32) -> Built {
    let low = ((state >> 8) % 97) as i32;
    match (state >> 24) % 16 {
        0 => a_gt(alloc, low % 9),
        1 => a_lt(alloc, low / 8 + 89),
        2 | 3 => not(alloc, a_within(alloc, low, low + 2)),
        _ => a_not_eq(alloc, low),
    }
}

// The chain with one more link, which adds values or keeps some, at its left or at its right.
fn turned(alloc: Global, chain: BoundExpression, state: u32, adds: bool, is_left: bool) -> Built {
    match (adds, is_left) {
        (true, true) => or(alloc, added(alloc, state), Ok(chain)),
        (true, false) => or(alloc, Ok(chain), added(alloc, state)),
        (false, true) => and(alloc, kept(alloc, state), Ok(chain)),
        (false, false) => and(alloc, Ok(chain), kept(alloc, state)),
    }
}

// So many links by turns, at the right of the chain so far or at its left.
fn turns(alloc: Global, links: u32, seed: u32) -> Built {
    let mut state = next(seed);
    let mut chain = a_eq(alloc, 0)?;
    for link in 0..links {
        state = next(state);
        let is_left = (state >> 30) == 0;
        chain = turned(alloc, chain, state, link % 2 == 0, is_left)?;
    }
    Ok(chain)
}

// Memory suffices for chains of each length, and the form of a form is itself.
#[test]
fn random_turns_have_forms(rt: HostRuntime) {
    let alloc = rt.alloc();
    for seed in 1..=8 {
        for links in [1, 2, 7, 60, 401] {
            let chain = turns(alloc, links, seed).expect(&rt, "chain");
            let form = normalize(alloc, &chain).expect(&rt, "form");
            assert!(rt; form == normalize(alloc, &form).expect(&rt, "form again"));
        }
    }
}

// A set of many intervals that each link changes at one place.
#[test]
fn turns_of_values_and_holes(rt: HostRuntime) {
    let alloc = rt.alloc();
    let mut chain = a_eq(alloc, 0).expect(&rt, "chain");
    for value in 1..=GREATEST {
        chain = and(alloc, Ok(chain), a_not_eq(alloc, value.saturating_sub(1))).expect(&rt, "and");
        chain = or(alloc, Ok(chain), a_within(alloc, value, value)).expect(&rt, "or");
    }
    expect(&rt, alloc, Ok(chain), a_eq(alloc, GREATEST));
}
