//! Tests of `scope`.
use crate::testing::{BOOL, scope};
use std::process::Abort;
use vortex_base::{DType, Scope};

fn is_second(scope: &Scope, name: &str, dtype: DType) -> bool {
    scope.len() == 2 && scope.name(1) == name && scope.dtype(1) == dtype
}

fn expect_two(rt: &impl Abort, scope: &Scope) {
    assert!(rt; is_second(scope, "é", DType::Null));
    assert!(rt; scope.find("é") == Some(1) && scope.find("b") == None);
}

#[test]
fn are_copied_and_shared(rt: HostRuntime) {
    let alloc = rt.alloc();
    let two = scope(alloc, &[("a", BOOL), ("é", DType::Null)]).expect(&rt, "a scope");
    expect_two(&rt, &two);
    let copy = two.try_clone().expect(&rt, "a copy");
    assert!(rt; copy == two);
    let shared = two.try_shared(alloc).expect(&rt, "shared");
    expect_two(&rt, &shared);
    assert!(rt; shared.try_clone().expect(&rt, "a copy") == copy);
    let again = shared.try_shared(alloc).expect(&rt, "shared again");
    assert!(rt; again == copy);
}
