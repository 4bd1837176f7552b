//! Values with a precision: each call once, their texts, and the scalars of numbers and texts.
use crate::statistics::testing::{I32, UTF8, int, text, text_of};
use std::alloc::Global;
use std::process::Abort;
use vortex_base::scalar_value::ScalarValue;
use vortex_stats::precision::Precision;
use vortex_stats::stat::{IsConstant, Max, Min, Sum};
use vortex_stats::stat_bound::StatBound;

const EXACT: Precision<u8> = Precision::Exact(7);

const INEXACT: Precision<u8> = Precision::Inexact(7);

const ABSENT: Precision<u8> = Precision::Absent;

fn expect_shown(rt: &impl Abort, alloc: Global, value: Precision<u8>, text: &str) {
    let shown = format!(in alloc; "{value}").expect(rt, "a text");
    assert_eq!(rt; shown.as_str(), text);
}

#[test]
fn texts(rt: HostRuntime) {
    expect_shown(&rt, rt.alloc(), EXACT, "7");
    expect_shown(&rt, rt.alloc(), INEXACT, "~7");
    expect_shown(&rt, rt.alloc(), ABSENT, "{empty}");
}

#[test]
fn conversions(rt: HostRuntime) {
    assert!(rt; Precision::<u64>::exact(7u8) == Precision::Exact(7));
    assert!(rt; Precision::<u64>::inexact(7u8) == Precision::Inexact(7));
    assert!(rt; Precision::<u8>::default() == ABSENT && ABSENT.is_absent() && EXACT.is_exact());
    assert!(rt; EXACT.to_inexact() == INEXACT && EXACT.into_inexact() == INEXACT);
    assert!(rt; EXACT.as_exact() == Some(7) && INEXACT.as_inexact() == Some(7));
    assert!(rt; INEXACT.into_inner() == Some(7) && EXACT.eq_value(&7));
    assert!(rt; EXACT.map(|v| v / 2) == Precision::Exact(3));
    assert!(rt; INEXACT.and_then(|v| v.checked_sub(8)) == ABSENT);
    assert!(rt; EXACT.zip(INEXACT) == Precision::Inexact((7, 7)));
    let tried: Precision<Result<u8, char>> = Precision::Inexact(Ok(7));
    assert!(rt; tried.transpose() == Ok(INEXACT));
}

#[test]
fn bounds_of_statistics(rt: HostRuntime) {
    assert!(rt; EXACT.bound::<Max>().map(|bound| bound.into_value()) == Some(EXACT));
    assert!(rt; EXACT.bound::<Min>().map(|bound| bound.into_value()) == Some(EXACT));
    assert!(rt; EXACT.bound::<Sum>() == Some(EXACT));
    let is_constant = Precision::Exact(true);
    assert!(rt; is_constant.bound::<IsConstant>() == Some(is_constant));
}

#[test]
fn scalars(rt: HostRuntime) {
    let alloc = rt.alloc();
    let name = Precision::Exact(text_of(alloc, "a name").expect(&rt, "a text"));
    assert!(rt; name.as_ref().cloned().expect(&rt, "a clone") == name);
    let value = text(alloc, "a text").expect(&rt, "a text");
    let lent = value.as_ref().into_scalar(UTF8).expect(&rt, "a scalar");
    assert!(rt; value.into_scalar(UTF8).expect(&rt, "a scalar") == lent);
    let number = int(7).into_scalar(I32).expect(&rt, "a scalar");
    let value = number.map(|scalar| scalar.into_value());
    assert!(rt; value == Precision::Exact(Some(ScalarValue::from(7i32))));
}
