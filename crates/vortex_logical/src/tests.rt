//! Comparisons and bounds of each type, with numbers from Python's datetime, decimal and struct.
use crate::bounds::{greatest, least};
use crate::comparison::Comparison;
use crate::condition::{among, between, compare_bytes};
use crate::decimal::DecimalDType;
use crate::exact::Exact;
use crate::float_test::NanMeaning;
use crate::float_type::FloatType;
use crate::logical_type::LogicalType;
use crate::lower::CellTest;
use crate::time_unit::TimeUnit;
use std::process::Abort;

// 1998-09-02, and noon of that day and half a second, as seconds.
const DAY: i128 = 904_694_400;

const NOON_AND_HALF: i128 = 9_047_376_005;

fn exact(rt: &impl Abort, top: i128, scale: u32) -> Exact {
    Exact::try_new(top, scale).expect(rt, "a scale of at most 33")
}

fn decimal(rt: &impl Abort, precision: u8, scale: u8) -> LogicalType {
    LogicalType::Decimal(DecimalDType::try_new(precision, scale).expect(rt, "a type"))
}

fn is_test(test: CellTest, comparison: Comparison, number: i128) -> bool {
    test.comparison == comparison && test.number == number
}

#[test]
fn date_compares_as_its_day(rt: HostRuntime) {
    let test = LogicalType::Date.compare(Comparison::Lte, exact(&rt, DAY, 0));
    assert!(rt; is_test(test, Comparison::Lte, 10_471));
}

#[test]
fn instant_within_a_day_lies_between_two_dates(rt: HostRuntime) {
    let noon = exact(&rt, NOON_AND_HALF, 1);
    let test = LogicalType::Date.compare(Comparison::Gte, noon);
    assert!(rt; is_test(test, Comparison::Gt, 10_471));
    let test = LogicalType::Date.compare(Comparison::Lt, noon);
    assert!(rt; is_test(test, Comparison::Lte, 10_471));
}

#[test]
fn literal_finer_than_the_unit_lies_between_two_cells(rt: HostRuntime) {
    let noon = exact(&rt, NOON_AND_HALF, 1);
    let seconds = LogicalType::Timestamp(TimeUnit::Seconds);
    assert!(rt;
        is_test(
            seconds.compare(Comparison::Gt, noon),
            Comparison::Gt,
            904_737_600
        )
    );
    let millis = LogicalType::TimestampTz(TimeUnit::Milliseconds);
    assert!(rt;
        is_test(
            millis.compare(Comparison::Gt, noon),
            Comparison::Gt,
            904_737_600_500
        )
    );
    let nanos = LogicalType::Time(TimeUnit::Nanoseconds);
    let half = exact(&rt, 5, 1);
    assert!(rt;
        is_test(
            nanos.compare(Comparison::Eq, half),
            Comparison::Eq,
            500_000_000
        )
    );
}

#[test]
fn literal_outside_of_the_type_is_true_or_false_of_all(rt: HostRuntime) {
    let far = exact(&rt, i128::MAX, 0);
    let test = LogicalType::Date.compare(Comparison::Lt, far);
    assert!(rt; is_test(test, Comparison::Lte, 2_147_483_647));
    let test = LogicalType::Timestamp(TimeUnit::Nanoseconds).compare(Comparison::Gt, far);
    assert!(rt; is_test(test, Comparison::Gt, 9_223_372_036_854_775_807));
    let low = exact(&rt, i128::MIN, 33);
    let test = decimal(&rt, 38, 38).compare(Comparison::Lt, low);
    assert!(rt; test.number == -99_999_999_999_999_999_999_999_999_999_999_999_999);
}

#[test]
fn decimal_literal_between_two_cells_bounds_both_sides(rt: HostRuntime) {
    let price = decimal(&rt, 9, 2);
    let literal = exact(&rt, 1_005, 3);
    assert!(rt; is_test(price.compare(Comparison::Gt, literal), Comparison::Gt, 100));
    assert!(rt; is_test(price.compare(Comparison::Gte, literal), Comparison::Gt, 100));
    let low = least(price, literal, true).expect(&rt, "a bound");
    assert!(rt; low.number == 101 && !low.exact);
    let high = greatest(price, literal, true).expect(&rt, "a bound");
    assert!(rt; high.number == 100 && !high.exact);
    let at = least(price, exact(&rt, 15, 1), true).expect(&rt, "a bound");
    assert!(rt; at.number == 150 && at.exact);
}

#[test]
fn bound_outside_of_the_type_is_unknown(rt: HostRuntime) {
    let far = exact(&rt, 999_999_999_999_999, 0);
    assert!(rt; least(LogicalType::Date, far, true).is_none());
    assert!(rt; greatest(LogicalType::Date, far, true).is_none());
}

#[test]
fn long_decimal_compares_as_sixteen_bytes(rt: HostRuntime) {
    let test = compare_bytes(decimal(&rt, 38, 0), Comparison::Gt, exact(&rt, -1, 0));
    assert!(rt; test.comparison == Comparison::Gt);
    assert!(rt; test.bytes[0] == 127 && test.bytes[15] == 255);
}

#[test]
fn decimal_type_of_too_many_digits_is_refused(rt: HostRuntime) {
    assert!(rt; DecimalDType::try_new(0, 0).is_none());
    assert!(rt; DecimalDType::try_new(39, 0).is_none());
    assert!(rt; DecimalDType::try_new(38, 39).is_none());
    assert!(rt; Exact::try_new(1, 34).is_none());
}

#[test]
fn range_and_list_are_tests_of_cells(rt: HostRuntime) {
    let price = decimal(&rt, 9, 2);
    let (low, high) = between(price, exact(&rt, 5, 2), exact(&rt, 75, 3));
    assert!(rt; is_test(low, Comparison::Gte, 5) && is_test(high, Comparison::Lte, 7));
    let tests = among(rt.alloc(), price, &[exact(&rt, 1, 0), exact(&rt, 1, 3)]).expect(
        &rt, "tests",
    );
    assert!(rt; tests.len() == 2);
    assert!(rt; is_test(tests[0], Comparison::Eq, 100));
    assert!(rt; is_test(tests[1], Comparison::Gt, 9_223_372_036_854_775_807));
}

#[test]
fn floats_have_numbers_in_their_order(rt: HostRuntime) {
    assert!(rt; FloatType::F64.key(0x3FE0_0000_0000_0000) == 4_602_678_819_172_646_912);
    assert!(rt; FloatType::F64.key(0x8000_0000_0000_0000) == 0);
    assert!(rt; FloatType::F64.key(0x8000_0000_0000_0001) == -2);
    assert!(rt; FloatType::F64.key(0xFFF8_0000_0000_0001) == FloatType::F64.nan_key());
    assert!(rt; FloatType::F32.key(0xBF80_0000) == -1_065_353_217);
    assert!(rt; FloatType::F16.key(0xBC00) == -15_361);
    assert!(rt; FloatType::F16.key(0x7C01) == 0x7E00 && FloatType::F16.is_nan(0xFE00));
}

#[test]
fn nan_passes_by_its_meaning(rt: HostRuntime) {
    let half = 0x3FE0_0000_0000_0000;
    let test = FloatType::F64.compare(NanMeaning::Ieee, Comparison::Gt, half);
    assert!(rt; is_test(test.test, Comparison::Gt, 4_602_678_819_172_646_912));
    assert!(rt; test.below == Some(FloatType::F64.nan_key()));
    let test = FloatType::F64.compare(NanMeaning::Greatest, Comparison::Gt, half);
    assert!(rt; test.below.is_none());
    let never = FloatType::F32.compare(NanMeaning::Ieee, Comparison::Lt, 0x7FC0_0000);
    assert!(rt; is_test(never.test, Comparison::Gt, 0x7FC0_0000) && never.below.is_none());
}

#[test]
fn greatest_float_is_unknown_beside_nan(rt: HostRuntime) {
    let one = 0x3F80_0000;
    assert!(rt; FloatType::F32.greatest(one, true).is_none());
    assert!(rt; FloatType::F32.greatest(one, false) == Some(1_065_353_216));
    assert!(rt; FloatType::F32.least(one) == Some(1_065_353_216));
    assert!(rt; FloatType::F32.least(0x7FC0_0001).is_none());
}
