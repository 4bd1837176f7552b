//! Literals by their texts, with numbers from Python's datetime, decimal and struct.
use crate::clocks::{read_instant, read_time, read_timestamp};
use crate::dates::read_date;
use crate::floats::read_float64;
use crate::intervals::{IntervalUnit, later};
use crate::numbers::read_number;
use vortex_logical::comparison::Comparison;
use vortex_logical::decimal::DecimalDType;
use vortex_logical::exact::Exact;
use vortex_logical::logical_type::LogicalType;
use vortex_logical::lower::CellTest;
use vortex_logical::time_unit::TimeUnit;

fn is_exact(read: Option<Exact>, top: i128, scale: u32) -> bool {
    match read {
        Some(number) => number.top == top && number.scale == scale,
        None => false,
    }
}

fn is_test(test: CellTest, comparison: Comparison, number: i128) -> bool {
    test.comparison == comparison && test.number == number
}

#[test]
fn dates_are_seconds_since_1970(rt: HostRuntime) {
    let rows: [(&str, i128); 24] = [
        ("1970-01-01", 0),
        ("1969-12-31", -86_400),
        ("0001-01-01", -62_135_596_800),
        ("9999-12-31", 253_402_214_400),
        ("2000-02-29", 951_782_400),
        ("1900-02-28", -2_203_977_600),
        ("1900-03-01", -2_203_891_200),
        ("2100-03-01", 4_107_542_400),
        ("1998-12-01", 912_470_400),
        ("1994-01-01", 757_382_400),
        ("1582-10-15", -12_219_292_800),
        ("3719-10-10", 55_217_462_400),
        ("1733-04-18", -7_469_712_000),
        ("4535-01-01", 80_943_580_800),
        ("7476-01-31", 173_755_152_000),
        ("0555-07-03", -44_637_264_000),
        ("0832-10-30", -35_885_635_200),
        ("9432-03-14", 235_484_236_800),
        ("6154-11-12", 132_061_536_000),
        ("1081-12-15", -28_024_012_800),
        ("4200-06-07", 70_385_587_200),
        ("6693-07-07", 149_059_699_200),
        ("0667-01-15", -41_117_500_800),
        ("5828-03-13", 121_752_892_800),
    ];
    for (text, seconds) in rows {
        assert!(rt; is_exact(read_date(text), seconds, 0));
    }
}

#[test]
fn dates_of_another_form_are_refused(rt: HostRuntime) {
    for text in [
        "",
        "2026-02-29",
        "2026-13-01",
        "2026-00-01",
        "2026-04-31",
        "20260102",
        "2026-W01-1",
        "2026-001",
        "+2026-01-02",
        "-002026-01",
        "2026-1-02",
        "2026-01-2",
        "2026/01/02",
        "2026-01-02T12:00",
        "2026-01-02 ",
        "2026-01-02Z",
        "January 2, 2026",
        "2026-01-0²",
    ] {
        assert!(rt; read_date(text).is_none());
    }
}

#[test]
fn timestamps_are_nanoseconds_since_1970(rt: HostRuntime) {
    let rows: [(&str, i128); 17] = [
        ("1970-01-01 00:00:00", 0),
        ("1969-12-31 23:59:59", -1_000_000_000),
        ("2026-01-02 12:00:00.5", 1_767_355_200_500_000_000),
        ("2026-01-02T12:34:56.789", 1_767_357_296_789_000_000),
        ("2026-01-02", 1_767_312_000_000_000_000),
        ("2026-01-02 12:34", 1_767_357_240_000_000_000),
        ("0001-01-01 00:00:00", -62_135_596_800_000_000_000),
        ("9999-12-31 23:59:59.999999", 253_402_300_799_999_999_000),
        ("1695-12-02 22:32:35.536332", -8_649_077_244_463_668_000),
        ("2130-07-18 00:58:50.721114", 5_066_240_330_721_114_000),
        ("1756-09-05T13:11:12.367396", -6_731_722_127_632_604_000),
        ("1794-06-16 16:40:34.650831", -5_539_562_365_349_169_000),
        ("2106-01-03 00:46:44.148981", 4_291_922_804_148_981_000),
        ("1905-07-11 09:11:41.191884", -2_034_686_898_808_116_000),
        ("1983-10-06T06:57:10.295213", 434_271_430_295_213_000),
        ("2270-06-02 05:09:42.275748", 9_480_258_582_275_748_000),
        ("2026-01-02 12:00:00.123456789", 1_767_355_200_123_456_789),
    ];
    for (text, number) in rows {
        assert!(rt; is_exact(read_timestamp(text), number, 9));
    }
}

#[test]
fn timestamps_of_another_form_are_refused(rt: HostRuntime) {
    for text in [
        "",
        "2026-01-02 12",
        "2026-01-02 12:00:60",
        "2026-01-02 12:60:00",
        "2026-01-02 24:00:00",
        "2026-02-30 12:00:00",
        "2026-01-02 12:00:00+02",
        "2026-01-02 12:00:00-08:00",
        "2026-01-02 12:00:00Z",
        "2026-01-02 12:00+02",
        "2026-01-02 12:00:00[Europe/Oslo]",
        "2026-01-02 12:00:00,5",
        "2026-01-02 12:00:00.",
        "2026-01-02 12:00:00.1234567890",
        "2026-01-02 120000",
        "20260102T120000",
        "2026-W01-5 12:00:00",
        "+002026-01-02 12:00:00",
        "2026-01-02t12:00:00",
        "2026-01-02  12:00:00",
        " 2026-01-02 12:00:00",
    ] {
        assert!(rt; read_timestamp(text).is_none());
    }
}

#[test]
fn instants_are_nanoseconds_since_1970_in_utc(rt: HostRuntime) {
    let rows: [(&str, i128); 14] = [
        ("1970-01-01 00:00:00Z", 0),
        ("2026-01-02 12:00:00+02", 1_767_348_000_000_000_000),
        ("2026-01-02T12:00:00-08:00", 1_767_384_000_000_000_000),
        ("2026-01-02 12:00:00.5+05:30", 1_767_335_400_500_000_000),
        ("2026-01-02 00:30:00+01:00", 1_767_310_200_000_000_000),
        ("2026-01-02 12:00:00-00:00", 1_767_355_200_000_000_000),
        ("2026-01-02 12:34+0530", 1_767_337_440_000_000_000),
        ("1969-12-31T23:59:59.999999Z", -1_000),
        (
            "2005-04-23 04:37:37.835608+05:45",
            1_114_210_357_835_608_000,
        ),
        (
            "2078-04-13 00:44:17.972421-09:00",
            3_417_068_657_972_421_000,
        ),
        (
            "1721-02-27 22:20:22.924483+07:45",
            -7_852_670_677_075_517_000,
        ),
        (
            "2141-04-19T06:00:57.612642+12:45",
            5_405_591_757_612_642_000,
        ),
        (
            "2170-07-08T04:05:09.081991-00:30",
            6_327_693_309_081_991_000,
        ),
        (
            "1931-10-20T11:42:18.683936-09:30",
            -1_205_462_861_316_064_000,
        ),
    ];
    for (text, number) in rows {
        assert!(rt; is_exact(read_instant(text), number, 9));
    }
}

#[test]
fn instants_of_another_form_are_refused(rt: HostRuntime) {
    for text in [
        "",
        "2026-01-02",
        "2026-01-02Z",
        "2026-01-02 12:00:00",
        "2026-01-02 12:00:60Z",
        "2026-01-02 12:00:00 +02",
        "2026-01-02 12:00:00+26",
        "2026-01-02 12:00:00+02:00:00.5",
        "2026-01-02 12:00:00+2",
        "2026-01-02 12:00:00,5Z",
        "2026-01-02 12:00:00+01[Europe/Oslo]",
        "2026-01-02 12:00:00[Europe/Oslo]",
        "2026-01-02 12:00:00 UTC",
        "20260102T120000Z",
        "2026-W01-5 12:00:00Z",
        "2026-02-30 12:00:00Z",
    ] {
        assert!(rt; read_instant(text).is_none());
    }
}

#[test]
fn times_are_nanoseconds_since_midnight(rt: HostRuntime) {
    let rows: [(&str, i128); 10] = [
        ("00:00:00", 0),
        ("12:00:00.5", 43_200_500_000_000),
        ("23:59:59.999999", 86_399_999_999_000),
        ("12:34", 45_240_000_000_000),
        ("01:02:03", 3_723_000_000_000),
        ("00:00:00.000001", 1_000),
        ("18:31:20.211233", 66_680_211_233_000),
        ("12:58:28.359879", 46_708_359_879_000),
        ("17:34:22.485792", 63_262_485_792_000),
        ("23:00:41.061896", 82_841_061_896_000),
    ];
    for (text, number) in rows {
        assert!(rt; is_exact(read_time(text), number, 9));
    }
}

#[test]
fn times_of_another_form_are_refused(rt: HostRuntime) {
    for text in [
        "",
        "12",
        "12:00:60",
        "24:00:00",
        "12:60",
        "12:00:00+02",
        "12:00:00Z",
        "12:00Z",
        "T12:00:00",
        "120000",
        "1:00:00",
        "12:00:00,5",
        "12:00:00.",
        "12:00:00.1234567890",
        "12:00:00[Europe/Oslo]",
        "12:00:00 PM",
        "2026-01-02 12:00:00",
        "-12:00:00",
    ] {
        assert!(rt; read_time(text).is_none());
    }
}

#[test]
fn numbers_are_their_digits_and_a_scale(rt: HostRuntime) {
    let rows: [(&[u8], i128, u32); 22] = [
        (b"0", 0, 0),
        (b"1", 1, 0),
        (b"42", 42, 0),
        (b"007", 7, 0),
        (b"12.5", 125, 1),
        (b"12.50", 1_250, 2),
        (b".5", 5, 1),
        (b"5.", 5, 0),
        (b"1.005", 1_005, 3),
        (b"0.000", 0, 3),
        (b"1.5e3", 15_000, 1),
        (b"1E3", 1_000, 0),
        (b"2e+2", 200, 0),
        (b"25e-4", 25, 4),
        (b"1.5e-3", 15, 4),
        (b"100e-2", 100, 2),
        (
            b"1e38",
            100_000_000_000_000_000_000_000_000_000_000_000_000,
            0,
        ),
        (b"1e-33", 1, 33),
        (b"0e999", 0, 0),
        (
            b"123456789012345678901234567890.123456789",
            123_456_789_012_345_678_901_234_567_890_123_456_789,
            9,
        ),
        (
            b"170141183460469231731687303715884105727",
            170_141_183_460_469_231_731_687_303_715_884_105_727,
            0,
        ),
        (b"0.000000000000000000000000000000001", 1, 33),
    ];
    for (text, top, scale) in rows {
        assert!(rt; is_exact(read_number(text), top, scale));
    }
}

#[test]
fn numbers_of_another_form_or_too_long_are_refused(rt: HostRuntime) {
    let texts: [&[u8]; 20] = [
        b"",
        b".",
        b"e5",
        b"1e",
        b"1e+",
        b"-1",
        b"+1",
        b"1.5x",
        b"1.2.3",
        b"1 ",
        b"1_000",
        b"0x10",
        b"nan",
        b"170141183460469231731687303715884105728",
        b"1e39",
        b"1e-34",
        b"0.0000000000000000000000000000000000",
        b"999999999999999999999999999999999999999999999999999999999999",
        b"1e999999999999999999999999999999999999999999999999999999999999",
        b"1e-999999999999999999999999999999999999999999999999999999999999",
    ];
    for text in texts {
        assert!(rt; read_number(text).is_none());
    }
}

fn is_later(text: &str, unit: IntervalUnit, count: i64, seconds: i128) -> bool {
    match read_date(text) {
        Some(start) => is_exact(later(start, unit, count), seconds, 0),
        None => false,
    }
}

fn has_none_later(text: &str, unit: IntervalUnit, count: i64) -> bool {
    match read_date(text) {
        Some(start) => later(start, unit, count).is_none(),
        None => false,
    }
}

#[test]
fn dates_move_by_days_months_and_years(rt: HostRuntime) {
    let rows: [(&str, IntervalUnit, i64, i128); 15] = [
        ("1998-12-01", IntervalUnit::Day, -90, 904_694_400),
        ("1994-01-01", IntervalUnit::Year, 1, 788_918_400),
        ("1995-09-01", IntervalUnit::Month, 1, 812_505_600),
        ("2026-01-31", IntervalUnit::Month, 1, 1_772_236_800),
        ("2024-01-31", IntervalUnit::Month, 1, 1_709_164_800),
        ("2024-02-29", IntervalUnit::Year, 1, 1_740_700_800),
        ("2024-02-29", IntervalUnit::Year, -4, 1_582_934_400),
        ("2026-03-31", IntervalUnit::Month, -1, 1_772_236_800),
        ("2026-12-31", IntervalUnit::Month, 2, 1_803_772_800),
        ("1970-01-01", IntervalUnit::Day, -1, -86_400),
        ("1999-12-31", IntervalUnit::Day, 1, 946_684_800),
        ("2026-05-15", IntervalUnit::Day, 0, 1_778_803_200),
        ("0001-01-01", IntervalUnit::Day, 3_652_058, 253_402_214_400),
        ("2000-10-31", IntervalUnit::Month, -20, 920_160_000),
        ("1996-02-29", IntervalUnit::Month, 12, 857_088_000),
    ];
    for (text, unit, count, seconds) in rows {
        assert!(rt; is_later(text, unit, count, seconds));
    }
}

#[test]
fn dates_do_not_move_past_the_calendar(rt: HostRuntime) {
    assert!(rt; has_none_later("9999-12-31", IntervalUnit::Day, 1));
    assert!(rt; has_none_later("9999-12-01", IntervalUnit::Month, 1));
    assert!(rt; has_none_later("9999-01-01", IntervalUnit::Year, 1));
    assert!(rt; has_none_later("2026-01-02", IntervalUnit::Day, i64::MAX));
    assert!(rt; has_none_later("2026-01-02", IntervalUnit::Month, i64::MIN));
    assert!(rt; has_none_later("2026-01-02", IntervalUnit::Year, 100_000));
}

#[test]
fn number_that_is_no_midnight_does_not_move(rt: HostRuntime) {
    let noon = read_timestamp("2026-01-02 12:00:00").expect(&rt, "a timestamp");
    assert!(rt; later(noon, IntervalUnit::Day, 1).is_none());
    let second = Exact::try_new(1, 0).expect(&rt, "a number");
    assert!(rt; later(second, IntervalUnit::Day, 1).is_none());
    let far = Exact::try_new(i128::MAX - 86_399, 0).expect(&rt, "a number");
    assert!(rt; later(far, IntervalUnit::Year, -1).is_none());
}

#[test]
fn floats_are_the_nearest_by_their_bits(rt: HostRuntime) {
    let rows: [(&[u8], u64); 9] = [
        (b"0.5", 0x3FE0_0000_0000_0000),
        (b"-0.0", 0x8000_0000_0000_0000),
        (b"0.1", 0x3FB9_9999_9999_999A),
        (b"1e308", 0x7FE1_CCF3_85EB_C8A0),
        (b"1e400", 0x7FF0_0000_0000_0000),
        (b"5e-324", 0x0000_0000_0000_0001),
        (b"inf", 0x7FF0_0000_0000_0000),
        (b"-1.5e3", 0xC097_7000_0000_0000),
        (b"123456789.123", 0x419D_6F34_547D_F3B6),
    ];
    for (text, bits) in rows {
        assert!(rt; read_float64(text) == Some(bits));
    }
    assert!(rt; read_float64(b"nan") == Some(0x7FF8_0000_0000_0000));
    assert!(rt; read_float64(b"1.5x").is_none());
    assert!(rt; read_float64(b"").is_none());
}

#[test]
fn literals_compare_with_columns(rt: HostRuntime) {
    let start = read_date("1998-12-01").expect(&rt, "a date");
    let end = later(start, IntervalUnit::Day, -90).expect(&rt, "a date");
    let test = LogicalType::Date.compare(Comparison::Lte, end);
    assert!(rt; is_test(test, Comparison::Lte, 10_471));
    let clock = read_timestamp("2026-01-01 12:00:00.5").expect(&rt, "a timestamp");
    let test = LogicalType::Timestamp(TimeUnit::Seconds).compare(Comparison::Gte, clock);
    assert!(rt; is_test(test, Comparison::Gt, 1_767_268_800));
    let instant = read_instant("2026-01-01 12:00:00+02").expect(&rt, "an instant");
    let test = LogicalType::TimestampTz(TimeUnit::Milliseconds).compare(Comparison::Eq, instant);
    assert!(rt; is_test(test, Comparison::Eq, 1_767_261_600_000));
    let price = read_number(b"1.005").expect(&rt, "a number");
    let cents = DecimalDType::try_new(9, 2).expect(&rt, "a type");
    let test = LogicalType::Decimal(cents).compare(Comparison::Gt, price);
    assert!(rt; is_test(test, Comparison::Gt, 100));
}
