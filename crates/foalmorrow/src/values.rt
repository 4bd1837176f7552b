// The values of statistics, as people write them.
use jiff::Timestamp;
use jiff::civil::{DateTime, date};
use jiff::tz::Offset;
use std::alloc::{AllocError, Global};
use std::num::{f32_from_bits_with_nan, f64_from_bits_with_nan};
use vortex_base::pvalue::PValue;
use vortex_base::scalar_value::ScalarValue;
use vortex_floats::cells::bits_at;
use vortex_logical::float_type::FloatType;
use vortex_logical::logical_type::LogicalType;
use vortex_logical::time_unit::TimeUnit;
use vortex_parquet::meaning::LeafMeaning;
use vortex_sql::syntax::print::exact_text;

const SECONDS_A_DAY: i64 = 86_400;

// Returns the date and the time so many units behind 1970-01-01 00:00:00, from the year -9999 on up
// to the year 9999.
fn moment(number: i64, unit: TimeUnit) -> Option<DateTime> {
    let instant = match unit {
        TimeUnit::Seconds => Timestamp::from_second(number),
        TimeUnit::Milliseconds => Timestamp::from_millisecond(number),
        TimeUnit::Microseconds => Timestamp::from_microsecond(number),
        TimeUnit::Nanoseconds => Timestamp::from_nanosecond(i128::from(number)),
    };
    match instant {
        Ok(instant) => Some(Offset::UTC.to_datetime(instant)),
        Err(_) => None,
    }
}

fn date_text(alloc: Global, day: i32) -> Result<String, AllocError> {
    match moment(i64::from(day) * SECONDS_A_DAY, TimeUnit::Seconds) {
        Some(moment) => {
            let date = moment.date();
            format!(in alloc; "{date}")
        }
        None => format!(in alloc; "day {day}"),
    }
}

fn time_text(alloc: Global, number: i64, unit: TimeUnit) -> Result<String, AllocError> {
    match moment(number, unit) {
        Some(moment) if moment.date() == date(1970, 1, 1) => {
            let time = moment.time();
            format!(in alloc; "{time}")
        }
        _ => format!(in alloc; "{number}"),
    }
}

// Returns a date and a time with a mark of their zone behind them.
fn timestamp_text(
    alloc: Global,
    number: i64,
    unit: TimeUnit,
    zone: &str,
) -> Result<String, AllocError> {
    match moment(number, unit) {
        Some(moment) => {
            let (date, time) = (moment.date(), moment.time());
            format!(in alloc; "{date} {time}{zone}")
        }
        None => format!(in alloc; "{number}"),
    }
}

// Returns a value of a logical type that a whole number stands for.
fn logical_text(alloc: Global, logical: LogicalType, number: i64) -> Result<String, AllocError> {
    match logical {
        LogicalType::Date => match i32::try_from(number) {
            Ok(day) => date_text(alloc, day),
            Err(_) => format!(in alloc; "day {number}"),
        },
        LogicalType::Time(unit) => time_text(alloc, number, unit),
        LogicalType::Timestamp(unit) => timestamp_text(alloc, number, unit, ""),
        LogicalType::TimestampTz(unit) => timestamp_text(alloc, number, unit, "Z"),
        LogicalType::Decimal(decimal) => {
            exact_text(alloc, i128::from(number), u32::from(decimal.scale()))
        }
    }
}

// Returns the float that a whole number stands for, in the fewest digits that tell it from others
// of its type.
fn float_text(alloc: Global, float: FloatType, number: i64) -> Result<String, AllocError> {
    let bits = bits_at(float, number);
    match float {
        FloatType::F16 => format!(in alloc; "{number}"),
        FloatType::F32 => {
            let value = f32_from_bits_with_nan(bits as u32);
            format!(in alloc; "{value}")
        }
        FloatType::F64 => {
            let value = f64_from_bits_with_nan(bits);
            format!(in alloc; "{value}")
        }
    }
}

// Returns a number as it is kept.
fn number_text(alloc: Global, number: PValue) -> Result<String, AllocError> {
    match number {
        PValue::U8(n) => format!(in alloc; "{n}"),
        PValue::U16(n) => format!(in alloc; "{n}"),
        PValue::U32(n) => format!(in alloc; "{n}"),
        PValue::U64(n) => format!(in alloc; "{n}"),
        PValue::I8(n) => format!(in alloc; "{n}"),
        PValue::I16(n) => format!(in alloc; "{n}"),
        PValue::I32(n) => format!(in alloc; "{n}"),
        PValue::I64(n) => format!(in alloc; "{n}"),
    }
}

/// Returns a value as text: a number of a column by what it stands for, and a count of rows as it
/// is. Numbers that stand for no date or time of the years -9999 to 9999 are written as they are.
pub fn value_text(
    alloc: Global,
    meaning: LeafMeaning,
    value: &ScalarValue,
) -> Result<String, AllocError> {
    match (value, meaning) {
        (ScalarValue::Bool(truth), _) => format!(in alloc; "{truth}"),
        (ScalarValue::Primitive(PValue::I32(n)), LeafMeaning::Logical(logical)) => {
            logical_text(alloc, logical, i64::from(*n))
        }
        (ScalarValue::Primitive(PValue::I64(n)), LeafMeaning::Logical(logical)) => {
            logical_text(alloc, logical, *n)
        }
        (ScalarValue::Primitive(PValue::I32(n)), LeafMeaning::Float(float)) => {
            float_text(alloc, float, i64::from(*n))
        }
        (ScalarValue::Primitive(PValue::I64(n)), LeafMeaning::Float(float)) => {
            float_text(alloc, float, *n)
        }
        (ScalarValue::Primitive(number), _) => number_text(alloc, *number),
        (ScalarValue::Utf8(text), _) => format!(in alloc; "{:?}", text.as_str()),
        (ScalarValue::Binary(bytes), _) => {
            let count = bytes.as_slice().len();
            format!(in alloc; "{count} bytes")
        }
    }
}
