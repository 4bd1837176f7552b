//! Values and sets for the tests, by calls without a contract: a test compares what they answer and
//! reasons of nothing, so its proof stays short.
use std::alloc::{AllocError, Global};
use vortex_base::dtype::DType;
use vortex_base::scalar_value::ScalarValue;
use vortex_base::text::Text;
use vortex_base::types::{Nullability, PType};
use vortex_stats::precision::Precision;
use vortex_stats::stat::Stat;
use vortex_stats::stats_set::StatsSet;

pub type Value = Precision<ScalarValue>;

pub type Entry = (Stat, Value);

pub const I32: DType = DType::Primitive(PType::I32, Nullability::NonNullable);

pub const UTF8: DType = DType::Utf8(Nullability::NonNullable);

/// Exactly this number.
pub fn int(value: i32) -> Value {
    Precision::Exact(ScalarValue::from(value))
}

/// Exactly this count.
pub fn word(value: u64) -> Value {
    Precision::Exact(ScalarValue::from(value))
}

/// Exactly this truth.
pub fn truth(value: bool) -> Value {
    Precision::Exact(ScalarValue::from(value))
}

pub fn text_of(alloc: Global, text: &str) -> Result<Text, AllocError> {
    Ok(Text::new(String::from_str(alloc, text)?))
}

/// An exact text of more bytes than stand in place.
pub fn text(alloc: Global, first: &str) -> Result<Value, AllocError> {
    let mut text = String::from_str(alloc, first)?;
    text.push_str(" and more than stands in place")?;
    Ok(Precision::Exact(ScalarValue::Utf8(Text::new(text))))
}

/// Whether the entry is one of the set. This takes no memory.
pub fn has(set: &StatsSet, stat: Stat, value: Value) -> bool {
    set.iter().any(|entry| entry.0 == stat && entry.1 == value)
}
