//! Tests of values, scalars and types, and of what is read out of them and printed.
use crate::testing::*;
use std::alloc::Global;
use std::cmp::Ordering;
use std::process::Abort;
use vortex_base::{
    AggregateFnRef, BaseError, Bytes, ConstantArray, DType, FromScalar, PType, PValue, Row, Scalar,
    ScalarValue, Text, laws,
};

#[test]
fn texts_and_bytes_are_lent_and_copied(rt: HostRuntime) {
    let alloc = rt.alloc();
    let text = Text::new(String::from_str(alloc, "é").expect(&rt, "a string"));
    assert!(rt; text.as_str() == "é");
    assert!(rt; text.try_clone().expect(&rt, "a copy") == text);
    assert!(rt; laws::clone_of_text(&text).expect(&rt, "a clone") == text);
    assert!(rt; text.into_string().as_str() == "é");
    let bytes = Bytes::new(Vec::from_slice(alloc, &[0, 255]).expect(&rt, "a vector"));
    assert!(rt; bytes.as_slice() == [0, 255].as_slice());
    assert!(rt; bytes.try_clone().expect(&rt, "a copy") == bytes);
    assert!(rt; laws::clone_of_bytes(&bytes).expect(&rt, "a clone") == bytes);
    assert!(rt; bytes.into_vec().as_slice() == [0, 255].as_slice());
}

// Copies of the value are equal to it.
fn expect_copied(rt: &impl Abort, value: &ScalarValue) {
    assert!(rt; value.try_clone().expect(rt, "a copy") == *value);
    assert!(rt; value.lend().to_value().expect(rt, "a value") == *value);
    let clone = laws::clone_of_value(value).expect(rt, "a clone");
    assert!(rt; laws::values_compare(&clone, value) == (Ordering::Equal, true));
}

#[test]
fn values_are_copied(rt: HostRuntime) {
    let text = text_value(rt.alloc(), "é").expect(&rt, "a text");
    let bytes = bytes_value(rt.alloc(), &[1, 2]).expect(&rt, "bytes");
    expect_copied(&rt, &text);
    expect_copied(&rt, &bytes);
    expect_copied(&rt, &ScalarValue::from(5i32));
    expect_copied(&rt, &ScalarValue::from(true));
    assert!(rt; text.fits(&UTF8) && !bytes.fits(&UTF8));
}

// The scalar has the type and its value, and a copy is equal to it.
fn expect_scalar(rt: &impl Abort, dtype: DType, value: Option<ScalarValue>) {
    let is_null = value.is_none();
    let scalar = Scalar::try_new(dtype, value).expect(rt, "a scalar");
    assert!(rt; scalar.dtype() == dtype && scalar.value().is_none() == is_null);
    let copy = scalar.try_clone().expect(rt, "a copy");
    assert!(rt; copy == scalar);
    let array = ConstantArray::new(copy, 3);
    assert!(rt; *array.scalar() == scalar && array.len() == 3);
    assert!(rt; scalar.into_value().is_none() == is_null);
}

#[test]
fn scalars_hold_their_values(rt: HostRuntime) {
    let text = text_value(rt.alloc(), "é").expect(&rt, "a text");
    expect_scalar(&rt, UTF8_OR_NULL, Some(text));
    expect_scalar(&rt, UTF8_OR_NULL, None);
    expect_scalar(&rt, I32, Some(ScalarValue::from(5i32)));
    assert!(rt; Scalar::null(UTF8_OR_NULL).is_null());
}

// The scalar of the value is read as this.
fn expect_read<T: FromScalar + PartialEq + Drop>(rt: &impl Abort, scalar: &Scalar, expected: T) {
    assert!(rt; matches!(T::from_scalar(scalar), Ok(value) if value == expected));
}

fn scalar_of(rt: &impl Abort, dtype: DType, value: ScalarValue) -> Scalar {
    Scalar::try_new(dtype, Some(value)).expect(rt, "a scalar")
}

#[test]
fn scalars_are_read(rt: HostRuntime) {
    let alloc = rt.alloc();
    let number = scalar_of(&rt, I32, ScalarValue::from(100i32));
    expect_read(&rt, &number, 100u8);
    expect_read(&rt, &number, 100u16);
    expect_read(&rt, &number, 100u32);
    expect_read(&rt, &number, 100u64);
    expect_read(&rt, &number, 100i8);
    expect_read(&rt, &number, 100i16);
    expect_read(&rt, &number, 100i32);
    expect_read(&rt, &number, 100i64);
    expect_read(&rt, &scalar_of(&rt, BOOL, ScalarValue::from(true)), true);
    let text = scalar_of(&rt, UTF8, text_value(alloc, "é").expect(&rt, "a text"));
    expect_read(
        &rt,
        &text,
        String::from_str(alloc, "é").expect(&rt, "a string"),
    );
    let bytes = scalar_of(
        &rt,
        BINARY,
        bytes_value(alloc, &[7, 8]).expect(&rt, "bytes"),
    );
    expect_read(
        &rt,
        &bytes,
        Vec::from_slice(alloc, &[7, 8]).expect(&rt, "a vector"),
    );
}

#[test]
fn types_and_numbers(rt: HostRuntime) {
    assert!(rt; !UTF8.is_nullable() && UTF8.as_nullable() == UTF8_OR_NULL);
    assert!(rt; UTF8.eq_ignore_nullability(&UTF8_OR_NULL));
    assert!(rt; AggregateFnRef::Max.state_dtype(&UTF8) == Some(UTF8_OR_NULL));
    let (greater, less) = (PValue::I8(-1), PValue::U64(3));
    assert!(rt; less.ptype() == PType::U64);
    assert!(rt; laws::numbers_compare(less, greater) == (Ordering::Less, false));
    let row = Row::empty();
    assert!(rt; row.len() == 0 && row.dtype(0) == None && row.value(0).is_none());
}

// The fault is printed so.
fn expect_printed(rt: &impl Abort, alloc: Global, fault: BaseError, text: &str) {
    let printed = format!(in alloc; "{fault}").expect(rt, "a text");
    assert_eq!(rt; printed.as_str(), text);
}

#[test]
fn faults_print_their_cause(rt: HostRuntime) {
    use BaseError::*;
    let alloc = rt.alloc();
    expect_printed(&rt, alloc, UnknownColumn, "no column has this name");
    expect_printed(&rt, alloc, DuplicateColumn, "two columns have one name");
    expect_printed(&rt, alloc, EmptyScope, "a scope needs a column");
    expect_printed(&rt, alloc, TypeFault, "the types do not fit");
    let unsupported = "the aggregate does not support the type";
    expect_printed(&rt, alloc, Unsupported, unsupported);
    expect_printed(&rt, alloc, Mismatch, "a value does not fit its type");
    expect_printed(&rt, alloc, RowShape, "the columns do not make up the rows");
    expect_printed(&rt, alloc, Placeholder, "a placeholder has no value");
}
