//! Values in plain form at the front of a text: what is left behind them, and what isn't one.
use std::alloc::AllocError;
use std::process::Abort;
use vortex_base::dtype::DType;
use vortex_base::types::{Nullability, PType};
use vortex_syntax::plain::{plain_bytes, plain_null};

const NULLABLE: DType = DType::Primitive(PType::U8, Nullability::Nullable);

const NON_NULLABLE: DType = DType::Primitive(PType::U8, Nullability::NonNullable);

const BYTES: DType = DType::Binary(Nullability::NonNullable);

// How many bytes are left behind a null.
fn behind_null(dtype: DType, text: &[u8]) -> Option<usize> {
    Some(plain_null(dtype, text)?.len())
}

fn expect_behind_null(rt: &impl Abort, dtype: DType, text: &[u8], left: Option<usize>) {
    assert_eq!(rt; behind_null(dtype, text), left);
}

#[test]
fn nulls_are_read_where_the_type_has_them(rt: HostRuntime) {
    expect_behind_null(&rt, NULLABLE, b" null 7\n", Some(3));
    expect_behind_null(&rt, NULLABLE, b" null\n", Some(1));
    expect_behind_null(&rt, NULLABLE, b" nulls\n", None);
    expect_behind_null(&rt, NULLABLE, b" null", None);
    expect_behind_null(&rt, NON_NULLABLE, b" null\n", None);
}

// How many bytes are left behind bytes, which are put into a vector.
fn behind_bytes(text: &[u8], bytes: &mut Vec<u8>) -> Result<Option<usize>, AllocError> {
    match plain_bytes(BYTES, text, bytes)? {
        Some(rest) => Ok(Some(rest.len())),
        None => Ok(None),
    }
}

// So many bytes are left behind these, which are read.
fn expect_bytes(rt: &impl Abort, bytes: &mut Vec<u8>, text: &[u8], left: usize, read: &[u8]) {
    let found = behind_bytes(text, bytes).expect(rt, "memory");
    assert!(rt; found == Some(left));
    assert!(rt; bytes.as_slice() == read);
}

fn expect_no_bytes(rt: &impl Abort, bytes: &mut Vec<u8>, text: &[u8]) {
    assert!(rt; behind_bytes(text, bytes).expect(rt, "memory") == None);
}

#[test]
fn bytes_are_read_in_the_place_of_others(rt: HostRuntime) {
    let mut bytes = Vec::new(rt.alloc());
    expect_bytes(&rt, &mut bytes, b" x00fF 1\n", 3, &[0, 255]);
    expect_bytes(&rt, &mut bytes, b" x7a\n", 1, &[0x7a]);
    expect_bytes(&rt, &mut bytes, b" x\n", 1, &[]);
    expect_no_bytes(&rt, &mut bytes, b" x7\n");
    expect_no_bytes(&rt, &mut bytes, b" 7a\n");
}
