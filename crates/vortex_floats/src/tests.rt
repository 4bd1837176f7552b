//! Comparisons of floats with numbers, with bits from Python's struct.
use crate::cells::{bits_at, compare_cells};
use crate::nearest::{compare_number, nearest};
use std::alloc::Global;
use std::process::Abort;
use vortex_logical::comparison::Comparison;
use vortex_logical::exact::Exact;
use vortex_logical::float_test::{FloatTest, NanMeaning};
use vortex_logical::float_type::FloatType;

const NAN: i64 = 0x7FF8_0000_0000_0000;

const TENTH: u64 = 4_591_870_180_066_957_722;

fn exact(rt: &impl Abort, top: i128, scale: u32) -> Exact {
    Exact::try_new(top, scale).expect(rt, "a scale of at most 33")
}

fn bits(alloc: Global, float: FloatType, number: Exact) -> Option<u64> {
    match nearest(alloc, float, number) {
        Ok(found) => found,
        Err(_) => None,
    }
}

fn is_test(
    found: Option<FloatTest>,
    comparison: Comparison,
    number: u64,
    below: Option<i64>,
) -> bool {
    match found {
        Some(found) => {
            found.test.comparison == comparison
                && found.test.number == i128::from(number)
                && found.below == below
        }
        None => false,
    }
}

#[test]
fn nearest_floats_of_64_bits(rt: HostRuntime) {
    let alloc = rt.alloc();
    let double = FloatType::F64;
    assert!(rt; bits(alloc, double, exact(&rt, 1, 1)) == Some(TENTH));
    assert!(rt; bits(alloc, double, exact(&rt, -25, 1)) == Some(13_836_183_955_189_006_336));
    assert!(rt; bits(alloc, double, exact(&rt, 1, 33)) == Some(4_113_128_866_711_215_964));
    assert!(rt; bits(alloc, double, exact(&rt, 0, 0)) == Some(0));
}

#[test]
fn nearest_floats_of_32_bits_are_those_of_64(rt: HostRuntime) {
    let alloc = rt.alloc();
    let single = FloatType::F32;
    assert!(rt; bits(alloc, single, exact(&rt, 5, 1)) == Some(1_056_964_608));
    assert!(rt; bits(alloc, single, exact(&rt, -25, 1)) == Some(3_223_322_624));
    assert!(rt; bits(alloc, single, exact(&rt, 1, 1)).is_none());
    assert!(rt; bits(alloc, single, exact(&rt, 16_777_217, 0)).is_none());
    assert!(rt; bits(alloc, FloatType::F16, exact(&rt, 5, 1)).is_none());
}

#[test]
fn numbers_compare_with_cells(rt: HostRuntime) {
    let alloc = rt.alloc();
    let (double, tenth) = (FloatType::F64, exact(&rt, 1, 1));
    let (gt, lte) = (Comparison::Gt, Comparison::Lte);
    let ieee = Some(NanMeaning::Ieee);
    let greatest = Some(NanMeaning::Greatest);
    let found = compare_number(alloc, double, ieee, gt, tenth).unwrap_or(None);
    assert!(rt; is_test(found, gt, TENTH, Some(NAN)));
    let found = compare_number(alloc, double, greatest, gt, tenth).unwrap_or(None);
    assert!(rt; is_test(found, gt, TENTH, None));
    let found = compare_number(alloc, double, None, lte, tenth).unwrap_or(None);
    assert!(rt; is_test(found, lte, TENTH, None));
    // Nothing says whether NaN is greater than 0.1.
    let found = compare_number(alloc, double, None, gt, tenth).unwrap_or(None);
    assert!(rt; found.is_none());
}

#[test]
fn cells_stand_for_floats_by_their_bits(rt: HostRuntime) {
    let (single, double) = (FloatType::F32, FloatType::F64);
    for bits in [
        0,
        1,
        0x3FF8_0000_0000_0000,
        0x7FF0_0000_0000_0000,
        0x8000_0000_0000_0001,
        0xC000_0000_0000_0000,
        0xFFF0_0000_0000_0000,
    ] {
        assert!(rt; bits_at(double, double.key(bits)) == bits);
    }
    assert!(rt; bits_at(single, single.key(0xC000_0000)) == 0xC000_0000);
    // -0.0 is 0.0, and each NaN the one that stands for all.
    assert!(rt; bits_at(double, double.key(0x8000_0000_0000_0000)) == 0);
    assert!(rt; bits_at(double, double.key(0xFFF0_0000_0000_0001)) == 0x7FF8_0000_0000_0000);
    // Numbers of no float stand for one beside them.
    assert!(rt; bits_at(double, -1) == 0x8000_0000_0000_0001);
    assert!(rt; bits_at(single, i64::MAX) == 0x7FC0_0000);
    assert!(rt; bits_at(single, i64::MIN) == 0xFF80_0000);
}

#[test]
fn no_cell_is_uncertain_beside_a_float(rt: HostRuntime) {
    let (single, lt) = (FloatType::F32, Comparison::Lt);
    assert!(rt; compare_cells(single, None, lt, 0x7F80_0000).is_none());
    assert!(rt; compare_cells(single, None, lt, 0xFF80_0000).is_none());
    assert!(rt; compare_cells(single, None, lt, 0x7FC0_0000).is_none());
    assert!(rt; compare_cells(single, None, lt, 0x8000_0001).is_none());
    assert!(rt; is_test(compare_cells(single, None, lt, 0x8000_0000), lt, 0, None));
}
