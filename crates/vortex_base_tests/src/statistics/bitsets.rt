//! Sets of statistics as bytes, written and read.
use std::alloc::Global;
use std::process::Abort;
use vortex_stats::bitset::{as_stat_bitset_bytes, stats_from_bitset_bytes};
use vortex_stats::stat::{PRUNING_STATS, Stat};

// The statistics are written as these bytes.
fn expect_written(rt: &impl Abort, alloc: Global, stats: &[Stat], bytes: &[u8]) {
    let written = as_stat_bitset_bytes(alloc, stats).expect(rt, "bytes");
    assert!(rt; written.as_slice() == bytes);
}

// The bytes are read as these statistics.
fn expect_read(rt: &impl Abort, alloc: Global, bytes: &[u8], stats: &[Stat]) {
    let read = stats_from_bitset_bytes(alloc, bytes).expect(rt, "statistics");
    assert!(rt; read.as_slice() == stats);
}

// The statistics are written as these bytes, and read from them.
fn expect_bytes(rt: &impl Abort, alloc: Global, stats: &[Stat], bytes: &[u8]) {
    expect_written(rt, alloc, stats, bytes);
    expect_read(rt, alloc, bytes, stats);
}

#[test]
fn are_written_and_read(rt: HostRuntime) {
    let alloc = rt.alloc();
    expect_bytes(&rt, alloc, &[Stat::Max, Stat::Min], &[0x18, 0x00]);
    expect_bytes(&rt, alloc, &[Stat::Max, Stat::NaNCount], &[0x08, 0x01]);
    let all: Vec<Stat> = Stat::all().collect(alloc).expect(&rt, "statistics");
    assert!(rt; all.len() == 9);
    expect_read(&rt, alloc, &[0xff, 0xff, 0xff], all.as_slice());
}

#[test]
fn statistics_of_pruning_are_written(rt: HostRuntime) {
    expect_written(&rt, rt.alloc(), PRUNING_STATS, &[0x78, 0x01]);
}

#[test]
fn bytes_of_any_number_are_read(rt: HostRuntime) {
    expect_read(&rt, rt.alloc(), &[], &[]);
    expect_read(&rt, rt.alloc(), &[0x01], &[Stat::IsConstant]);
}
