//! Tests of footers, page indexes and conditions over them.

mod conditions;
mod dates;
mod decimals;
mod file;
mod files;
mod page_ranges;
mod pages;
mod unbounded;
