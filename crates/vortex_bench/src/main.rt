// Work for timing the layers, and for judging how conditions are read: LIKE on a text that tempts a
// search to go back, comparisons, the calls of a set of statistics, statistics of large columns,
// scans of many small parts, pruning of many zones, normal forms of long chains, and the print of
// conditions.
#![tactic(auto)]

mod arrays;
mod chosen;
mod conditions;
mod made;
mod measures;
mod normal;
mod pruning;
mod scans;
mod workload;

use anyhow::Result;
use std::alloc::Global;
use std::io::Read;
use vortex_expr::bound_expression::BoundExpression;

// The sides of a predicate, as it is made or in normal form.
fn count_sides(alloc: Global, name: &str, predicate: &BoundExpression) -> Result<usize> {
    if name.starts_with("made") {
        Ok(normal::only_made(predicate))
    } else {
        normal::normalized_often(alloc, predicate)
    }
}

// A workload over a predicate of some length, or 0 for another name.
fn count_normal(alloc: Global, name: &str, length: u32) -> Result<usize> {
    let predicate = match name {
        "made_values" | "normal_values" => normal::values(alloc, length),
        "made_columns" | "normal_columns" => normal::columns(alloc, length),
        "made_turns" | "normal_turns" => normal::turns(alloc, length),
        _ => return Ok(0),
    };
    count_sides(alloc, name, &predicate?)
}

// A workload over maps of zones, or one over a predicate.
fn count_pruned(alloc: Global, name: &str, length: u32) -> Result<usize> {
    match name {
        "long_map" => pruning::only_mapped(alloc, pruning::LONG),
        "long_comparison" => pruning::pruned(alloc, pruning::LONG, 1),
        "long_leaves" => pruning::pruned(alloc, pruning::LONG, 16),
        "table_map" => pruning::only_mapped(alloc, pruning::TABLE),
        "table_comparison" => pruning::pruned(alloc, pruning::TABLE, 1),
        "table_leaves" => pruning::pruned(alloc, pruning::TABLE, 16),
        "table_arrays" => arrays::only_arrays(alloc, pruning::TABLE),
        "table_arrays_comparison" => arrays::pruned(alloc, pruning::TABLE, 1),
        "table_arrays_leaves" => arrays::pruned(alloc, pruning::TABLE, 16),
        "table_once" => arrays::only_mapped(alloc, pruning::TABLE),
        "table_once_comparison" => arrays::map_pruned(alloc, pruning::TABLE, 1),
        "table_once_leaves" => arrays::map_pruned(alloc, pruning::TABLE, 16),
        "broad_map" => pruning::only_mapped(alloc, pruning::BROAD),
        "broad_comparison" => pruning::pruned(alloc, pruning::BROAD, 1),
        "broad_leaves" => pruning::pruned(alloc, pruning::BROAD, 16),
        "spread_sets" => chosen::only_sets(alloc),
        "spread_maps" => chosen::all_mapped(alloc),
        "spread_chosen" => chosen::chosen_mapped(alloc),
        _ => count_normal(alloc, name, length),
    }
}

// A workload over many small parts, or one of those above.
fn count_scanned(alloc: Global, name: &str, length: u32) -> Result<usize> {
    match name {
        "narrow_table" => scans::only_tabled(alloc, scans::NARROW),
        "narrow_binders" => scans::scanned_by_binders(alloc, scans::NARROW),
        "narrow_zones" => scans::scanned_by_table(alloc, scans::NARROW),
        "wide_table" => scans::only_tabled(alloc, scans::WIDE),
        "wide_binders" => scans::scanned_by_binders(alloc, scans::WIDE),
        "wide_zones" => scans::scanned_by_table(alloc, scans::WIDE),
        _ => count_pruned(alloc, name, length),
    }
}

// A workload over statistics of large columns, or one of those above.
fn count_measured(alloc: Global, name: &str, length: u32) -> Result<usize> {
    let counted = match name {
        "made_numbers" => measures::made_numbers(alloc),
        "measured_numbers" => measures::measured_numbers(alloc),
        "checked_numbers" => measures::checked_numbers(alloc),
        "made_texts" => measures::made_texts(alloc),
        "measured_texts" => measures::measured_texts(alloc),
        "checked_texts" => measures::checked_texts(alloc),
        _ => return count_scanned(alloc, name, length),
    };
    Ok(counted?)
}

// The count of a workload, or 0 for another name.
fn count(alloc: Global, name: &str, length: u32) -> Result<usize> {
    match name {
        "like" => Ok(workload::count_like(alloc)?),
        "evaluate" => Ok(workload::count_evaluated(alloc)?),
        "set" => Ok(workload::set_often(alloc)?),
        "get" => Ok(workload::get_often(alloc)?),
        "merge" => Ok(workload::merge_often(alloc)?),
        _ => count_measured(alloc, name, length),
    }
}

// Runs the workload that the first line of standard input names, with a length behind the name
// where it has one, and prints what it counted. `conditions` prints the lines behind it as they are
// read.
fn main(rt: HostRuntime) -> Result<()> {
    let alloc = rt.alloc();
    let mut text = String::new(alloc);
    rt.reader().read_to_string(&mut text)?;
    let mut lines = text.as_str().lines();
    let mut words = lines.next().unwrap_or("").split_whitespace();
    let name = words.next().unwrap_or("");
    let length = words.next().unwrap_or("").parse().unwrap_or(0);
    if name == "conditions" {
        conditions::print_all(&rt, lines)?;
        return Ok(());
    }
    let count = count(alloc, name, length)?;
    println!(rt; "{count}")?;
    Ok(())
}
