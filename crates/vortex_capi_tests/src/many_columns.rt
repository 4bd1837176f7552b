//! A predicate over many columns, whose table has two statistics of one number of each.
use std::alloc::Global;
use std::test::Fail;
use vortex_capi::fault::Fault;
use vortex_capi::field::Field;
use vortex_capi::prune::prune;
use vortex_capi::statistic::Statistic;

const COLUMNS: usize = 300;

// The arrays of a column: of its greatest value first and last, of its least and of its nulls.
#[derive(Drop)]
struct Arrays {
    name: String,
    first: [u8; 8],
    last: [u8; 8],
    least: [u8; 8],
    nulls: [u8; 64],
}

// The column at a place. Three columns have small values in one zone each, a fourth has nulls in
// one, and each greatest value that stands first says the contrary.
fn arrays_of(alloc: Global, column: usize) -> Result<Arrays, Fail> {
    let mut made = Arrays {
        name: format!(in alloc; "c{column}")?,
        first: [5; 8],
        last: [200; 8],
        least: [150; 8],
        nulls: [0; 64],
    };
    match column {
        0 => (made.first[2], made.last[2], made.least[2]) = (200, 5, 5),
        17 => made.nulls[48] = 2,
        150 => (made.first[5], made.last[5], made.least[5]) = (200, 5, 5),
        299 => (made.first[0], made.last[0], made.least[0]) = (200, 5, 5),
        _ => {}
    }
    Ok(made)
}

// The statistic of a number of a column, exact in each zone.
fn exact(column: usize, stat: u8, values: &[u8]) -> Statistic<'_> {
    Statistic {
        column,
        stat,
        start: 0,
        known: &[1; 8],
        values,
        ends: &[],
    }
}

// The answers for eight zones of four rows.
fn pruned(
    alloc: Global,
    names: &[&[u8]],
    stats: &[Statistic<'_>],
    predicate: &[u8],
) -> Result<[u8; 8], Fail> {
    let mut scope = Vec::new(alloc);
    for name in names {
        scope.push(Field {
            name,
            kind: 2,
            nullable: 1,
            unit: 0,
            precision: 0,
            scale: 0,
        })?;
    }
    let mut answers = [9u8; 8];
    let mut fault = Fault {
        row: 9,
        column: 9,
        entry: 9,
    };
    let status = prune(
        alloc,
        &scope,
        &[4; 8],
        stats,
        predicate,
        0,
        &mut answers,
        &mut fault,
    );
    if status == 0 {
        Ok(answers)
    } else {
        Err(Fail::from("refused"))
    }
}

// Whether all columns have values above 100 in the zones, by one call.
fn together(alloc: Global, columns: &[Arrays]) -> Result<[u8; 8], Fail> {
    let mut names: Vec<&[u8]> = Vec::new(alloc);
    let mut stats = Vec::new(alloc);
    let mut predicate = String::new(alloc);
    for (place, column) in columns.iter().enumerate() {
        let name = column.name.as_str();
        names.push(name.as_bytes())?;
        stats.push(exact(place, 3, &column.first))?;
        stats.push(exact(place, 6, &column.nulls))?;
        stats.push(exact(place, 4, &column.least))?;
        let word = if place + 1 < columns.len() {
            "and "
        } else {
            ""
        };
        predicate.push_str(format!(in alloc; "{word}gt col {name} lit u8 100 ")?.as_str())?;
    }
    for (place, column) in columns.iter().enumerate() {
        stats.push(exact(place, 3, &column.last))?;
    }
    pruned(
        alloc,
        &names,
        &stats,
        predicate.as_str().trim_end().as_bytes(),
    )
}

// Whether one column has, by the statistics that count.
fn alone(alloc: Global, column: &Arrays) -> Result<[u8; 8], Fail> {
    let stats = [
        exact(0, 3, &column.last),
        exact(0, 6, &column.nulls),
        exact(0, 4, &column.least),
    ];
    pruned(alloc, &[b"a"], &stats, b"gt col a lit u8 100")
}

// The answer for what holds where both do.
fn both(left: u8, right: u8) -> u8 {
    match (left, right) {
        (1, _) | (_, 1) => 1,
        (2, 2) => 2,
        _ => 0,
    }
}

#[test]
fn many_columns_are_told_as_each_alone(rt: HostRuntime) -> Result<(), Fail> {
    let alloc = rt.alloc();
    let mut columns = Vec::new(alloc);
    let mut expected = [2u8; 8];
    for place in 0..COLUMNS {
        let column = arrays_of(alloc, place)?;
        let own = alone(alloc, &column)?;
        for zone in 0..8 {
            expected[zone] = both(expected[zone], own[zone]);
        }
        columns.push(column)?;
    }
    assert!(rt; expected == [1, 2, 1, 2, 2, 1, 0, 2]);
    assert!(rt; together(alloc, &columns)? == expected);
    Ok(())
}
