//! Conditions over a scope of five columns.
use std::alloc::Global;
use std::process::Abort;
use std::test::Fail;
use vortex_base::dtype::DType;
use vortex_base::scope::Scope;
use vortex_base::types::{Nullability, PType};
use vortex_sql::condition::condition;
use vortex_sql::error::SqlError;
use vortex_sql::schema::Schema;
use vortex_sql::syntax::error::ParseError;
use vortex_sql::syntax::parse::Names;

const YES: Nullability = Nullability::Nullable;

const COLUMNS: [(&str, DType); 5] = [
    ("qty", DType::Primitive(PType::U16, YES)),
    ("name", DType::Utf8(YES)),
    ("d", DType::Primitive(PType::I32, YES)),
    ("flag", DType::Bool(YES)),
    ("0: f()", DType::Bool(YES)),
];

fn schema(alloc: Global) -> Result<Schema, Fail> {
    let mut columns = Vec::new(alloc);
    for (name, dtype) in COLUMNS {
        columns.push((String::from_str(alloc, name)?, dtype))?;
    }
    Ok(Schema::of_scope(alloc, Scope::try_new(columns)?))
}

fn spans(alloc: Global, text: &str, names: Names) -> Result<Vec<(usize, usize)>, Fail> {
    let schema = schema(alloc)?;
    match condition(alloc, text, &schema, names) {
        Ok(sql) => Ok(sql.opaque),
        Err(_) => Err(Fail::from("refused")),
    }
}

fn expect_spans(
    rt: &impl Abort,
    alloc: Global,
    names: Names,
    rows: &[(&str, &[(usize, usize)])],
) -> Result<(), Fail> {
    for (text, expected) in rows {
        let found = spans(alloc, text, names)?;
        assert!(rt; found.as_slice() == *expected, "{text}");
    }
    Ok(())
}

#[test]
fn carry_unread_parts_by_their_places(rt: HostRuntime) -> Result<(), Fail> {
    expect_spans(
        &rt,
        rt.alloc(),
        Names::Plain,
        &[
            ("qty > 9000 AND lower(city) = 'rome'", &[(15, 35)]),
            ("NOT f(3) AND qty > 3 - 2", &[(4, 8), (13, 24)]),
            ("f(1) AND f(1)", &[(0, 4), (9, 13)]),
            ("( f(1) ) IS TRUE", &[(0, 8)]),
            ("(f(1) OR x = 2) AND qty = 1", &[(1, 5), (9, 14)]),
            ("qty IN (1, f(2)) OR d = 1", &[(0, 16)]),
            ("name ILIKE 'a' AND flag", &[(0, 14)]),
            ("t.qty = 3", &[(0, 9)]),
            ("3 < t.qty OR t.qty IN (1, 2)", &[(0, 9), (13, 28)]),
            ("t.flag AND t.d IS NULL", &[(0, 6), (11, 22)]),
            ("qty = d", &[(0, 7)]),
            ("1 = 1 AND NULL = f(2) AND flag IS NOT TRUE", &[]),
            ("d > 3.5 AND d BETWEEN SYMMETRIC 5 AND 3", &[]),
            ("qty IN (1, NULL, 70000) AND d IS DISTINCT FROM -3", &[]),
        ],
    )
}

#[test]
fn look_up_the_last_name_where_it_is_wanted(rt: HostRuntime) -> Result<(), Fail> {
    expect_spans(
        &rt,
        rt.alloc(),
        Names::Last,
        &[
            ("t.qty = 3", &[]),
            ("3 < t.qty", &[]),
            ("s . t.qty <> 3", &[]),
            ("t.qty IN (1, 2) OR t.d IS NULL", &[]),
            ("NOT t.flag AND t.d NOT BETWEEN 1 AND 5", &[]),
            ("t.name LIKE 'a%' AND t.d IS DISTINCT FROM 3", &[]),
            ("\"t\".\"qty\" = 3", &[]),
            ("t.z = 3", &[(0, 7)]),
            ("t.qty + 1 = 3", &[(0, 13)]),
            ("t.qty(1) = 3 AND t.qty << 1 = 2", &[(0, 12), (17, 31)]),
            ("t.qty IN (1) = t.flag", &[(0, 21)]),
            ("t.d = 3 IS NULL AND t.d::int = 3", &[(20, 32)]),
            ("d = name -> t.d", &[(0, 15)]),
            ("t.d ILIKE 'x'", &[(0, 13)]),
        ],
    )
}

#[test]
fn name_a_column_by_the_place_and_the_text(rt: HostRuntime) -> Result<(), Fail> {
    let schema = schema(rt.alloc())?;
    match condition(
        rt.alloc(),
        "flag AND lower(name) = 'x'",
        &schema,
        Names::Plain,
    ) {
        Ok(sql) => {
            assert!(rt; sql.scope.len() == 6);
            assert!(rt; sql.scope.find("9: lower(name) = 'x'") == Some(5));
        }
        Err(e) => assert!(rt; false, "{e}"),
    }
    Ok(())
}

fn expect_refused(rt: &impl Abort, alloc: Global, rows: &[(&str, SqlError)]) -> Result<(), Fail> {
    let schema = schema(alloc)?;
    for (text, expected) in rows {
        let refusal = condition(alloc, text, &schema, Names::Plain).err();
        assert!(rt; refusal == Some(*expected), "{text}");
    }
    Ok(())
}

#[test]
fn refuse_at_the_first_fault(rt: HostRuntime) -> Result<(), Fail> {
    expect_refused(
        &rt,
        rt.alloc(),
        &[
            ("qty = 'abc'", SqlError::Misfit(0, 11)),
            (
                "qty = 3 AND name = 5 OR qty = 'x'",
                SqlError::Misfit(12, 20),
            ),
            ("d OR flag", SqlError::Misfit(0, 1)),
            ("d BETWEEN f(1) AND 'x'", SqlError::Misfit(0, 22)),
            ("1 = 'x'", SqlError::Misfit(0, 7)),
            ("qty = ", SqlError::Syntax(ParseError::Unexpected(6))),
            ("qty = 1 -- x", SqlError::Syntax(ParseError::Comment(8))),
            ("case.qty = 3", SqlError::Syntax(ParseError::Unexpected(4))),
            ("f()", SqlError::Name),
        ],
    )
}

fn list(alloc: Global, count: usize) -> Result<String, Fail> {
    let mut text = String::from_str(alloc, "qty IN (0")?;
    for number in 0..count {
        text.push_str(format!(in alloc; ", {number}")?.as_str())?;
    }
    text.push_str(")")?;
    Ok(text)
}

fn chain(alloc: Global, count: usize) -> Result<String, Fail> {
    let mut text = String::from_str(alloc, "flag")?;
    for number in 0..count {
        text.push_str(format!(in alloc; " AND qty <> {number}")?.as_str())?;
    }
    Ok(text)
}

#[test]
fn read_lists_and_chains_of_10_000(rt: HostRuntime) -> Result<(), Fail> {
    let text = list(rt.alloc(), 10_000)?;
    assert!(rt; spans(rt.alloc(), text.as_str(), Names::Plain)?.is_empty());
    let text = chain(rt.alloc(), 10_000)?;
    assert!(rt; spans(rt.alloc(), text.as_str(), Names::Plain)?.is_empty());
    Ok(())
}
