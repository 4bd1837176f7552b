//! The keywords that end or begin expressions.

// Keywords that begin no operand.
const RESERVED: [&[u8]; 39] = [
    b"and",
    b"as",
    b"asc",
    b"asymmetric",
    b"between",
    b"collate",
    b"desc",
    b"distinct",
    b"else",
    b"end",
    b"escape",
    b"except",
    b"fetch",
    b"for",
    b"from",
    b"group",
    b"having",
    b"ilike",
    b"in",
    b"intersect",
    b"into",
    b"is",
    b"isnull",
    b"like",
    b"limit",
    b"not",
    b"notnull",
    b"offset",
    b"on",
    b"or",
    b"order",
    b"select",
    b"similar",
    b"symmetric",
    b"then",
    b"union",
    b"when",
    b"where",
    b"with",
];

// Functions that are called with no parentheses.
const CALLED: [&[u8]; 12] = [
    b"current_catalog",
    b"current_date",
    b"current_role",
    b"current_schema",
    b"current_time",
    b"current_timestamp",
    b"current_user",
    b"localtime",
    b"localtimestamp",
    b"session_user",
    b"system_user",
    b"user",
];

// Words that go on with the name of a type.
const OF_TYPES: [&[u8]; 6] = [
    b"precision",
    b"varying",
    b"with",
    b"without",
    b"time",
    b"zone",
];

/// Tells whether a word is a keyword, in whatever case.
pub(crate) fn is_same(word: &[u8], keyword: &[u8]) -> bool {
    word.eq_ignore_ascii_case(keyword)
}

fn is_one_of(word: &[u8], keywords: &[&[u8]]) -> bool {
    for keyword in keywords {
        if is_same(word, keyword) {
            return true;
        }
    }
    false
}

/// Tells whether a word begins no operand.
pub(crate) fn is_reserved(word: &[u8]) -> bool {
    is_one_of(word, &RESERVED)
}

/// Tells whether a word is a call with no parentheses.
pub(crate) fn is_called(word: &[u8]) -> bool {
    is_one_of(word, &CALLED)
}

/// Tells whether a word goes on with the name of a type.
pub(crate) fn is_of_type(word: &[u8]) -> bool {
    is_one_of(word, &OF_TYPES)
}
