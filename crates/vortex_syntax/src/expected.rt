//! Expectations at a place of a line, for the sentence that says why the line is bad.

use std::fmt;
use vortex_base::dtype::DType;
use vortex_base::types::PType;

/// An expectation at a word of a line.
#[derive(Clone, Copy, Debug, PartialEq, Eq)]
pub enum Expected {
    /// A line that is UTF-8.
    Utf8,
    /// The first word of a line.
    LineKind,
    /// Nothing: a line with words stands behind the predicate.
    NothingBehindPredicate,
    /// A `column` before the first part.
    ColumnBeforeParts,
    /// A column before a `part` or a `where`.
    SomeColumn,
    /// A `part` before the first `row` or `stat`.
    SomePart,
    /// A part that no `join` has ended, before a `row` or a `stat`.
    OpenPart,
    /// A word that may name a column.
    Name,
    /// A name that no column has yet.
    NewName,
    /// The name of a column.
    Column,
    /// A type.
    Type,
    /// A statistic.
    Stat,
    /// A statistic that columns of this type have.
    StatOf(DType),
    /// How a statistic is known.
    Precision,
    /// A value of a type other than null.
    Value(DType),
    /// A value of a type, null among them where the type has it.
    ValueOrNull(DType),
    /// The quote that ends a text, in which a backslash stands before a quote or a backslash alone.
    ClosingQuote,
    /// A space or the end of the line, behind a closing quote.
    SpaceBehindQuote,
    /// The place of a part.
    PartPlace,
    /// The place of one of so many parts that has a part behind it.
    Neighbours(u32),
    /// The first word of an expression.
    Expression,
    /// How an end of a BETWEEN is compared.
    Strictness,
    /// An operand of another type than this one. The operator is the last word before the place.
    Operand(DType),
    /// Operands of other types than these two. The operator is the last word before the place.
    Operands(DType, DType),
    /// No more words than a predicate may have.
    FewerWords,
    /// The end of the line.
    End,
    /// A line with the predicate.
    Predicate,
}

// The numbers of a type.
fn range_of(ptype: PType) -> &'static str {
    match ptype {
        PType::U8 => "u8 is 0 to 255",
        PType::U16 => "u16 is 0 to 65535",
        PType::U32 => "u32 is 0 to 4294967295",
        PType::U64 => "u64 is 0 to 18446744073709551615",
        PType::I8 => "i8 is -128 to 127",
        PType::I16 => "i16 is -32768 to 32767",
        PType::I32 => "i32 is -2147483648 to 2147483647",
        PType::I64 => "i64 is -9223372036854775808 to 9223372036854775807",
    }
}

// How the values of a type other than null are written.
fn values_of(dtype: DType) -> &'static str {
    match dtype {
        DType::Null => "the one value of null is null",
        DType::Bool(_) => "bool is true or false",
        DType::Primitive(ptype, _) => range_of(ptype),
        DType::Utf8(_) => "utf8 is a text between quotes",
        DType::Binary(_) => "binary is x and pairs of hexadecimal digits",
        DType::MinMaxState(_, _) => "no value of this type can be written",
    }
}

// The word of a type, without the question mark that lets null in.
fn type_word(dtype: DType) -> &'static str {
    match dtype {
        DType::Null => "null",
        DType::Bool(_) => "bool",
        DType::Primitive(PType::U8, _) => "u8",
        DType::Primitive(PType::U16, _) => "u16",
        DType::Primitive(PType::U32, _) => "u32",
        DType::Primitive(PType::U64, _) => "u64",
        DType::Primitive(PType::I8, _) => "i8",
        DType::Primitive(PType::I16, _) => "i16",
        DType::Primitive(PType::I32, _) => "i32",
        DType::Primitive(PType::I64, _) => "i64",
        DType::Utf8(_) => "utf8",
        DType::Binary(_) => "binary",
        DType::MinMaxState(_, _) => "min_max",
    }
}

// A type as a line writes it.
#[derive(Clone, Copy)]
struct TypeWord(DType);

impl fmt::Display for TypeWord {
    fn fmt<W: fmt::Write>(&self, f: &mut fmt::Formatter<W>) -> fmt::Result {
        let word = type_word(self.0);
        if self.0.is_nullable() && self.0 != DType::Null {
            write!(f, "{word}?")
        } else {
            write!(f, "{word}")
        }
    }
}

impl Expected {
    /// Whether a line is at fault as a whole, and no word of it.
    pub fn is_about_line(self) -> bool {
        matches!(
            self,
            Expected::Utf8
                | Expected::NothingBehindPredicate
                | Expected::ColumnBeforeParts
                | Expected::SomeColumn
                | Expected::SomePart
                | Expected::OpenPart
                | Expected::FewerWords
                | Expected::Predicate
        )
    }

    /// Whether the operands of the last word before the place are at fault.
    pub fn is_about_operands(self) -> bool {
        matches!(self, Expected::Operand(_) | Expected::Operands(_, _))
    }

    // The sentence of what is expected of the order of lines.
    fn order(self) -> &'static str {
        match self {
            Expected::NothingBehindPredicate => "the predicate is the last line with words",
            Expected::ColumnBeforeParts => "columns stand before the first part",
            Expected::SomeColumn => "a line column has to stand before it",
            Expected::SomePart => "a line part has to stand before it",
            Expected::OpenPart => "a row or a statistic belongs to a part that no join has ended",
            Expected::LineKind => "a line begins with column, part, stat, row, join or where",
            Expected::Predicate => "a text ends with a line where and the predicate",
            _ => "the line is not UTF-8",
        }
    }

    // The sentence of what is expected of a word, which knows nothing of types and parts.
    fn sentence(self) -> &'static str {
        match self {
            Expected::Name => {
                "a name is an ASCII letter or _, then letters, digits or _, 64 bytes at most"
            }
            Expected::NewName => "an earlier column has this name",
            Expected::Column => "the name of a column is expected",
            Expected::Type => {
                "a type is bool, u8, u16, u32, u64, i8, i16, i32, i64, utf8 or binary, or one of \
                 these with a ? behind it, or null"
            }
            Expected::Stat => {
                "a statistic is min, max, null_count, sum, uncompressed_size_in_bytes, \
                 is_constant, is_sorted or is_strict_sorted"
            }
            Expected::Precision => "a statistic is exact or inexact",
            Expected::ClosingQuote => {
                "a text ends at a quote, and in it \\\" is a quote and \\\\ a backslash"
            }
            Expected::SpaceBehindQuote => "behind a closing quote stands a space",
            Expected::PartPlace => {
                "the place of a part is written in digits, 18446744073709551615 at most"
            }
            Expected::Expression => {
                "an expression begins with col, lit, eq, ne, gt, ge, lt, le, and, or, not, \
                 between, isnull, notnull, like, notlike, ilike or notilike"
            }
            Expected::Strictness => "an end is compared by < or <=",
            Expected::FewerWords => "a predicate has 4096 words at most",
            Expected::End => "the line ends before this word",
            _ => self.order(),
        }
    }
}

/// The sentence that says what was expected, with no full stop.
impl fmt::Display for Expected {
    fn fmt<W: fmt::Write>(&self, f: &mut fmt::Formatter<W>) -> fmt::Result {
        match *self {
            Expected::StatOf(_) => write!(f, "columns of this type have no such statistic"),
            Expected::Value(dtype) => write!(f, "{}", values_of(dtype)),
            Expected::ValueOrNull(dtype) if dtype.is_nullable() && dtype != DType::Null => {
                write!(f, "{}, or null", values_of(dtype))
            }
            Expected::ValueOrNull(dtype) => write!(f, "{}", values_of(dtype)),
            Expected::Operand(dtype) => {
                let dtype = TypeWord(dtype);
                write!(f, "the type of its operand doesn't fit: {dtype}")
            }
            Expected::Operands(left, right) => {
                let (left, right) = (TypeWord(left), TypeWord(right));
                write!(f, "the types of its operands don't fit: {left} and {right}")
            }
            Expected::Neighbours(count) if count < 2 => {
                write!(f, "two parts are joined, and there are fewer")
            }
            Expected::Neighbours(count) => {
                let last = count - 2;
                write!(
                    f,
                    "the place of the first of two neighbouring parts is 0 to {last}"
                )
            }
            other => write!(f, "{}", other.sentence()),
        }
    }
}
