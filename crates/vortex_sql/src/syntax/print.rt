//! Conditions as text, from which the same conditions are read.
use crate::syntax::tree::{Condition, Escape, ExactNumber, Leaf, Operand, Test};
use std::alloc::{AllocError, Global};
use vortex_logical::comparison::Comparison;

type Printed = Result<(), AllocError>;

/// Returns a number as decimal digits, of which so many stand behind a point. `AllocError` if memory
/// is refused.
pub fn exact_text(alloc: Global, top: i128, scale: u32) -> Result<String, AllocError> {
    let mut whole = top.unsigned_abs();
    let mut behind = Vec::new(alloc);
    for _digit in 0..scale {
        behind.push(whole % 10)?;
        whole /= 10;
    }
    let sign = if top < 0 { "-" } else { "" };
    let mut text = format!(in alloc; "{sign}{whole}")?;
    if scale > 0 {
        text.push_str(".")?;
    }
    for digit in behind.iter().rev() {
        write!(text, "{digit}")?;
    }
    Ok(text)
}

// A text that grows, and the text in which the leaves stand.
#[derive(Drop)]
struct Printer<'a> {
    alloc: Global,
    source: &'a str,
    out: String,
}

fn sign_of(comparison: Comparison) -> &'static str {
    match comparison {
        Comparison::Eq => " = ",
        Comparison::NotEq => " <> ",
        Comparison::Gt => " > ",
        Comparison::Gte => " >= ",
        Comparison::Lt => " < ",
        Comparison::Lte => " <= ",
    }
}

impl Printer<'_> {
    fn push(&mut self, words: &str) -> Printed {
        self.out.push_str(words)
    }

    // Prints a text between quotes, each of which stands twice within it.
    fn quoted(&mut self, quote: char, text: &str) -> Printed {
        self.out.push(quote)?;
        for character in text.chars() {
            if character == quote {
                self.out.push(quote)?;
            }
            self.out.push(character)?;
        }
        self.out.push(quote)
    }

    fn hexadecimal(&mut self, bytes: &[u8]) -> Printed {
        self.push("X'")?;
        for byte in bytes {
            let byte = *byte;
            let digits = format!(in self.alloc; "{byte:02x}")?;
            self.push(digits.as_str())?;
        }
        self.push("'")
    }

    fn number(&mut self, number: ExactNumber) -> Printed {
        let text = exact_text(self.alloc, number.top, number.scale)?;
        self.push(text.as_str())
    }

    fn operand(&mut self, operand: &Operand) -> Printed {
        match operand {
            Operand::Column(name) => self.quoted('"', name.as_str()),
            Operand::Null => self.push("NULL"),
            Operand::Truth(true) => self.push("TRUE"),
            Operand::Truth(false) => self.push("FALSE"),
            Operand::Exact(number) => self.number(*number),
            Operand::Text(text) => self.quoted('\'', text.as_str()),
            Operand::Binary(bytes) => self.hexadecimal(bytes.as_slice()),
            Operand::Float(_) | Operand::Other => Ok(()),
        }
    }

    fn two(&mut self, left: &Operand, sign: &str, right: &Operand) -> Printed {
        self.operand(left)?;
        self.push(sign)?;
        self.operand(right)
    }

    fn between(&mut self, x: &Operand, words: &str, lower: &Operand, upper: &Operand) -> Printed {
        self.two(x, words, lower)?;
        self.push(" AND ")?;
        self.operand(upper)
    }

    fn member(&mut self, x: &Operand, among: &[Operand]) -> Printed {
        self.operand(x)?;
        let mut before = " IN (";
        for item in among {
            self.push(before)?;
            self.operand(item)?;
            before = ", ";
        }
        self.push(")")
    }

    fn escape(&mut self, escape: Escape) -> Printed {
        match escape {
            Escape::Backslash => Ok(()),
            Escape::Nothing => self.push(" ESCAPE ''"),
            Escape::Byte(b'\'') => self.push(" ESCAPE ''''"),
            Escape::Byte(byte) => {
                self.push(" ESCAPE '")?;
                self.out.push(char::from(byte))?;
                self.push("'")
            }
        }
    }

    fn test(&mut self, test: &Test) -> Printed {
        match test {
            Test::Truth(x) => self.operand(x),
            Test::Compare(comparison, left, right) => self.two(left, sign_of(*comparison), right),
            Test::Distinct(left, right) => self.two(left, " IS DISTINCT FROM ", right),
            Test::IsNull(x) => {
                self.operand(x)?;
                self.push(" IS NULL")
            }
            Test::Between(x, lower, upper) => self.between(x, " BETWEEN ", lower, upper),
            Test::BetweenSymmetric(x, lower, upper) => {
                self.between(x, " BETWEEN SYMMETRIC ", lower, upper)
            }
            Test::In(x, among) => self.member(x, among.as_slice()),
            Test::Like(x, pattern, escape) => {
                self.two(x, " LIKE ", pattern)?;
                self.escape(*escape)
            }
            Test::Other => Ok(()),
        }
    }

    fn leaf(&mut self, leaf: &Leaf) -> Printed {
        if leaf.test.has_operands() && !leaf.test.has_times() {
            return self.test(&leaf.test);
        }
        let source = self.source;
        self.push("(")?;
        self.push(source.get(leaf.start..leaf.end).unwrap_or(""))?;
        self.push(")")
    }

    fn condition(&mut self, condition: &Condition) -> Printed {
        match condition {
            Condition::Leaf(leaf) => self.leaf(leaf),
            Condition::Not(x) => {
                self.push("NOT (")?;
                self.condition(x)?;
                self.push(")")
            }
            Condition::And(left, right) => {
                self.push("(")?;
                self.condition(left)?;
                self.push(") AND (")?;
                self.condition(right)?;
                self.push(")")
            }
            Condition::Or(left, right) => {
                self.push("(")?;
                self.condition(left)?;
                self.push(") OR (")?;
                self.condition(right)?;
                self.push(")")
            }
            Condition::IsNull(x) => {
                self.push("(")?;
                self.condition(x)?;
                self.push(") IS UNKNOWN")
            }
            Condition::IsTrue(x) => {
                self.push("(")?;
                self.condition(x)?;
                self.push(") IS TRUE")
            }
            Condition::IsFalse(x) => {
                self.push("(")?;
                self.condition(x)?;
                self.push(") IS FALSE")
            }
        }
    }
}

/// Returns a condition as text: each part that is joined or tested stands in parentheses, names in
/// double quotes, and literals in one form, a number with a point by an exponent. A leaf with an
/// operand that isn't read, or with a date or a time, stands in parentheses as it does in `source`,
/// the text that the condition was read from.
pub fn print(alloc: Global, source: &str, condition: &Condition) -> Result<String, AllocError> {
    let mut printer = Printer {
        alloc,
        source,
        out: String::new(alloc),
    };
    printer.condition(condition)?;
    let Printer { out, .. } = printer;
    Ok(out)
}
