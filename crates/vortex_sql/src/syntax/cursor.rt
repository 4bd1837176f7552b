//! A place in a text, word by word.
use crate::syntax::error::ParseError;
use crate::syntax::keyword::is_same;
use crate::syntax::token::{Kind, Token, between, next};
use std::alloc::Global;

/// How a name with a dot in it is read.
#[derive(Clone, Copy, Debug, PartialEq, Eq)]
pub enum Names {
    /// It isn't read.
    Plain,
    /// A name of several parts, whose last one is the column.
    Last,
}

/// A place in a text: the word or sign that follows, and where the last one ended.
#[derive(Clone, Copy)]
pub(crate) struct Cursor<'a> {
    pub alloc: Global,
    pub names: Names,
    text: &'a [u8],
    token: Token,
    end: usize,
}

impl<'a> Cursor<'a> {
    /// Returns the beginning of a text.
    pub fn new(alloc: Global, names: Names, text: &'a [u8]) -> Cursor<'a> {
        Cursor {
            alloc,
            names,
            text,
            token: next(text, 0),
            end: 0,
        }
    }

    /// Returns how many bytes the text has.
    pub fn len(&self) -> usize {
        self.text.len()
    }

    /// Returns where the next word or sign begins.
    pub fn start(&self) -> usize {
        self.token.start
    }

    /// Returns where the last word or sign ended.
    pub fn end(&self) -> usize {
        self.end
    }

    /// Returns what the next word or sign is.
    pub fn kind(&self) -> Kind {
        self.token.kind
    }

    /// Goes past the next word or sign.
    pub fn take(&mut self) {
        let is_text = self.sees(Kind::String);
        self.end = self.token.end;
        self.token = next(self.text, self.token.end);
        if is_text && self.sees(Kind::String) {
            self.token.kind = Kind::Adjacent;
        }
    }

    /// Tells whether the next word or sign is of a kind.
    pub fn sees(&self, kind: Kind) -> bool {
        self.token.kind == kind
    }

    /// Returns the bytes of the next word or sign.
    pub fn spelling(&self) -> &'a [u8] {
        between(self.text, self.token.start, self.token.end)
    }

    /// Tells whether the next word is a keyword.
    pub fn sees_word(&self, keyword: &[u8]) -> bool {
        self.sees(Kind::Word) && is_same(self.spelling(), keyword)
    }

    /// Goes past the next word or sign if it is of a kind.
    pub fn eat(&mut self, kind: Kind) -> bool {
        let found = self.sees(kind);
        if found {
            self.take();
        }
        found
    }

    /// Goes past the next word if it is a keyword.
    pub fn eat_word(&mut self, keyword: &[u8]) -> bool {
        let found = self.sees_word(keyword);
        if found {
            self.take();
        }
        found
    }

    /// Returns why the next word or sign can't stand here.
    pub fn refuse(&self) -> ParseError {
        let at = self.token.start;
        match self.token.kind {
            Kind::Unclosed => ParseError::Unclosed(at),
            Kind::Comment => ParseError::Comment(at),
            Kind::Prefixed => ParseError::Prefixed(at),
            Kind::Dollar => ParseError::Dollar(at),
            Kind::Glued => ParseError::Glued(at),
            Kind::Adjacent => ParseError::Adjacent(at),
            _ => ParseError::Unexpected(at),
        }
    }

    /// Goes past a sign, or refuses what stands there.
    pub fn expect(&mut self, kind: Kind) -> Result<(), ParseError> {
        if self.eat(kind) {
            Ok(())
        } else {
            Err(self.refuse())
        }
    }

    /// Goes past a keyword, or refuses what stands there.
    pub fn expect_word(&mut self, keyword: &[u8]) -> Result<(), ParseError> {
        if self.eat_word(keyword) {
            Ok(())
        } else {
            Err(self.refuse())
        }
    }

    // Whether no text goes on here, or it would end elsewhere in SQL.
    fn is_stopped(&self) -> bool {
        matches!(
            self.token.kind,
            Kind::End
                | Kind::Unclosed
                | Kind::Comment
                | Kind::Prefixed
                | Kind::Dollar
                | Kind::Glued
                | Kind::Adjacent
                | Kind::Bad
        )
    }

    /// Goes past the parenthesis that closes one that was taken.
    pub fn skip_group(&mut self) -> Result<(), ParseError> {
        let mut open: usize = 1;
        for _turn in 0..self.text.len() {
            if self.is_stopped() {
                return Err(self.refuse());
            }
            match self.token.kind {
                Kind::Open => open = open.saturating_add(1),
                Kind::Close => open = open.saturating_sub(1),
                _ => {}
            }
            self.take();
            if open == 0 {
                return Ok(());
            }
        }
        Err(self.refuse())
    }

    // Takes a group, or one word or sign that isn't a parenthesis.
    fn skip_one(&mut self) -> Result<(), ParseError> {
        if self.is_stopped() || self.sees(Kind::Close) {
            return Err(self.refuse());
        }
        if self.eat(Kind::Open) {
            return self.skip_group();
        }
        self.take();
        Ok(())
    }

    /// Goes past the END of a CASE that was taken, which is no part of a name.
    pub fn skip_case(&mut self) -> Result<(), ParseError> {
        if self.sees(Kind::Dot) {
            return Err(self.refuse());
        }
        let mut open: usize = 1;
        for _turn in 0..self.text.len() {
            if self.sees_word(b"case") {
                open = open.saturating_add(1);
            } else if self.sees_word(b"end") {
                open = open.saturating_sub(1);
            }
            self.skip_one()?;
            if open == 0 {
                return Ok(());
            }
        }
        Err(self.refuse())
    }
}
