//! How many tokens of each kind there are.
ghost use Rattle.std.specs.Prelude.{◌≡◌, ◌<◌, replicate, OnErr, OnOk};
ghost use Rattle.token_stats.specs.Counts.{nothing, line_number, row_of, table_of, with_token, counted};

use std::alloc::{AllocError, Global};
use syn::token::LitKind;

/// What a token is.
#[derive(Clone, Copy)]
pub(crate) enum Kind {
    /// An identifier that is a name.
    Identifier,
    Keyword,
    Lifetime,
    Mark,
    Literal(LitKind),
    Parentheses,
    Braces,
    Brackets,
}

/// The names of the kinds, in the order of the lines.
const NAMES: [&str; 14] = [
    "identifier",
    "keyword",
    "lifetime",
    "mark",
    "string",
    "byte-string",
    "c-string",
    "byte",
    "character",
    "integer",
    "float",
    "parentheses",
    "braces",
    "brackets",
];

impl Kind {
    /// The number of its line, from 0.
    fn line(self) -> usize
        ensures number { result ≡ line_number self }
        ensures known { result < 14 }
    {
        match self {
            Kind::Identifier => 0,
            Kind::Keyword => 1,
            Kind::Lifetime => 2,
            Kind::Mark => 3,
            Kind::Literal(LitKind::Str) => 4,
            Kind::Literal(LitKind::ByteStr) => 5,
            Kind::Literal(LitKind::CStr) => 6,
            Kind::Literal(LitKind::Byte) => 7,
            Kind::Literal(LitKind::Char) => 8,
            Kind::Literal(LitKind::Int) => 9,
            Kind::Literal(LitKind::Float) => 10,
            Kind::Parentheses => 11,
            Kind::Braces => 12,
            Kind::Brackets => 13,
        }
    }
}

/// The tokens of one kind.
#[derive(Drop)]
pub(crate) struct Row {
    count: u64,
    /// The first of the longest texts.
    longest: String,
}

impl Row {
    /// No token.
    fn new(alloc: Global) -> Row
        ensures { row_of result ≡ nothing }
    {
        Row {
            count: 0,
            longest: String::new(alloc),
        }
    }

    /// One token more, with its text. Where memory is refused the row is as it was.
    fn add(&mut self, alloc: Global, text: &str) -> Result<(), AllocError>
        ensures counted { OnOk result (row_of self.new ≡ with_token text.now (row_of self.old)) }
        ensures refused { OnErr result (self.new ≡ self.old) }
    {
        if self.count == 0 || text.len() > self.longest.len() {
            self.longest = String::from_str(alloc, text)?;
        }
        self.count = self.count.saturating_add(1);
        Ok(())
    }
}

/// How many tokens of each kind there are, and the longest text of each.
#[derive(Drop)]
pub(crate) struct Stats {
    /// In the order of the lines.
    rows: [Row; 14],
    alloc: Global,
}

impl Stats {
    /// No token of any kind.
    pub(crate) fn new(alloc: Global) -> Stats
        ensures { table_of result ≡ replicate 14 nothing }
    {
        let rows = [
            Row::new(alloc),
            Row::new(alloc),
            Row::new(alloc),
            Row::new(alloc),
            Row::new(alloc),
            Row::new(alloc),
            Row::new(alloc),
            Row::new(alloc),
            Row::new(alloc),
            Row::new(alloc),
            Row::new(alloc),
            Row::new(alloc),
            Row::new(alloc),
            Row::new(alloc),
        ];
        Stats { rows, alloc }
    }

    /// One token more of that kind, with its text; the other kinds stay as they are. Where memory is refused, all does.
    pub(crate) fn add(&mut self, kind: Kind, text: &str) -> Result<(), AllocError>
        ensures counted { OnOk result (table_of self.new ≡ counted (table_of self.old) kind text.now) }
        ensures refused { OnErr result (self.new ≡ self.old) }
    {
        self.rows[kind.line()].add(self.alloc, text)
    }

    /// A line for each kind: its name, its count, and, where that isn't 0, the longest text.
    pub(crate) fn lines(&self) -> Result<String, AllocError> {
        let mut out = String::new(self.alloc);
        for (name, row) in NAMES.iter().zip(&self.rows) {
            write!(out, "{name} {}", row.count)?;
            if row.count > 0 {
                write!(out, " {:?}", row.longest.as_str())?;
            }
            out.push('\n')?;
        }
        Ok(out)
    }
}
