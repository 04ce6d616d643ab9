//! What was found so far.

use crate::answer::Answer;
use crate::case::{Case, Kind, Question};
use crate::failure::Failure;
use std::alloc::Global;
use std::fmt;
use std::fmt::Write as _;

/// How the answers ended.
#[derive(Clone, Copy, Default)]
pub(crate) struct Counts {
    /// The texts that were asked about.
    texts: u64,
    /// Those that the reader of text refuses, about which nothing is asked.
    unread: u64,
    /// The texts that have a print, and those that have none, once for each kind.
    printed: u64,
    refused: u64,
    /// The pairs that have the same form, and those that haven't.
    alike: u64,
    unlike: u64,
    /// The questions for which memory was refused to trees, and to the rule.
    beyond_trees: u64,
    beyond_rules: u64,
    /// The questions whose answers differ.
    differ: u64,
}

impl Counts {
    /// Counts an answer that both ways give.
    fn count(&mut self, question: Question, answer: &Answer) {
        match answer {
            Answer::Printed(_) => add_one(&mut self.printed),
            Answer::Refused(_) if question == Question::Print => add_one(&mut self.refused),
            Answer::Compared(true) => add_one(&mut self.alike),
            Answer::Compared(false) => add_one(&mut self.unlike),
            _ => {}
        }
    }
}

impl fmt::Display for Counts {
    fn fmt<W: fmt::Write>(&self, f: &mut fmt::Formatter<W>) -> fmt::Result {
        write!(f, "{} texts, {} unread, ", self.texts, self.unread)?;
        write!(f, "{} printed, {} refused, ", self.printed, self.refused)?;
        write!(f, "{} alike, {} unlike, ", self.alike, self.unlike)?;
        write!(
            f,
            "{} beyond trees, {} beyond rules, ",
            self.beyond_trees, self.beyond_rules
        )?;
        write!(f, "{} differ", self.differ)
    }
}

fn add_one(count: &mut u64) {
    *count = count.saturating_add(1);
}

/// What was found so far.
#[derive(Drop)]
pub(crate) struct Tally {
    counts: Counts,
    /// The answers that differ.
    said: String,
}

impl Tally {
    pub(crate) fn new(alloc: Global) -> Tally {
        Tally {
            counts: Counts::default(),
            said: String::new(alloc),
        }
    }

    pub(crate) fn count_text(&mut self) {
        add_one(&mut self.counts.texts);
    }

    pub(crate) fn count_unread(&mut self) {
        add_one(&mut self.counts.unread);
    }

    /// Counts the two answers to a question, and tells of them where they differ.
    pub(crate) fn add(
        &mut self,
        case: &Case<'_>,
        kind: &Kind,
        question: Question,
        by_tree: &Answer,
        by_rule: &Answer,
    ) -> Result<(), Failure> {
        if *by_tree == Answer::Memory {
            add_one(&mut self.counts.beyond_trees);
        } else if *by_rule == Answer::Memory {
            add_one(&mut self.counts.beyond_rules);
        } else if by_tree.is_as_by_rule(by_rule) {
            self.counts.count(question, by_tree);
        } else {
            add_one(&mut self.counts.differ);
            self.note(case, kind, question, by_tree, by_rule)?;
        }
        Ok(())
    }

    fn note(
        &mut self,
        case: &Case<'_>,
        kind: &Kind,
        question: Question,
        by_tree: &Answer,
        by_rule: &Answer,
    ) -> Result<(), Failure> {
        let (line, word, text) = (case.line, kind.word, case.text);
        writeln!(self.said, "line {line}, {word}, {question}, {text:?}")?;
        writeln!(self.said, "    by trees {by_tree}")?;
        writeln!(self.said, "    by the rule {by_rule}")?;
        Ok(())
    }

    /// The answers that differ, and a line of what was counted.
    pub(crate) fn report(mut self) -> Result<String, Failure> {
        let counts = self.counts;
        writeln!(self.said, "{counts}")?;
        Ok(self.said)
    }

    /// Whether nothing differs.
    pub(crate) fn is_clean(&self) -> bool {
        self.counts.differ == 0
    }
}
