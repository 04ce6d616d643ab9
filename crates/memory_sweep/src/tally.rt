//! What was found so far.

use crate::ends::{End, Run};
use crate::failure::Failure;
use std::alloc::Global;
use std::fmt;
use std::fmt::Write as _;

/// How runs ended.
#[derive(Clone, Copy, Default)]
pub(crate) struct Counts {
    runs: u64,
    /// Those that answered that memory is refused.
    memory: u64,
    /// Those that were refused a request, and answered the right thing all the same.
    again: u64,
    wrong: u64,
}

impl Counts {
    fn add(&mut self, other: &Counts) {
        self.runs = self.runs.saturating_add(other.runs);
        self.memory = self.memory.saturating_add(other.memory);
        self.again = self.again.saturating_add(other.again);
        self.wrong = self.wrong.saturating_add(other.wrong);
    }
}

impl fmt::Display for Counts {
    fn fmt<W: fmt::Write>(&self, f: &mut fmt::Formatter<W>) -> fmt::Result {
        write!(f, "{} runs, {} memory, ", self.runs, self.memory)?;
        write!(f, "{} again, {} wrong", self.again, self.wrong)
    }
}

fn add_one(count: &mut u64) {
    *count = count.saturating_add(1);
}

/// What was found so far.
#[derive(Drop)]
pub(crate) struct Tally {
    /// The number of the line, and the call that is being made.
    line: u64,
    call: &'static str,
    /// How its runs ended, and those of all calls before it.
    counts: Counts,
    all: Counts,
    calls: u64,
    /// The lines of what was found.
    said: String,
}

impl Tally {
    pub(crate) fn new(alloc: Global) -> Tally {
        Tally {
            line: 0,
            call: "",
            counts: Counts::default(),
            all: Counts::default(),
            calls: 0,
            said: String::new(alloc),
        }
    }

    pub(crate) fn begin_line(&mut self) {
        add_one(&mut self.line);
    }

    pub(crate) fn begin(&mut self, call: &'static str) {
        self.call = call;
        self.counts = Counts::default();
    }

    /// Counts the run of the call whose request of this number was to be refused.
    pub(crate) fn add(&mut self, number: usize, run: &Run) -> Result<(), Failure> {
        add_one(&mut self.counts.runs);
        match run.end {
            End::Right if run.is_refused => add_one(&mut self.counts.again),
            End::Right => {}
            End::Memory if run.is_refused => add_one(&mut self.counts.memory),
            End::Memory => self.add_wrong(number, "memory refused, and no request was")?,
            End::Wrong(why) => self.add_wrong(number, why)?,
        }
        Ok(())
    }

    /// Counts a wrong run, and tells of it where it is the call's first.
    pub(crate) fn add_wrong(&mut self, number: usize, why: &str) -> Result<(), Failure> {
        if self.counts.wrong == 0 {
            let (line, call) = (self.line, self.call);
            writeln!(self.said, "wrong {line} {call}: request {number}, {why}")?;
        }
        add_one(&mut self.counts.wrong);
        Ok(())
    }

    /// The call has no more runs.
    pub(crate) fn end(&mut self) -> Result<(), Failure> {
        let (line, call, counts) = (self.line, self.call, self.counts);
        if counts.again > 0 {
            let (again, runs) = (counts.again, counts.runs);
            writeln!(self.said, "again {line} {call}: {again} of {runs} runs")?;
        }
        add_one(&mut self.calls);
        self.all.add(&counts);
        self.counts = Counts::default();
        Ok(())
    }

    /// Tells of a line whose text isn't read as the type that it names.
    pub(crate) fn report_broken(&mut self) -> Result<(), Failure> {
        let line = self.line;
        add_one(&mut self.all.wrong);
        writeln!(self.said, "wrong {line} input: not read as what it names")?;
        Ok(())
    }

    /// The lines of what was found, and one of what was counted.
    pub(crate) fn report(mut self) -> Result<String, Failure> {
        let (calls, all) = (self.calls, self.all);
        writeln!(self.said, "{calls} calls, {all}")?;
        Ok(self.said)
    }

    /// Whether nothing is wrong.
    pub(crate) fn is_clean(&self) -> bool {
        self.all.wrong == 0
    }
}
