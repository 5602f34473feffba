// What was compared, and where the two checkers disagree.
use crate::difference::Difference;
use crate::kind::Kind;
use std::alloc::{AllocError, Global};
use std::fmt;
use witness::Shown;

// The number and kind of a chart, how many texts it is given, and how many parts they mostly have.
#[derive(Clone, Copy)]
pub(crate) struct Trial {
    pub(crate) chart: u32,
    pub(crate) kind: Kind,
    pub(crate) texts: u8,
    pub(crate) few: u16,
}

// What a comparison is about: the chart, the text and its line.
#[derive(Clone, Copy)]
pub(crate) struct Subject<'a> {
    pub(crate) trial: Trial,
    pub(crate) text: &'a str,
    pub(crate) line: usize,
}

// The difference is kept as it is printed.
#[derive(Drop)]
pub(crate) struct Disagreement {
    trial: Trial,
    text: String,
    line: usize,
    mode: u16,
    difference: String,
}

impl fmt::Display for Disagreement {
    fn fmt<W: fmt::Write>(&self, f: &mut fmt::Formatter<W>) -> fmt::Result {
        let Trial { chart, kind, .. } = self.trial;
        let text = self.text.as_str();
        let line = self.line;
        let mode = self.mode;
        let difference = self.difference.as_str();
        write!(
            f,
            "chart {chart} ({kind}) text {text} line {line} mode {mode}: {difference}"
        )
    }
}

// The most disagreements that are kept to be printed; all are counted.
const KEPT: usize = 40;

#[derive(Drop)]
pub(crate) struct Log {
    heap: Global,
    // texts entered, and texts for which a sheet had no room
    pub(crate) texts: u64,
    pub(crate) skipped: u64,
    // answers of a book, and how many were yes
    pub(crate) answers: u64,
    pub(crate) yes: u64,
    // answers told after single rounds, and those told while their line was pending at another mode
    pub(crate) told: u64,
    pub(crate) early: u64,
    // paths, those that return, the most modes of one, and paths rightly refused
    pub(crate) paths: u64,
    pub(crate) returns: u64,
    pub(crate) longest: usize,
    pub(crate) refused: u64,
    pub(crate) disagreements: u64,
    pub(crate) first: Vec<Disagreement>,
}

impl Log {
    pub(crate) fn new(heap: Global) -> Log {
        Log {
            heap,
            texts: 0,
            skipped: 0,
            answers: 0,
            yes: 0,
            told: 0,
            early: 0,
            paths: 0,
            returns: 0,
            longest: 0,
            refused: 0,
            disagreements: 0,
            first: Vec::new(heap),
        }
    }

    // Notes an answer of a book.
    pub(crate) fn note_answer(&mut self, holds: bool) {
        self.answers = self.answers.saturating_add(1);
        if holds {
            self.yes = self.yes.saturating_add(1);
        }
    }

    // Notes how many answers of a line were told after a round, and at how many modes it was pending.
    pub(crate) fn note_line(&mut self, told: u64, pending: u64) {
        self.told = self.told.saturating_add(told);
        if pending > 0 {
            self.early = self.early.saturating_add(told);
        }
    }

    // Notes a path that was shown.
    pub(crate) fn note_path(&mut self, shown: Shown) {
        self.paths = self.paths.saturating_add(1);
        if shown.returns.is_some() {
            self.returns = self.returns.saturating_add(1);
        }
        self.longest = self.longest.max(shown.modes);
    }

    // Notes a path that was rightly refused.
    pub(crate) fn note_refusal(&mut self) {
        self.refused = self.refused.saturating_add(1);
    }

    // Notes a disagreement at a mode; one at none is printed with mode 0.
    pub(crate) fn differ(
        &mut self,
        subject: Subject<'_>,
        mode: u16,
        difference: Difference<'_>,
    ) -> Result<(), AllocError> {
        self.disagreements = self.disagreements.saturating_add(1);
        if self.first.len() < KEPT {
            self.first.push(Disagreement {
                trial: subject.trial,
                text: String::from_str(self.heap, subject.text)?,
                line: subject.line,
                mode,
                difference: format!(in self.heap; "{difference}")?,
            })?;
        }
        Ok(())
    }
}
