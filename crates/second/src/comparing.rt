// Everything that is compared on one chart: texts are entered on a sheet, which is finished; the book's answers and paths
// are held to the second checker's; and on another sheet rounds are made one by one.
use crate::difference::Difference;
use crate::graph::Graph;
use crate::log::{Log, Subject, Trial};
use crate::random::Random;
use crate::stop::Stop;
use crate::texts::draw_text;
use basis::Refusal;
use chart::Chart;
use property::{Parts, read};
use sheet::{Book, Sheet};
use std::alloc::AllocError;

// What is compared on one chart: its graph, the names of its marks, and where it is noted.
#[derive(Drop)]
pub(crate) struct Comparison<'a, C> {
    pub(crate) graph: Graph<'a, C>,
    pub(crate) trial: Trial,
    pub(crate) names: &'a str,
    pub(crate) log: &'a mut Log,
}

// A text on a sheet, and the line that it was answered.
#[derive(Drop)]
struct Entry {
    text: String,
    line: usize,
}

impl Entry {
    fn subject(&self, trial: Trial) -> Subject<'_> {
        Subject {
            trial,
            text: self.text.as_str(),
            line: self.line,
        }
    }
}

impl<'a, C: Chart> Comparison<'a, C> {
    fn blank(&self) -> Result<Sheet<&'a C>, Stop> {
        Sheet::new(self.graph.heap, self.graph.chart).map_err(|_| Stop::Memory)
    }

    // Enters random texts; a text for which there is no room is let go.
    fn enter_texts(
        &mut self,
        random: &mut Random,
        sheet: &mut Sheet<&C>,
    ) -> Result<Vec<Entry>, Stop> {
        let Trial { texts, few, .. } = self.trial;
        let mut entries = Vec::new(self.graph.heap);
        for _ in 0..texts {
            let text = draw_text(self.graph.heap, random, self.graph.chart.marks(), few)?;
            match sheet.enter(self.names.as_bytes(), text.as_bytes()) {
                Ok(line) => {
                    self.log.texts = self.log.texts.saturating_add(1);
                    entries
                        .push(Entry { text, line })
                        .map_err(AllocError::from)?;
                }
                Err(Refusal::SheetFull) => {
                    self.log.skipped = self.log.skipped.saturating_add(1);
                }
                Err(refusal) => return Err(Stop::Refused(refusal)),
            }
        }
        Ok(entries)
    }

    // Enters the same texts again, on another sheet; each has the same line.
    fn enter_again(&mut self, entries: &[Entry], sheet: &mut Sheet<&C>) -> Result<(), Stop> {
        for entry in entries {
            let line = sheet.enter(self.names.as_bytes(), entry.text.as_bytes())?;
            if line != entry.line {
                self.log
                    .differ(entry.subject(self.trial), 0, Difference::Line)?;
            }
        }
        Ok(())
    }

    // The book's answers and paths for one text.
    fn compare_entry(&mut self, book: &mut Book<&C>, subject: Subject<'_>) -> Result<(), Stop> {
        let graph = self.graph;
        let mut parts = Parts::new(graph.heap)?;
        read(
            self.names.as_bytes(),
            graph.chart.marks(),
            subject.text.as_bytes(),
            &mut parts,
        )?;
        let Some(decision) = graph.decide(parts.as_slice())? else {
            self.log.differ(subject, 0, Difference::Parts)?;
            return Ok(());
        };
        self.compare_answers(book, subject, &decision)?;
        self.compare_paths(book, subject, &decision)
    }

    // The answers after each single round on another sheet; a disagreement is told with the last text.
    fn compare_again(&mut self, book: &Book<&C>, entries: &[Entry]) -> Result<(), Stop> {
        let mut sheet = self.blank()?;
        self.enter_again(entries, &mut sheet)?;
        if let Some(entry) = entries.last() {
            self.compare_rounds(&mut sheet, book, entry.subject(self.trial))?;
        }
        Ok(())
    }

    pub(crate) fn compare(&mut self, random: &mut Random) -> Result<(), Stop> {
        let mut sheet = self.blank()?;
        let entries = self.enter_texts(random, &mut sheet)?;
        let mut book = sheet.finish();
        for entry in &entries {
            self.compare_entry(&mut book, entry.subject(self.trial))?;
        }
        self.compare_again(&book, &entries)
    }
}
