// Comparing shown paths: whether one is due, and whether it bears out the answer, step by step.
use crate::comparing::Comparison;
use crate::decision::Decision;
use crate::difference::Difference;
use crate::due::{Due, Fault};
use crate::graph::Graph;
use crate::log::{Log, Subject};
use crate::modes::Modes;
use crate::stop::Stop;
use basis::Refusal;
use chart::Chart;
use sheet::Book;
use std::alloc::AllocError;
use witness::Shown;

// What a place of the buffer holds that no path was laid into; no chart has such a mode.
const BLANK: u16 = 0xABCD;

fn is_blank(places: &[u16]) -> bool {
    places.iter().all(|place| *place == BLANK)
}

// Whether a set has, or has not, every one of the modes.
fn all_are(modes: &[u16], set: &Modes, holds: bool) -> bool {
    modes.iter().all(|mode| set.has(*mode) == holds)
}

// What is asked of a book: a line at a mode, the answer, and the path that is due to bear it out.
#[derive(Clone, Copy)]
struct Case<'a> {
    line: usize,
    mode: u16,
    holds: bool,
    due: Due<'a>,
}

impl<C: Chart> Graph<'_, C> {
    fn has_way(&self, from: u16, to: u16) -> bool {
        self.leads(from, |next| next == to)
    }

    // Whether each mode is a way out of the one before.
    fn has_path(&self, path: &[u16]) -> bool {
        path.iter()
            .zip(path.iter().skip(1))
            .all(|(from, to)| self.has_way(*from, *to))
    }

    // Whether a way leads from the last mode to the return place.
    fn check_return(&self, path: &[u16], last: u16, place: usize) -> Result<(), Fault> {
        match path.get(place) {
            Some(mode) if self.has_way(last, *mode) => Ok(()),
            Some(_) => Err(Fault::NoReturnWay),
            None => Err(Fault::NoReturnPlace),
        }
    }

    // How many modes a path through one set to another has at the fewest; through those that are not in them where the
    // answer is no.
    fn least_modes(
        &self,
        left: &Modes,
        right: &Modes,
        case: Case<'_>,
    ) -> Result<Option<usize>, AllocError> {
        if case.holds {
            self.fewest(left, right, case.mode)
        } else {
            let left = left.others(self.heap)?;
            let right = right.others(self.heap)?;
            self.fewest(&left, &right, case.mode)
        }
    }

    // A path of fewest modes to where the right operand has the answer.
    fn check_arrival(
        &self,
        left: &Modes,
        right: &Modes,
        case: Case<'_>,
        path: &[u16],
    ) -> Result<(), Fault> {
        let Some((last, before)) = path.split_last() else {
            return Err(Fault::Empty);
        };
        if right.has(*last) != case.holds || !all_are(before, left, case.holds) {
            return Err(Fault::OperandAnswer);
        }
        match self.least_modes(left, right, case)? {
            Some(least) if least == path.len() => Ok(()),
            _ => Err(Fault::Length),
        }
    }

    // What is due, of a path that the chart has.
    fn check_due(
        &self,
        case: Case<'_>,
        path: &[u16],
        last: u16,
        returns: Option<usize>,
    ) -> Result<(), Fault> {
        match case.due {
            Due::Nothing => Err(Fault::NotDue),
            Due::Step(operand) => match path {
                [_, next] if operand.has(*next) == case.holds && returns.is_none() => Ok(()),
                _ => Err(Fault::StepAnswer),
            },
            Due::Arrival(_, _) if returns.is_some() => Err(Fault::Returns),
            Due::Arrival(left, right) => self.check_arrival(left, right, case, path),
            Due::Stay(_, right) if !all_are(path, right, case.holds) => Err(Fault::RightAnswer),
            Due::Stay(left, _) if returns.is_none() && left.has(last) != case.holds => {
                Err(Fault::End)
            }
            Due::Stay(_, _) => Ok(()),
        }
    }

    // A shown path: that the chart has it, and that it is what is due.
    fn check_path(
        &self,
        case: Case<'_>,
        path: &[u16],
        returns: Option<usize>,
    ) -> Result<(), Fault> {
        let (Some(first), Some(last)) = (path.first(), path.last()) else {
            return Err(Fault::Empty);
        };
        if *first != case.mode {
            return Err(Fault::Beginning);
        }
        if !self.has_path(path) {
            return Err(Fault::Step);
        }
        if let Some(place) = returns {
            self.check_return(path, *last, place)?;
        }
        self.check_due(case, path, *last, returns)
    }

    // What was shown in a buffer.
    fn check_shown(&self, case: Case<'_>, shown: Shown, buffer: &[u16]) -> Result<(), Fault> {
        let Some((path, rest)) = buffer.split_at_checked(shown.modes) else {
            return Err(Fault::PastBuffer);
        };
        if !is_blank(rest) {
            return Err(Fault::PastPath);
        }
        self.check_path(case, path, shown.returns)
    }

    // Shows the path in a buffer that is one too short.
    fn check_short(&self, book: &mut Book<&C>, case: Case<'_>, needed: usize) -> Result<(), Fault> {
        let mut buffer = vec![in self.heap; BLANK; needed.saturating_sub(1)]?;
        if book.show(case.line, case.mode, &mut buffer) != Err(Refusal::ShortPath(needed)) {
            return Err(Fault::ShortTaken);
        }
        if !is_blank(&buffer) {
            return Err(Fault::ShortWritten);
        }
        Ok(())
    }

    // Shows the path at a mode, where one is due.
    fn check_show(&self, book: &mut Book<&C>, case: Case<'_>, log: &mut Log) -> Result<(), Fault> {
        let room = (self.chart.modes() as usize).saturating_add(3);
        let mut buffer = vec![in self.heap; BLANK; room]?;
        match (book.show(case.line, case.mode, &mut buffer), case.due) {
            (Ok(shown), _) => {
                log.note_path(shown);
                self.check_shown(case, shown, &buffer)?;
                self.check_short(book, case, shown.modes)
            }
            (Err(Refusal::NoSuchPath), Due::Nothing) => {
                log.note_refusal();
                if is_blank(&buffer) {
                    Ok(())
                } else {
                    Err(Fault::RefusedWritten)
                }
            }
            (Err(_), _) => Err(Fault::Refused),
        }
    }
}

impl<C: Chart> Comparison<'_, C> {
    // The paths of a text's line in a book, at every mode.
    pub(crate) fn compare_paths(
        &mut self,
        book: &mut Book<&C>,
        subject: Subject<'_>,
        decision: &Decision,
    ) -> Result<(), Stop> {
        let graph = self.graph;
        for mode in 0..graph.chart.modes() {
            let due = decision.due(mode);
            let case = Case {
                line: subject.line,
                mode,
                holds: decision.holds_under(mode),
                due,
            };
            match graph.check_show(book, case, self.log) {
                Ok(()) => {}
                Err(Fault::Memory) => return Err(Stop::Memory),
                Err(fault) => self
                    .log
                    .differ(subject, mode, Difference::Path { due, fault })?,
            }
        }
        Ok(())
    }
}
