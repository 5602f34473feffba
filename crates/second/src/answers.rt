// Comparing answers: those of a book with the second checker's, and those after each single round with the book's.
use crate::comparing::Comparison;
use crate::decision::Decision;
use crate::difference::{Difference, Told};
use crate::log::Subject;
use chart::Chart;
use sheet::{Book, Sheet};
use std::alloc::AllocError;

// Whether an answer after a round is the book's. After the last round nothing may be pending, before that it may.
fn is_borne_out(told: Told, settled: Told, last: bool) -> bool {
    match told {
        Told::Pending => !last,
        _ => told.is_settled() && told == settled,
    }
}

// The sheet, the book and the subject are named at each call, since they differ from call to call.
impl<C: Chart> Comparison<'_, C> {
    // The book's answers of a text's line, at every mode.
    pub(crate) fn compare_answers(
        &mut self,
        book: &Book<&C>,
        subject: Subject<'_>,
        decision: &Decision,
    ) -> Result<(), AllocError> {
        for mode in 0..self.graph.chart.modes() {
            let holds = decision.holds(mode);
            let expected = Told::from(holds);
            let told = Told::from(book.ask(subject.line, mode));
            self.log.note_answer(holds);
            if told != expected {
                self.log
                    .differ(subject, mode, Difference::Answer { expected, told })?;
            }
        }
        Ok(())
    }

    // The sheet's answers of one line at every mode, after a round.
    fn compare_line(
        &mut self,
        sheet: &Sheet<&C>,
        book: &Book<&C>,
        last: bool,
        subject: Subject<'_>,
    ) -> Result<(), AllocError> {
        let modes = self.graph.chart.modes();
        let mut count: u64 = 0;
        for mode in 0..modes {
            let told = Told::from(sheet.ask(subject.line, mode));
            let expected = Told::from(book.ask(subject.line, mode));
            if told.is_settled() {
                count = count.saturating_add(1);
            }
            if !is_borne_out(told, expected, last) {
                self.log
                    .differ(subject, mode, Difference::Round { expected, told })?;
            }
        }
        self.log
            .note_line(count, u64::from(modes).saturating_sub(count));
        Ok(())
    }

    // Every line's answers after a round.
    fn compare_lines(
        &mut self,
        sheet: &Sheet<&C>,
        book: &Book<&C>,
        last: bool,
        subject: Subject<'_>,
    ) -> Result<(), AllocError> {
        let counts = sheet.count();
        for line in 0..counts.plain.saturating_add(counts.looping) {
            self.compare_line(sheet, book, last, Subject { line, ..subject })?;
        }
        Ok(())
    }

    // Makes single rounds until there is none to make, and compares all answers after each.
    pub(crate) fn compare_rounds(
        &mut self,
        sheet: &mut Sheet<&C>,
        book: &Book<&C>,
        subject: Subject<'_>,
    ) -> Result<(), AllocError> {
        // a `while` would need how many rounds are left, which no call answers; no sheet has as many as these
        for _ in 0..u16::MAX {
            if sheet.advance(1) == 0 {
                break;
            }
            self.compare_lines(sheet, book, false, subject)?;
        }
        self.compare_lines(sheet, book, true, subject)?;
        if sheet.count().rounds != book.count().rounds {
            self.log.differ(subject, 0, Difference::Rounds)?;
        }
        Ok(())
    }
}
