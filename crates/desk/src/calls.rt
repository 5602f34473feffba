// The calls that a desk takes, and the events that tell of them.
use basis::Refusal;
use ctl::Verdict;
use sheet::Counts;

#[derive(Clone, Copy)]
pub enum Call<'a> {
    // names and a text
    Enter(&'a [u8], &'a [u8]),
    // rounds asked for
    Advance(u16),
    // a line and a mode
    Ask(usize, u16),
    Count,
    // a line, a mode, and how many modes may be shown
    Show(usize, u16, usize),
    Clear,
    Finish,
    Reopen,
}

// The modes of a path that was shown, and the place to which the last one returns, if it does.
#[derive(Drop)]
pub struct Path {
    pub modes: Vec<u16>,
    pub returns: Option<usize>,
}

// A call and its answer.
#[derive(Drop)]
pub enum Event<'a> {
    Entered(&'a [u8], &'a [u8], Result<usize, Refusal>),
    // rounds asked for, and rounds made
    Advanced(u16, u16),
    Asked(usize, u16, Result<Verdict, Refusal>),
    Counted(Counts),
    Shown(usize, u16, usize, Result<Path, Refusal>),
    Cleared,
    // rounds made
    Finished(usize),
    Reopened,
    // a call that the sheet, or the book, does not have
    Barred(Call<'a>),
}
