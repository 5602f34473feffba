// A sheet is work in progress; a book is a finished sheet. Each is moved into the other, and neither has the other's calls.
// What both can do is written once, in `Work`; the two are types of their own, so that a misuse names the one it met.
// A call behind `&mut` says that the chart is as it was, since it could have changed.
use crate::work::Work;

// Texts are entered on a sheet and rounds are made; lines can be asked about at any time.
#[derive(Drop)]
pub struct Sheet<C> {
    pub(crate) chart: C,
    pub(crate) work: Work,
}

// A finished sheet: it can be read and reported, and reopened as the sheet it was.
#[derive(Drop)]
pub struct Book<C> {
    pub(crate) chart: C,
    pub(crate) work: Work,
}
