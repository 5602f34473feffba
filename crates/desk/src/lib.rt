// The desk: any succession of calls on a sheet, or the book it became, with a log of their answers and a promise over
// the whole of it.
#![tactic(auto)]

pub mod calls;
pub mod carrying;
pub mod desks;
pub mod examples;
pub mod session;
pub mod tasks;

pub use calls::{Call, Event, Path};
pub use desks::{Desk, Session, Step};
pub use session::perform;
pub use tasks::Task;
