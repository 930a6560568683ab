//! Moments of time: ISO texts and time forms, by day numbers.
#![tactic(auto)]

mod days;
mod form;
mod iso;
mod iso_moment;
mod iso_text;
mod local_time;
mod print;
mod range;

pub use form::{Form, OutOfRange};
pub use iso_moment::{NotDate, read_moment};
pub use iso_text::IsoText;
pub use local_time::LocalTime;
pub use print::print_moment;
