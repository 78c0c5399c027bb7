//! The dates of the calendar and moments: which texts name one, and their texts.
#![tactic(auto)]

mod clock;
mod date;
mod day;
mod form;
mod moment;
mod reading;
mod writing;

pub use date::{date_of, the_date_of_a_moment_is_a_date};
pub use form::is_date;
pub use moment::{LAST_MICROSECOND, Moment};
pub use reading::the_text_of_a_moment_reads_back;
