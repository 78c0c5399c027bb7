//! Readers of JSON values that take several spellings of one thing, and the words for what a
//! value was needed to be.
#![tactic(auto)]

mod forms;
mod need;
mod numbers;
mod values;

pub use forms::{colour, date, moment};
pub use need::{Need, write_need};
pub use numbers::{number, stamp};
pub use values::{flag, list, member, optional_uuid, text, uuid};
