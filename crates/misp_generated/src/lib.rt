//! A network of any size, which is made to be tried: its description and script, and the summary of
//! what a run of it writes.
#![tactic(auto)]

mod laws;
mod lines;
mod network;
mod script;
mod summary;
mod text;

pub use laws::the_description_has_no_fault;
pub use script::write_source;
pub use summary::write_summary;
