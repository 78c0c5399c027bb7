//! Which values an attribute of a type may have, and the form in which each is kept.
#![tactic(auto)]

mod address;
mod fault;
mod forms;
mod kinds;
mod numbers;
mod values;

pub use fault::ValueFault;
pub use values::check;
