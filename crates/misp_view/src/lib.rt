//! What an organisation sees of one event, and which groups concern it.
#![tactic(auto)]

mod attributes;
mod choice;
mod form;
mod inside;
mod kinds;
mod listing;
mod naming;
mod objects;
mod order;
mod parts;
mod statements;

pub use choice::chosen;
pub use form::{shown, shown_owner};
pub use listing::concerning;
pub use naming::{group_names, hit_names};
