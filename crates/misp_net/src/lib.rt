//! Runs a script of requests over the instances of a description.
#![tactic(auto)]

mod laws;
mod lending;
mod line;
mod net;
mod over_carry;
mod places;
mod requesting;
mod sessions;
mod synced;
mod syncing;

pub use laws::{a_script_has_one_list_of_acts, empty_keepers_open_as_described};
pub use lending::sync_between;
pub use line::Output;
pub use net::run_net;
pub use over_carry::OverCarry;
pub use places::{NetFault, close_first, open_first};
pub use synced::put_synced_line;
