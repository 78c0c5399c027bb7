//! The top call: reads a source, runs its script over the keepers, or serves or synchronises one of
//! its instances, and writes the lines.
#![tactic(auto)]

mod checking;
mod entry;
mod fault;
mod hosting;
mod laws;
mod reading;
mod running;
mod serving;
mod status;
mod synchronising;

pub use entry::run;
pub use laws::instances_over_empty_keepers_open_with_nothing;
pub use status::Status;

/// The most bytes that a source may have.
pub const MAX_SOURCE: usize = 67_108_864;

/// The fewest keepers over which a script may be run.
pub const KEEPERS: usize = 16;
