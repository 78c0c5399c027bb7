//! What a proposal, a verdict or a sighting writes, or the rule that refuses it.
#![tactic(auto)]

mod accepting;
mod admitting;
mod judging;
mod proposing;
mod seeing;
mod sighting;
mod targets;

pub use judging::judge;
pub use proposing::propose;
pub use sighting::sight;
