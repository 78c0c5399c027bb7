//! Synchronises an instance with a peer.
#![tactic(auto)]

mod dialling;
mod keeping_wire;
mod laws;
mod over_dial;
mod over_wire;
mod own;
mod own_answers;
mod reply;
mod synchronising;
mod wire;

pub use dialling::synchronise_at;
pub use keeping_wire::{KeepingWire, WireAsk};
pub use laws::{
    a_pull_asks_for_what_is_wanted, a_pull_leaves_what_was_held_and_what_passes,
    a_second_pull_takes_nothing, an_instance_pulls_by_the_history,
    an_instance_pushes_by_the_history, what_is_asked_goes_to_one_address, what_is_sent_was_granted,
};
pub use misp_protocol::SyncCount;
pub use over_dial::OverDial;
pub use over_wire::OverWire;
pub use own::Own;
pub use reply::SyncReply;
pub use synchronising::{synchronise, usable};
pub use wire::Wire;
