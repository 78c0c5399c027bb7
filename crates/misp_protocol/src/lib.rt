//! Which requests a synchronisation makes of its source and of its sink, in which order, and how it
//! goes on by each reply.
#![tactic(auto)]

mod cause;
mod count;
mod laws;
mod leader;
mod part_keys;
mod request;

pub use cause::{Body, Cause};
pub use count::{SyncCount, Tally};
pub use laws::{
    a_synchronisation_ends_itself_only_by_a_garbled_reply, each_side_is_asked_its_part,
    every_package_is_handed_in, every_part_of_a_manifest_is_asked_about,
    what_is_wanted_is_asked_for,
};
pub use leader::SyncLeader;
pub use part_keys::{PartKeys, PartKeysFields, parts_listed};
pub use request::{Answer, Request};
