//! Sharing groups, whom they allow, and the groups of an instance.
#![tactic(auto)]

mod copying;
mod group;
mod groups;
mod laws;
mod opening;
mod planning;
mod room;
mod sharing;

pub use group::{Group, GroupFields, GroupOrg, GroupServer};
pub use groups::{Groups, Taken};
pub use laws::{groups_are_put_in_order, groups_change_as_they_are_administered};
pub use opening::open;
pub use room::Room;
pub use sharing::{allows, carries};
