//! What is set up at an instance: its organisations, the keys by which they ask, and its links.
#![tactic(auto)]

mod admin;
mod held_key;
mod key;
mod link;
mod org;
mod role;

pub use admin::Admin;
pub use held_key::HeldKey;
pub use key::{Caller, KeyRecord};
pub use link::Link;
pub use org::{NAME_LIMIT, Org, is_org_name, is_short};
pub use role::{Perm, Role, may};
