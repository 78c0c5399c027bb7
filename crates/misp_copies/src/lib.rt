//! The copies of an event: what is granted and known of its rows, what an owner has there, and the
//! sets and lists by which that is found.
#![tactic(auto)]

mod above;
mod barring;
mod change_fault;
mod copies;
mod copy_view;
mod element_set;
mod granting;
mod grants;
mod keys;
mod knowing;
mod laws;
mod own;
mod renewing;
mod rows;
mod statements_by_key;
mod statements_by_target;
mod states;
mod table;
mod uuids;
mod viewer;

pub use barring::{may_change, may_delete};
pub use change_fault::ChangeFault;
pub use copies::{has_copy, has_gone, has_home};
pub use copy_view::{CopyView, seen};
pub use element_set::{ElementSet, has_element};
pub use granting::{is_granted, live, row_granted};
pub use grants::{Grants, are_linked};
pub use keys::{are_same, element_key, event_key};
pub use knowing::known;
pub use laws::a_copy_takes_what_is_welcome;
pub use own::{event_row, has_live, own_row, sees_event};
pub use renewing::{finished, is_too_long, label_of};
pub use rows::{
    copies_of, copy, is_before, is_itself, is_open, is_owned, is_row_of, is_row_of_event,
    is_same_org,
};
pub use statements_by_key::StatementsByKey;
pub use statements_by_target::StatementsByTarget;
pub use states::{CopyState, is_event_row, is_made_at, state, takes};
pub use uuids::{is_used, own_uuid};
pub use viewer::Viewer;
