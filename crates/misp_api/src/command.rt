//! What requests are.

use misp_admins::AdminAsk;
use misp_groups::Group;
use misp_ids::Items;
use misp_model::Ask;

/// What a request is, whoever it comes from.
#[derive(Drop)]
pub enum Command {
    Asks(Ask),
    /// Takes what is new of groups that are handed in.
    TakesGroups(Items<Group>),
    /// Adds a group, or edits the one of its name.
    Shares { add: bool, group: Group },
    /// What a site administrator asks.
    Manages(AdminAsk),
}
