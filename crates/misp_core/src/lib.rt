//! An instance: it plans requests over the rows of its keeper, by what is known to the caller, and
//! puts what is planned.
#![tactic(auto)]

mod administering;
mod ahead;
mod answering;
mod by_event;
mod callers;
mod changing;
mod decide;
mod handing_in;
mod instance;
mod kept_landing;
mod laws;
mod listing;
mod managing;
mod manifest;
mod naming;
mod opening;
mod planning;
mod pulling;
mod pushing;
mod reading;
mod reply;
mod saving;
mod searching;
mod settling;
mod sharing;
mod site;
mod stating;
mod synced;
mod taking;
mod taking_groups;
mod wanting;

pub use instance::Instance;
pub use laws::{
    a_refused_request_writes_nothing, a_request_is_replied_without_its_number,
    an_instance_answers_by_the_history, an_instance_is_administered_by_the_history,
    groups_are_handed_in_by_the_history,
};
pub use managing::items_are_made_by_the_history;
pub use misp_store::LoadFault;
pub use planning::{Batch, NoPlan, Plan};
pub use reply::{Answer, EventParts, Hits, Reply};
pub use sharing::groups_are_shared_by_the_history;
