//! Events, sharing groups and replies as JSON: what is read, with the first fault, and what is
//! written.
#![tactic(auto)]

mod fault;
mod kinds;
mod reading;
mod writing;

pub use fault::FormatFault;
pub use reading::{
    PartForm, a_group_is_read_from_its_text, read_attribute_edit, read_auth_key, read_event,
    read_event_edit, read_filter, read_group, read_group_text, read_json, read_judgement,
    read_object_edit, read_organisation, read_parts, read_proposal, read_revoked, read_server,
    read_server_edit, read_sighting, read_tag,
};
pub use writing::{
    put_event, put_events, put_groups, put_hits, put_index, write_event, write_group,
    write_refusal, write_saved, write_taken,
};
