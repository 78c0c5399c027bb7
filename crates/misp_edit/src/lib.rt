//! What a change of events writes, and the rules that refuse it.
#![tactic(auto)]

mod adding;
mod attribute_editing;
mod barring;
mod belonging;
mod clash;
mod contents;
mod deleting;
mod event_deleting;
mod event_editing;
mod extending;
mod fault;
mod labels;
mod laws;
mod object_editing;
mod objects;
mod reference_deleting;
mod refusing;
mod rows;
mod rule_names;
mod tagging;
mod tags;
mod targets;

pub use adding::add_event;
pub use attribute_editing::edit_attribute;
pub use deleting::delete;
pub use event_deleting::delete_event;
pub use event_editing::edit_event;
pub use extending::add_parts;
pub use fault::AddFault;
pub use laws::refusals_name_what_they_refuse;
pub use misp_copies::ChangeFault;
pub use object_editing::edit_object;
pub use reference_deleting::delete_reference;
pub use rule_names::rule_name;
pub use tagging::{tag, untag};
