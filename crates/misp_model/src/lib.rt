//! What an organisation can ask of an instance, and the rules of one moment: what is known, shown,
//! asked, answered and written.
#![tactic(auto)]

mod ask;
mod change;
mod edit;
mod known_rows;
mod laws;
mod looking;
mod looks;
mod one_event;
mod package;
mod parts;
mod permission;
mod place;
mod statement;

pub use ask::Ask;
pub use change::Change;
pub use edit::{
    AttributeEdit, AttributeEditFields, EventEdit, EventEditFields, ObjectEdit, ObjectEditFields,
    Seen,
};
pub use known_rows::known_rows_answer_as_all;
pub use laws::{
    a_manifest_says_what_packages_have, each_key_has_its_own_spelling,
    rows_stand_in_the_order_of_their_bytes, the_first_rule_decides,
};
pub use looking::{a_request_looks_at_no_other_rows, what_is_looked_at_first_says_what_then};
pub use looks::{Look, Looks};
pub use one_event::{
    an_event_is_asked_from_its_own_rows, an_event_is_known_from_its_own_rows,
    an_event_is_seen_from_its_own_rows,
};
pub use package::{Package, PackageFields};
pub use parts::{NewTag, Parts};
pub use permission::{no_permission, permission_for};
pub use place::{AttributePlace, ElementPlace, NamedProposal, TaggedPlace};
pub use statement::{ProposalDraft, ProposalDraftFields, SightingDraft, SightingDraftFields};
