//! Keys, rows and drafts, and the bytes that spell them.
#![tactic(auto)]

mod ancestry;
mod content;
mod copying;
mod draft;
mod facts;
mod fault;
mod key;
mod key_list;
mod order;
mod reading;
mod row;
mod shared;
mod visible;
mod writing;

pub use ancestry::parents;
pub use content::{
    AttributeBody, Content, EventBody, ObjectBody, ProposalBody, ReferenceBody, SightingBody, Tag,
};
pub use draft::{Draft, EventDraft, ReferenceDraft, Submission};
pub use facts::uuid_at;
pub use fault::DecodeFault;
pub use key::{Key, KeyForm, Place, ProposalName};
pub use key_list::Parents;
pub use misp_dates::Moment;
pub use misp_ids::NoMemory;
pub use order::compare_keys;
pub use reading::{decode, decode_key, decode_on_wire};
pub use row::{Row, RowFields};
pub use shared::Shared;
pub use visible::{VisibleAttribute, VisibleEvent, VisibleObject};
pub use writing::{encode, encode_key, encode_name, put_key};
