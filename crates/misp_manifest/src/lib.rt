//! What a manifest says of an event, and which rows of a package are wanted.
#![tactic(auto)]

mod manifest;
mod wanted;

pub use manifest::{KeyStamp, ManifestEvent, ManifestFields};
pub use wanted::{Wanted, WantedFields};
