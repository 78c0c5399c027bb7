//! The erasure: nothing that an organisation was never granted changes what it is told.
#![tactic(auto)]

mod promise;

pub use promise::{erasure, erasure_of_any_closed_set, kept_keys_are_the_least};
