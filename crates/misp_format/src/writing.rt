//! Writing the texts of events, groups and replies.

mod element;
mod event;
mod found;
mod group;
mod group_names;
mod keys;
mod listed;
mod replies;
mod statement;
mod writer;

pub use event::{put_event, write_event};
pub use found::{put_events, put_hits, put_index};
pub use group::{put_groups, write_group};
pub use replies::{write_refusal, write_saved, write_taken};
