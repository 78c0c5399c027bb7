//! Descriptions of networks, and the lines of scripts.
#![tactic(auto)]

mod command;
mod description;
mod directory;
mod document;
mod fault;
mod field;
mod host_table;
mod key_table;
mod line;
mod lines;
mod link_table;
mod listed;
mod network;
mod numbers;
mod org_table;
mod pairs;
mod source;
mod step;

pub use description::{Description, Entry};
pub use directory::Directory;
pub use document::{INSTANCE_LIMIT, KEY_LIMIT, LINK_LIMIT, ORG_LIMIT};
pub use fault::{DescFault, DescNeed};
pub use field::BadLine;
pub use line::read_line;
pub use lines::split_line;
pub use network::read_description;
pub use source::split_source;
pub use step::{Command, GroupLine, RawLine, RequestLine, Step, SyncLine};
