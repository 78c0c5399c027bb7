//! Reads requests, answers them at an instance, and writes the replies before anything is put.
#![tactic(auto)]

mod administering;
mod answering;
mod asking;
mod command;
mod event_list;
mod exchanging;
mod group_list;
mod laws;
mod limits;
mod managing;
mod path_ids;
mod path_kind;
mod path_part;
mod planned;
mod query;
mod reply;
mod request;
mod route;
mod routes;
mod sending;
mod sessions;
mod telling;
mod turn;

pub use administering::{GroupRequest, administer};
pub use answering::answer;
pub use asking::read_command;
pub use command::Command;
pub use exchanging::{exchange, read_bytes};
pub use laws::a_call_comes_to_what_is_stated;
pub use limits::the_limits_are_as_stated;
pub use query::PageQuery;
pub use reply::{body_in, has_octets, put_number, put_reply, put_text};
pub use request::AskFault;
pub use route::Route;
pub use routes::{Routes, at_most_one_pattern_fits};
pub use sending::{Delivery, refuse};
pub use sessions::{End, SessionEnd, session};
pub use turn::Turn;

/// The most requests of a connection.
pub const MAX_REQUESTS: u32 = 1000;

/// The room that is made before a request is answered, in bytes.
pub const REPLY_ROOM: usize = 4096;

/// The longest text of the reply to a change, in bytes.
pub const CHANGE_TEXT: usize = 1000;
