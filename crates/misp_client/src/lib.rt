//! What is asked of a peer over HTTP, and what its replies tell.
#![tactic(auto)]

mod call;
mod group_list;
mod laws;
mod manifest;
mod numbers;
mod parcel;
mod reading;

pub use call::{Call, call_bytes};
pub use laws::{
    a_call_comes_to_the_same_at_any_moment, a_call_is_read_back,
    a_call_that_takes_nothing_puts_nothing, a_fault_of_a_peer_is_told_where_its_keeper_failed,
    a_reply_is_read_back, a_reply_suits_its_call,
};
pub use reading::read_answer;
