//! Runs dialogues: who asks which party what, and what comes of the replies.
#![tactic(auto)]

mod conversing;
mod ending;
mod leader;
mod party;
mod side;
mod turn;

pub use conversing::converse;
pub use ending::Ending;
pub use leader::Leader;
pub use party::Party;
pub use side::Side;
pub use turn::Turn;
