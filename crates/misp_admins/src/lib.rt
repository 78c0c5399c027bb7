//! What site administrators ask while an instance runs, and what it makes of the administration.
#![tactic(auto)]

mod ask;
mod deciding;
mod held_item;
mod item;
mod laws;
mod lists;
mod room;

pub use ask::{AdminAsk, LinkEdit};
pub use deciding::decide;
pub use item::Item;
pub use laws::{an_item_more_is_put, nothing_made_changes_nothing};
pub use room::Room;
