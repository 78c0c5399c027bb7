//! Organisations, keys and links as a keeper holds them, among the rows of its administration.
#![tactic(auto)]

mod fault;
mod kinds;
mod laws;
mod reader;
mod reading;
mod spelling;

pub use laws::{items_are_held_as_their_rows, rows_are_put_among_their_kind};
pub use reading::read_item;
pub use spelling::item_row;
