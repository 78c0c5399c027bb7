//! What a keeper holds: rows, groups and items as bytes, how they are read within a reach, and how
//! they are put.
#![tactic(auto)]

mod administration;
mod batches;
mod fault;
mod laws;
mod loading;
mod looking;
mod names_sought;
mod naming;
mod reach;
mod renewing;
mod rows;
mod seeking;
mod sharing;
mod uuids_sought;

pub use administration::{HeldAdmin, load_admin};
pub use batches::{spell, spell_item};
pub use fault::LoadFault;
pub use laws::{
    groups_are_held_as_their_rows, items_are_held_beside_the_groups, rows_are_held_as_their_bytes,
};
pub use loading::load;
pub use looking::{at_shown, beside};
pub use reach::Reach;
pub use renewing::renew;
