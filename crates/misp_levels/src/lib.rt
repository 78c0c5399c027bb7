//! What becomes of a label on the way.
#![tactic(auto)]

mod laws;
mod level;

pub use laws::{
    a_hop_is_one_step_down, a_hop_more_lands_on_its_way, no_hop_raises_a_label, steps_down_add_up,
};
pub use level::{down, hop, landed};
