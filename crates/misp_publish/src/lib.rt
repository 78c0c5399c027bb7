//! What a publishing writes, or the rule that refuses it.
#![tactic(auto)]

mod fault;
mod publishing;
mod releasing;

pub use fault::PublishFault;
pub use publishing::publish;
pub use releasing::release;
