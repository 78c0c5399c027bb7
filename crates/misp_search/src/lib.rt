//! Filters and pages: which attributes of what an organisation sees are asked for, and which of
//! those stand on a page.
#![tactic(auto)]

mod fitting;
mod names;
mod paging;
mod searching;
mod window;
mod wishes;

pub use fitting::Filter;
pub use paging::Page;
pub use searching::Search;
pub use window::Window;
