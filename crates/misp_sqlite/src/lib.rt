//! A keeper whose rows are in one table of a database, in a file that sqlite3 reads or in memory.
#![tactic(auto)]

mod fault;
mod keeper;
mod loading;
mod named;
mod next;
mod opening;
mod putting;
mod schema;
mod texts;

pub use keeper::SqliteKeeper;
