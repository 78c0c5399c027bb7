//! The tests of what things are and of what is read beside bodies, in a file for each crate.
#![tactic(auto)]

#[cfg(test)]
mod elem;
#[cfg(test)]
mod http;
#[cfg(test)]
#[cfg(test)]
mod outside;
#[cfg(test)]
mod records;
#[cfg(test)]
mod script;
#[cfg(test)]
mod values;
#[cfg(test)]
mod words;
