//! The tests of whole runs.
#![tactic(auto)]

#[cfg(test)]
mod administering;
#[cfg(test)]
mod app;
#[cfg(test)]
mod failing;
#[cfg(test)]
mod halting;
#[cfg(test)]
mod lying;
#[cfg(test)]
mod opening;
#[cfg(test)]
mod outside;
#[cfg(test)]
mod records;
#[cfg(test)]
mod serving;
#[cfg(test)]
mod spoiling;
#[cfg(test)]
mod stopping;
#[cfg(test)]
mod synchronising;
