//! How a dialogue ended.

/// How a dialogue ended: what was taken, and why no more.
#[derive(Clone, Copy, Debug, PartialEq, Eq)]
pub enum Ending<N, C> {
    Done(N),
    Stopped(N, C),
}
