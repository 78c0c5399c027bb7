//! What comes next in a dialogue.

use crate::side::Side;

/// What comes next in a dialogue.
#[derive(Drop)]
pub enum Turn<Q, C> {
    /// Nothing more, or nothing more because of this.
    Over(Option<C>),
    /// This is asked of a party.
    Ask(Side, Q),
}
