//! The kinds of the rows of items.

pub(crate) const ORG_KIND: u8 = 2;

pub(crate) const KEY_KIND: u8 = 3;

pub(crate) const LINK_KIND: u8 = 4;
