//! Requests.

ghost use Rattle.std.specs.Prelude.{◌≡◌};

use crate::fault::Fault;
use misp_ids::{Items, NoMemory, Text};
use std::alloc::{AllocError, AllocFailed};

/// A request.
#[derive(Drop)]
pub struct Request {
    pub method: Text,
    pub target: Text,
    /// The value of its first `Authorization`, where that is a text.
    pub key: Option<Text>,
    pub body: Items<u8>,
    /// Whether it asks to close the connection.
    pub close: bool,
}

/// What was read.
#[derive(Drop)]
pub enum Read {
    Request(Request),
    /// The bytes are refused.
    Refused(Fault),
}

/// Why nothing was read.
#[derive(Clone, Copy, PartialEq, Eq)]
pub enum ReadEnd {
    /// There are no bytes any more.
    Ended,
    /// The bytes ended within a request.
    Cut,
    ReadFault,
    NoMemory,
}

impl From<AllocError> for ReadEnd {
    ghost use Rattle.misp_http.specs.declared.request.ReadEnd.TheVariants.{NoMemory};

    ghost from_gives = { λ _ end. end ≡ NoMemory };

    fn from(_error: AllocError) -> ReadEnd {
        ReadEnd::NoMemory
    }
}

impl<T: Drop> From<AllocFailed<T>> for ReadEnd {
    ghost use Rattle.misp_http.specs.declared.request.ReadEnd.TheVariants.{NoMemory};

    ghost from_gives = { λ _ end. end ≡ NoMemory };

    fn from(_error: AllocFailed<T>) -> ReadEnd {
        ReadEnd::NoMemory
    }
}

impl From<NoMemory> for ReadEnd {
    ghost use Rattle.misp_http.specs.declared.request.ReadEnd.TheVariants.{NoMemory};

    ghost from_gives = { λ _ end. end ≡ NoMemory };

    fn from(_error: NoMemory) -> ReadEnd {
        ReadEnd::NoMemory
    }
}
