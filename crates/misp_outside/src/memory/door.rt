//! A door in memory.

ghost use Rattle.std.specs.Prelude.{◌≡◌, ◌≤◌, ◌+◌, ◌++◌, Some, [], ◌∷◌, map, false, IfOk, OnErr, IsErr, MatchOption, IsTrue, is_err, if◌then◌else◌, vec_len, vec_capacity};
ghost use Rattle.std.specs.VecDeque.{deque_len};
ghost use Rattle.misp_outside.specs.Causes.{HasCause, StaysUnless};

use super::failing::Failing;
use super::{MemSink, MemSource};
use crate::{Door, DoorFault, NoMemory};
use std::alloc::Global;
use std::collections::VecDeque;

/// A door through which the connections come that it was made with, one after another, and which
/// fails at the calls with the given numbers. What is given back is kept, and there is room for it.
#[derive(Drop)]
pub struct MemDoor {
    coming: VecDeque<(MemSource, MemSink)>,
    out: bool,
    back: Vec<(MemSource, MemSink)>,
    failing: Failing,
    ghost room: { vec_len back + deque_len coming + (if out then 1 else 0) ≤ vec_capacity back },
}

impl MemDoor {
    ghost use Rattle.misp_outside.specs.Doors.{connection_of, door_coming, door_back, door_is_out, door_faults, door_calls, door_failing};

    /// The pairs are to come in their order. The calls of `next` with the numbers `failing`,
    /// counted from 1, fail.
    pub fn new(
        alloc: Global,
        pairs: Vec<(MemSource, MemSink)>,
        failing: Vec<u64>,
    ) -> Result<Self, NoMemory>
        ensures coming { IfOk result (λ door. door_coming door ≡ map connection_of pairs.items) }
        ensures out { IfOk result (λ door. door_is_out door ≡ false) }
        ensures back { IfOk result (λ door. door_back door ≡ []) }
        ensures faults { IfOk result (λ door. door_faults door ≡ 0) }
        ensures calls { IfOk result (λ door. door_calls door ≡ 0) }
        ensures numbers { IfOk result (λ door. door_failing door ≡ failing.items) }
    {
        let back = Vec::with_capacity(alloc, pairs.len())?;
        Ok(MemDoor {
            coming: VecDeque::from(pairs),
            out: false,
            back,
            failing: Failing::at(failing),
        })
    }

    /// The connections that were given back, in that order.
    pub fn back(&self) -> &[(MemSource, MemSink)]
        ensures { map connection_of result.now ≡ door_back self.now }
    {
        &self.back
    }
}

impl Door for MemDoor {
    ghost use Rattle.misp_outside.specs.Doors.{connection_of, door_coming, door_back, door_is_out, door_faults, door_calls, door_failing, door_fails};
    ghost use Rattle.misp_outside.specs.Failing.{one_call_more};

    type From = MemSource;

    type To = MemSink;

    ghost coming = { λ door. Some (door_coming door) };

    ghost back = { λ door. Some (door_back door) };

    ghost is_out = { door_is_out };

    ghost faults = { door_faults };

    fn next(&mut self) -> Result<Option<(Self::From, Self::To)>, DoorFault>
        ensures given { IfOk result (λ given. MatchOption given
            ((door_coming self.old ≡ []) × (door_coming self.new ≡ []))
            (λ ends. door_coming self.old ≡ connection_of ends ∷ door_coming self.new)) }
        ensures out { IfOk result (λ given. MatchOption given
            (door_is_out self.new ≡ door_is_out self.old) (λ _. IsTrue (door_is_out self.new))) }
        ensures err { OnErr result ((door_coming self.new ≡ door_coming self.old)
            × (door_is_out self.new ≡ door_is_out self.old)) }
        ensures back { door_back self.new ≡ door_back self.old }
        ensures cause { HasCause (door_faults self.old) (door_faults self.new) (IsErr result) }
        ensures stays { StaysUnless (door_faults self.old) (door_faults self.new) (IsErr result) }
        ensures fails { is_err result ≡ door_fails self.old }
        ensures calls { door_calls self.new ≡ one_call_more (door_calls self.old) }
        ensures numbers { door_failing self.new ≡ door_failing self.old }
    {
        if self.failing.next() {
            return Err(DoorFault::Failed);
        }
        match self.coming.pop_front() {
            Some(ends) => {
                self.out = true;
                Ok(Some(ends))
            }
            None => Ok(None),
        }
    }

    fn close(&mut self, from: Self::From, to: Self::To)
        requires { IsTrue (door_is_out self.old) }
        ensures back { door_back self.new ≡ door_back self.old ++ connection_of (from, to) ∷ [] }
        ensures out { door_is_out self.new ≡ false }
        ensures coming { door_coming self.new ≡ door_coming self.old }
        ensures faults { door_faults self.new ≡ door_faults self.old }
        ensures calls { door_calls self.new ≡ door_calls self.old }
        ensures numbers { door_failing self.new ≡ door_failing self.old }
    {
        self.back.push((from, to)).unwrap();
        self.out = false;
    }
}
