//! A wire to an instance of this process.

ghost use Rattle.std.specs.Prelude.{◌≡◌, ◌≤◌, None, Some, [], ◌∷◌, Err, IfOk, MatchResult, OnErr, Ok};
ghost use Rattle.misp_outside.specs.Causes.{HasCause, StaysUnless};
ghost use Rattle.misp_outside.specs.Reporting.{WhereReported};
ghost use Rattle.misp_http.specs.Reading.{IsRead};
ghost use Rattle.misp_http.specs.declared.request.Read.{Read as WasRead};
ghost use Rattle.misp_api.specs.Exchange.{IsExchanged, IsLeftSo};
ghost use Rattle.misp_api.specs.Answering.{IsSync};
ghost use Rattle.misp_api.specs.Sending.{read_form};
ghost use Rattle.misp_core.specs.Standing.{host_of};
ghost use Rattle.misp_dialogue.specs.Parties.{GrowsBy};
ghost use Rattle.misp_sync.specs.Wire.{IsSameHost, IsUnanswered};

use misp_api::{Routes, a_call_comes_to_what_is_stated, exchange};
use misp_client::a_call_is_read_back;
use misp_core::Instance;
use misp_ids::Stamp;
use misp_outside::{Carry, Keeper, WireFault};
use misp_sync::Wire;
use std::alloc::Global;

/// A wire to an instance of this process, over what carries bytes. Whatever goes over it is of one
/// moment.
#[derive(Drop)]
pub struct OverCarry<'a, K: Keeper, C: Carry> {
    routes: &'a Routes,
    peer: &'a mut Instance<K>,
    now: Stamp,
    word: u128,
    carry: &'a mut C,
}

impl<'a, K: Keeper, C: Carry> OverCarry<'a, K, C> {
    /// A wire to this instance.
    pub fn new(
        routes: &'a Routes,
        peer: &'a mut Instance<K>,
        now: Stamp,
        word: u128,
        carry: &'a mut C,
    ) -> OverCarry<'a, K, C>
        ensures peer { result.peer.ghost_name ≡ peer.entry.ghost_name }
        ensures carry { result.carry.ghost_name ≡ carry.entry.ghost_name }
        ensures held { result.peer.now ≡ peer.old }
        ensures passed { result.carry.now ≡ carry.old }
    {
        OverCarry {
            routes,
            peer,
            now,
            word,
            carry,
        }
    }

    // Carries the one request that the bytes are to the instance, and its reply back.
    fn exchanged(&mut self, alloc: Global, bytes: &[u8]) -> Result<Vec<u8>, WireFault>
        ensures answered { (read : WasRead) → IsRead bytes.now (Ok read) (Some []) →
            IfOk result (λ reply. IsExchanged self.old.now self.old.word read
            self.old.peer.now self.new.peer.now reply.items) }

        // Where no reply comes, what is held is as it was, or what some reply leaves.
        ensures left { (read : WasRead) → IsRead bytes.now (Ok read) (Some []) →
            OnErr result (WhereReported self.old.peer.now.held self.new.peer.now.held
            (IsLeftSo self.old.now (read_form (host_of self.old.peer.now) self.old.word read)
            self.old.peer.now)) }

        // What a synchronisation asks leaves the instance what it was.
        ensures same { (read : WasRead) → IsRead bytes.now (Ok read) (Some []) →
            IsSync (read_form (host_of self.old.peer.now) self.old.word read) →
            IsSameHost self.old.peer.now self.new.peer.now }
        ensures silent { self.old.peer.now.held ≡ None → self.new.peer.now.held ≡ None }
        ensures later { self.old.peer.now.faults ≤ self.new.peer.now.faults }
        ensures told { GrowsBy (C.passed self.old.carry.now) (C.passed self.new.carry.now)
            (λ more. MatchResult result (λ reply. more ≡ bytes.now ∷ reply.items ∷ [])
            (λ _. IsUnanswered bytes.now more)) }
        ensures peer { self.new.peer.ghost_name ≡ self.old.peer.ghost_name }
        ensures carry { self.new.carry.ghost_name ≡ self.old.carry.ghost_name }
        ensures cause { HasCause (C.faults self.old.carry.now) (C.faults self.new.carry.now)
            (result ≡ Err WireFault.Failed) }
        ensures stays { StaysUnless (C.faults self.old.carry.now) (C.faults self.new.carry.now)
            (result ≡ Err WireFault.Failed) }
    {
        let sent = self.carry.pass(alloc, bytes)?;
        let replied = exchange(alloc, self.routes, self.peer, self.now, self.word, sent);
        match replied {
            Ok(reply) => self.carry.pass(alloc, &reply),
            Err(_) => Err(WireFault::NoMemory),
        }
    }
}

impl<K: Keeper, C: Carry> Wire for OverCarry<'_, K, C> {
    ghost peer = { λ w. Some w.peer.now };

    ghost through = { λ w. w.peer.ghost_name ∷ w.carry.ghost_name ∷ [] };

    ghost trail = { λ w. C.passed w.carry.now };

    ghost faults = { λ w. C.faults w.carry.now };

    fn ask(&mut self, alloc: Global, bytes: &[u8]) -> Result<Vec<u8>, WireFault> {
        self.peer.holds_sound_rows();
        self.peer.has_owners();
        a_call_is_read_back();
        a_call_comes_to_what_is_stated();
        self.exchanged(alloc, bytes)
    }
}
