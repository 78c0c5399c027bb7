//! What a synchronisation asks its peer through.

ghost use Rattle.std.specs.Prelude.{◌≡◌, ℕ, List, [], ◌∷◌, Option, Err, MatchResult};
ghost use Rattle.misp_outside.specs.Causes.{HasCause, StaysUnless};
ghost use Rattle.misp_core.specs.Standing.{Standing};
ghost use Rattle.misp_client.specs.Calling.{IsCallable};
ghost use Rattle.misp_client.specs.Calls.{call_text};
ghost use Rattle.misp_client.specs.declared.call.Call.{Call};
ghost use Rattle.misp_dialogue.specs.Parties.{GrowsBy};
ghost use Rattle.misp_sync.specs.Wire.{IsAnswered, IsSamePeer, IsUnanswered, MayBeDone, Meet};

use misp_outside::WireFault;
use std::alloc::Global;

/// Asks a peer.
pub trait Wire {
    /// The peer, where it is of this process.
    ghost peer: { Self → Option Standing };

    /// The references that it asks through, which no ask changes.
    ghost through: { Self → List ℕ };

    /// The bytes that it was asked and those that it was answered, in their order, where it reports
    /// them.
    ghost trail: { Self → Option (List (List ℕ)) };

    /// How often it has failed.
    ghost faults: { Self → ℕ };

    /// Sends the bytes of a request, and answers those of the reply.
    fn ask(&mut self, alloc: Global, bytes: &[u8]) -> Result<Vec<u8>, WireFault>
        // What is asked, the peer answers as it is stated. Where no answer comes, it may have done
        // it or not.
        ensures answered { (key : List ℕ) (call : Call) → IsCallable key call →
            bytes.now ≡ call_text key call → Meet (peer self.old) (peer self.new) (λ old new.
            MatchResult result (λ reply. IsAnswered key call old new reply.items)
            (λ _. MayBeDone key call old new)) }

        // A call leaves the peer the instance that it was.
        ensures same { (key : List ℕ) (call : Call) → IsCallable key call →
            bytes.now ≡ call_text key call → Meet (peer self.old) (peer self.new) IsSamePeer }

        // The request is reported, and after it the reply; where it fails, the request at most.
        ensures told { GrowsBy (trail self.old) (trail self.new) (λ more. MatchResult result
            (λ reply. more ≡ bytes.now ∷ reply.items ∷ []) (λ _. IsUnanswered bytes.now more)) }
        ensures through { through self.new ≡ through self.old }
        ensures cause { HasCause (faults self.old) (faults self.new)
            (result ≡ Err WireFault.Failed) }
        ensures stays { StaysUnless (faults self.old) (faults self.new)
            (result ≡ Err WireFault.Failed) };
}
