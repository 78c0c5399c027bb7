//! Who leads a dialogue.

ghost use Rattle.std.specs.Prelude.{◌≡◌, ◌<◌, ◌≤◌, ℕ, IfErr, IfOk, OnOk};
ghost use Rattle.misp_dialogue.specs.Dialogue.{Dialogue, IsAsking, IsTurn, counted};

use crate::turn::Turn;
use std::alloc::Global;

/// Leads a dialogue. It makes a request out of what it has, and then waits for the reply. So a
/// request may take what it is made of, and a reply is always received: no memory is needed for it.
pub trait Leader<Q, R, N, C>: Drop {
    /// The dialogue that is still to be held, where no reply is awaited.
    ghost dialogue: { Self → Dialogue Q R N C };

    /// How it goes on by the reply that is awaited.
    ghost awaited: { Self → R → Dialogue Q R N C };

    /// No more requests than this are still to come.
    ghost left: { Self → ℕ };

    /// That there is no memory.
    ghost memory: { C };

    /// How much was taken so far.
    fn count(&self) -> N
        ensures { result ≡ counted (dialogue self.now) };

    /// What comes next, or that there is no memory to make it.
    fn turn(&mut self, alloc: Global) -> Result<Turn<Q, C>, C>
        ensures turn { IfOk result (IsTurn (dialogue self.old) (awaited self.new)) }
        ensures memory { IfErr result (λ cause. cause ≡ memory) }
        ensures asking { IfErr result (λ _. IsAsking (dialogue self.old)) }
        ensures less { OnOk result (IsAsking (dialogue self.old) → left self.new < left self.old) };

    /// Receives the reply to what it asked.
    fn receive(&mut self, reply: R)
        ensures goes_on { dialogue self.new ≡ awaited self.old reply }
        ensures less { left self.new ≤ left self.old };
}
