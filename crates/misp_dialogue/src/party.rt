//! Whom a dialogue asks.

ghost use Rattle.std.specs.Prelude.{◌≡◌, Ok, Err, MatchResult};
ghost use Rattle.misp_dialogue.specs.Parties.{Conduct, Exchanged, PartyState};

use std::alloc::Global;

/// A party that is asked, and replies or refuses: an instance of this process, or a wire to one of
/// which less is known.
pub trait Party<Q, R, C>: Drop {
    /// What a party of this kind holds.
    ghost Holds: { Type 0 };

    /// What is reported of it.
    ghost state: { Self → PartyState Holds };

    /// What is set up there, and what no request changes.
    ghost Setting: { Type 0 };

    ghost setting: { Self → Setting };

    /// How a party that is set up so answers and fails.
    ghost conduct: { Setting → Conduct Holds Q R C };

    /// Answers the reply to a request, or why there is none.
    fn ask(&mut self, alloc: Global, request: Q) -> Result<R, C>
        ensures exchanged { MatchResult result
            (λ reply. Exchanged (conduct (setting self.old)) (state self.old) request (Ok reply)
            (state self.new))
            (λ cause. Exchanged (conduct (setting self.old)) (state self.old) request
            (Err cause) (state self.new)) }
        ensures setting { setting self.new ≡ setting self.old };
}
