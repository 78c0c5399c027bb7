//! Holds a dialogue.

ghost use Rattle.std.specs.Prelude.{◌≡◌, ◌<◌, Ok, Err, IfErr, MatchResult, OnOk, Some};
ghost use Rattle.misp_dialogue.specs.Conversed.{Conversed, IsStep, between, ended};
ghost use Rattle.misp_dialogue.specs.Course.{ByStates};
ghost use Rattle.misp_dialogue.specs.Shares.{ByReplies};

use crate::ending::Ending;
use crate::leader::Leader;
use crate::party::Party;
use crate::side::Side;
use crate::turn::Turn;
use std::alloc::Global;

fn ended<N: Drop, C: Drop>(count: N, cause: Option<C>) -> Ending<N, C>
    ensures { result ≡ ended count cause }
{
    match cause {
        None => Ending::Done(count),
        Some(cause) => Ending::Stopped(count, cause),
    }
}

// Asks one of the two.
fn ask<Q: Drop, R: Drop, C: Drop, A: Party<Q, R, C>, B: Party<Q, R, C>>(
    alloc: Global,
    side: Side,
    source: &mut A,
    sink: &mut B,
    request: Q,
) -> Result<R, C>
    ensures asked { MatchResult result
        (λ reply. between (A.conduct (A.setting source.old)) (B.conduct (B.setting sink.old)) side
        (A.state source.old, B.state sink.old) request (Ok reply)
        (A.state source.new, B.state sink.new))
        (λ cause. between (A.conduct (A.setting source.old)) (B.conduct (B.setting sink.old)) side
        (A.state source.old, B.state sink.old) request (Err cause)
        (A.state source.new, B.state sink.new)) }
    ensures source { A.setting source.new ≡ A.setting source.old }
    ensures sink { B.setting sink.new ≡ B.setting sink.old }
{
    match side {
        Side::Source => source.ask(alloc, request),
        Side::Sink => sink.ask(alloc, request),
    }
}

// Makes the request that comes next, and receives its reply; or answers how it ends.
fn exchange<
    Q: Drop,
    R: Drop,
    N: Drop,
    C: Drop,
    L: Leader<Q, R, N, C>,
    A: Party<Q, R, C>,
    B: Party<Q, R, C>,
>(alloc: Global, leader: &mut L, source: &mut A, sink: &mut B) -> Result<(), Ending<N, C>>
    ensures step { OnOk result (IsStep
        (between (A.conduct (A.setting source.old)) (B.conduct (B.setting sink.old)))
        (L.dialogue leader.old) (L.dialogue leader.new) (A.state source.old, B.state sink.old)
        (A.state source.new, B.state sink.new)) }
    ensures ended { IfErr result (Conversed L.memory
        (between (A.conduct (A.setting source.old)) (B.conduct (B.setting sink.old)))
        (L.dialogue leader.old)
        (A.state source.old, B.state sink.old) (A.state source.new, B.state sink.new)) }
    ensures less { OnOk result (L.left leader.new < L.left leader.old) }
    ensures source { A.setting source.new ≡ A.setting source.old }
    ensures sink { B.setting sink.new ≡ B.setting sink.old }
{
    let count = leader.count();
    let (side, request) = match leader.turn(alloc) {
        Ok(Turn::Ask(side, request)) => (side, request),
        Ok(Turn::Over(cause)) => return Err(ended(count, cause)),
        Err(cause) => return Err(Ending::Stopped(count, cause)),
    };
    match ask(alloc, side, source, sink, request) {
        Ok(reply) => {
            leader.receive(reply);
            Ok(())
        }
        Err(cause) => Err(Ending::Stopped(count, cause)),
    }
}

/// Holds the dialogue that a leader leads with two parties.
pub fn converse<
    Q: Drop,
    R: Drop,
    N: Drop,
    C: Drop,
    L: Leader<Q, R, N, C>,
    A: Party<Q, R, C>,
    B: Party<Q, R, C>,
>(alloc: Global, leader: &mut L, source: &mut A, sink: &mut B) -> Ending<N, C>
    // The dialogue went on by the replies, request by request.
    ensures conversed { Conversed L.memory (between (A.conduct (A.setting source.old))
        (B.conduct (B.setting sink.old))) (L.dialogue leader.old)
        (A.state source.old, B.state sink.old) (A.state source.new, B.state sink.new) result }

    // The same party by party: what each holds, what went over it, and how often it failed.
    ensures replies { ByReplies L.memory (A.conduct (A.setting source.old))
        (B.conduct (B.setting sink.old)) (L.dialogue leader.old)
        (A.state source.old, B.state sink.old) (A.state source.new, B.state sink.new) result }

    // Where both report what they hold, it is what so many stated answers leave.
    ensures states { (s s1 : A.Holds) (t t1 : B.Holds) →
        (A.state source.old).held ≡ Some s → (B.state sink.old).held ≡ Some t →
        (A.state source.new).held ≡ Some s1 → (B.state sink.new).held ≡ Some t1 →
        ByStates L.memory (A.conduct (A.setting source.old)) (B.conduct (B.setting sink.old))
        (L.dialogue leader.old) s t (A.state source.new, B.state sink.new) result }
    ensures source { A.setting source.new ≡ A.setting source.old }
    ensures sink { B.setting sink.new ≡ B.setting sink.old }
{
    loop {
        match exchange(alloc, leader, source, sink) {
            Ok(()) => {}
            Err(ending) => return ending,
        }
    }
}
