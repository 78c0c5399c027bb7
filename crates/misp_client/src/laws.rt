//! What holds of calls, and of the replies that instances give.

ghost use Rattle.std.specs.Prelude.{◌≡◌, ◌<◌, ◌^◌, ℕ, List, [], Option, Result, Ok, Err, Some, length, true};
ghost use Rattle.misp_http.specs.Reading.{IsRead};
ghost use Rattle.misp_core.specs.Effects.{by_keeper, stop_in};
ghost use Rattle.misp_core.specs.Prelude.{Did, Held, Host, Seen, seen_in};
ghost use Rattle.misp_core.specs.Sound.{IsSound, IsWorded};
ghost use Rattle.misp_core.specs.Text.{body_text, http_text};
ghost use Rattle.misp_core.specs.declared.reply.Reply.{Reply};
ghost use Rattle.misp_protocol.specs.declared.cause.Cause.{Cause};
ghost use Rattle.misp_protocol.specs.declared.request.Answer.{Answer};
ghost use Rattle.misp_client.specs.Answers.{IsToldBy};
ghost use Rattle.misp_client.specs.Calling.{IsCall, IsCallable, TakesNothing, called};
ghost use Rattle.misp_client.specs.Calls.{body_of, call_text};
ghost use Rattle.misp_client.specs.Requests.{read_of_call};
ghost use Rattle.misp_client.specs.Telling.{Suits, told};
ghost use Rattle.misp_client.specs.declared.call.Call.{Call};

/// The bytes of a call are read as its request, or refused where its body is too long. Every body
/// in memory is short enough to be either.
pub fn a_call_is_read_back()
    ensures { (key : List ℕ) (call : Call) → IsCallable key call → length (body_of call) < 2 ^ 63
        → IsRead (call_text key call) (Ok (read_of_call key call)) (Some []) }
{}

/// What an instance replies to a call is read as what it tells, and as nothing else. Every body in
/// memory is short enough.
pub fn a_reply_is_read_back()
    ensures told { (call : Call) (reply : Reply) → IsSound reply → IsWorded reply
        → Suits call reply → length (body_text reply) < 2 ^ 63
        → IsToldBy call (http_text reply true) (told call reply) }
    ensures alone { (call : Call) (reply : Reply) → IsSound reply → IsWorded reply
        → Suits call reply → length (body_text reply) < 2 ^ 63
        → (other : Result Answer Cause) → IsToldBy call (http_text reply true) other
        → other ≡ told call reply }
{}

/// What an instance that reports what it holds replies to a call answers what was asked, or is a
/// refusal.
pub fn a_reply_suits_its_call()
    ensures { (peer : Host) (now : ℕ) (key : List ℕ) (call : Call) (held : Held) (reply : Reply)
        (new : Held) → IsCall call
        → Did (called peer now key call (seen_in held)) held reply new → Suits call reply }
{}

/// What a call comes to does not depend on the moment.
pub fn a_call_comes_to_the_same_at_any_moment()
    ensures { (peer : Host) (now : ℕ) (key : List ℕ) (call : Call) (seen : Seen)
        → called peer now key call seen ≡ called peer 0 key call seen }
{}

/// A call for groups, a manifest or rows puts nothing.
pub fn a_call_that_takes_nothing_puts_nothing()
    ensures { (peer : Host) (now : ℕ) (key : List ℕ) (call : Call) (seen : Seen)
        → TakesNothing call → (called peer now key call seen).batches ≡ [] }
{}

/// That the keeper of a peer failed is told only where it did.
pub fn a_fault_of_a_peer_is_told_where_its_keeper_failed()
    ensures { (call : Call) (reply : Reply) → told call reply ≡ Err (Cause.Refused 503 26)
        → stop_in reply ≡ by_keeper }
{}
