//! What calls of a peer come to.

ghost use Rattle.std.specs.Prelude.{◌≡◌, ℕ, List, true};
ghost use Rattle.std.specs.List.{list_all};
ghost use Rattle.misp_core.specs.Prelude.{Host, Seen};
ghost use Rattle.misp_client.specs.Calling.{IsCallable, called};
ghost use Rattle.misp_client.specs.Calls.{body_of};
ghost use Rattle.misp_client.specs.Requests.{read_of_call};
ghost use Rattle.misp_client.specs.declared.call.Call.{Call};
ghost use Rattle.misp_api.specs.Answering.{IsSync, replied};
ghost use Rattle.misp_api.specs.Request.{is_byte};
ghost use Rattle.misp_api.specs.Sending.{read_form};

/// What the bytes of a call are read as comes to what is stated of the call, and is what a
/// synchronisation asks. `a_call_is_read_back` of misp_client says what they are read as.
pub fn a_call_comes_to_what_is_stated()
    ensures comes { (host : Host) (now word : ℕ) (key : List ℕ) (call : Call) (seen : Seen)
        → IsCallable key call → list_all is_byte (body_of call) ≡ true
        → replied host now (read_form host word (read_of_call key call)) seen
        ≡ called host now key call seen }
    ensures asked { (host : Host) (word : ℕ) (key : List ℕ) (call : Call)
        → IsCallable key call → list_all is_byte (body_of call) ≡ true
        → IsSync (read_form host word (read_of_call key call)) }
{}
