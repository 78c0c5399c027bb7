//! The requests of lines.

ghost use Rattle.std.specs.Prelude.{◌≡◌, ◌≢◌, ◌≤◌, ◌<◌, ◌++◌, false, List, ℕ, Option, option_map, Err, IfOk, OnOk, OnErr, vec_len, vec_capacity};
ghost use Rattle.misp_outside.specs.Reporting.{StaysHeld};
ghost use Rattle.misp_script.specs.Step as commands;
ghost use Rattle.misp_http.specs.Reading.{IsRead};
ghost use Rattle.misp_http.specs.Texts.{request_text};
ghost use Rattle.misp_net.specs.Running.{IsRequested};
ghost use Rattle.misp_net.specs.Text.{output_text};

use crate::line::{Output, put_unanswered, show};
use misp_api::{End, Routes, answer, read_bytes, refuse};
use misp_core::Instance;
use misp_http::{Read, ReadEnd, request_bytes};
use misp_ids::{NoMemory, Stamp};
use misp_outside::Keeper;
use misp_script::RequestLine;
use std::alloc::Global;

// The request of a line, as it is read from the bytes that HTTP has for it.
fn request_read(alloc: Global, line: &RequestLine<'_>) -> Result<Read, ReadEnd>
    ensures read { (left : Option (List ℕ)) × IsRead
        (request_text line.now.method.now line.now.target.now
        (option_map (λ text. text.now) line.now.key) line.now.body.now false) result left }
    ensures no_fault { result ≢ Err ReadEnd.ReadFault }
{
    let bytes = request_bytes(alloc, line.method, line.target, line.key, line.body, false);
    let Ok(bytes) = bytes else {
        return Err(ReadEnd::NoMemory);
    };
    read_bytes(alloc, bytes)
}

/// Answers the request of a line, and writes the reply, or how its session ended where it has none,
/// with room for one byte after it.
pub(crate) fn put_request<K: Keeper>(
    lines: &mut Vec<u8>,
    alloc: Global,
    routes: &Routes,
    instance: &mut Instance<K>,
    now: Stamp,
    word: u128,
    line: &RequestLine<'_>,
) -> Result<Output, NoMemory>
    ensures text { IfOk result (λ output.
        lines.new.items ≡ lines.old.items ++ output_text output) }
    ensures room { OnOk result (vec_len lines.new < vec_capacity lines.new) }
    ensures requested { IfOk result (IsRequested now word (commands.request_data line.now)
        instance.old instance.new) }
    ensures kept { OnErr result (StaysHeld instance.old.held instance.new.held) }
    ensures later { instance.old.faults ≤ instance.new.faults }
    ensures name { instance.new.name ≡ instance.old.name }
{
    match request_read(alloc, line) {
        Ok(Read::Request(request)) => {
            let start = lines.len();
            let reply = answer(lines, alloc, routes, instance, now, word, &request)?;
            show(lines, alloc, start, &reply)?;
            Ok(Output::Replied(reply))
        }
        Ok(Read::Refused(fault)) => Ok(Output::Replied(refuse(lines, alloc, fault)?)),
        Err(ReadEnd::NoMemory) => Err(NoMemory),
        Err(end) => put_unanswered(lines, End::from(end)),
    }
}
