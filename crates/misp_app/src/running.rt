//! Runs a script, and writes what is shown of its lines.

ghost use Rattle.std.specs.Prelude.{◌≡◌, ◌≤◌, IfOk, map, vec_len};
ghost use Rattle.misp_outside.specs.Causes.{Rose};
ghost use Rattle.misp_script.specs.Source.{script_part};
ghost use Rattle.misp_net.specs.Carrying.{carried};
ghost use Rattle.misp_net.specs.Opening.{AreKeptOrOpened};
ghost use Rattle.misp_words.specs.Words.{Net};
ghost use Rattle.misp_app.specs.Ends.{IsPutEnd, IsRunEnd};
ghost use Rattle.misp_app.specs.Limits.{least_keepers};
ghost use Rattle.misp_app.specs.Net.{EndsTold, shown_text, summary_of};
ghost use Rattle.misp_app.specs.Source.{described, described_status, HasFailed, IsTold, IsUnsound, OthersStay};
ghost use Rattle.misp_app.specs.Status.{EndsAs, IsSilent, IsStill, IsUnopened, TellsFault, Writes, Wrote};

use crate::Status;
use crate::fault::{put, tell_fault};
use misp_generated::write_summary;
use misp_ids::NoMemory;
use misp_net::run_net;
use misp_outside::{Carry, Keeper, Sink};
use misp_script::{DescFault, read_description, split_source};
use std::alloc::Global;

/// What is written of the lines of a run.
#[derive(Clone, Copy)]
pub(crate) enum Shown {
    Lines,
    /// Their summary, where so many events were to be added.
    Summary(u32),
}

fn put_summary<W: Sink>(alloc: Global, sink: &mut W, count: u32, lines: &[u8]) -> Status
    ensures wrote { Writes result →
        Wrote result (W.written sink.old) (W.written sink.new) (summary_of count lines.now) }
    ensures write { result ≡ Status.WriteFault → Rose (W.faults sink.old) (W.faults sink.new) }
    ensures silent { IsSilent result → W.written sink.new ≡ W.written sink.old }
    ensures ends { IsPutEnd result }
{
    match write_summary(alloc, count, lines) {
        Ok(text) => put(sink, text.as_bytes()),
        Err(NoMemory) => Status::OutOfMemory,
    }
}

// Writes what is shown of the lines.
fn put_shown<W: Sink>(alloc: Global, sink: &mut W, shown: Shown, lines: &[u8]) -> Status
    ensures wrote { Writes result →
        Wrote result (W.written sink.old) (W.written sink.new) (shown_text shown lines.now) }
    ensures write { result ≡ Status.WriteFault → Rose (W.faults sink.old) (W.faults sink.new) }
    ensures silent { IsSilent result → W.written sink.new ≡ W.written sink.old }
    ensures ends { IsPutEnd result }
{
    match shown {
        Shown::Lines => put(sink, lines),
        Shown::Summary(count) => put_summary(alloc, sink, count, lines),
    }
}

/// Runs the script of a source, and writes what is shown of its lines.
pub(crate) fn run_source<W: Sink, K: Keeper, C: Carry>(
    alloc: Global,
    bytes: &[u8],
    shown: Shown,
    sink: &mut W,
    keepers: &mut Vec<K>,
    carry: &mut C,
) -> Status
    requires { least_keepers ≤ vec_len keepers.old }
    ensures net { IfOk (described bytes.now) (λ net.
        EndsTold (shown_text shown) result net (script_part bytes.now)
        (map K.state keepers.old.items) (map K.state keepers.new.items)
        (carried (C.faults carry.old) (C.passed carry.old))
        (carried (C.faults carry.new) (C.passed carry.new))
        (W.written sink.old) (W.written sink.new)) }
    ensures later { C.faults carry.old ≤ C.faults carry.new }
    ensures status { EndsAs result Net (described_status (described bytes.now)) }
    ensures write { result ≡ Status.WriteFault → Rose (W.faults sink.old) (W.faults sink.new) }
    ensures silent { IsSilent result → W.written sink.new ≡ W.written sink.old }
    ensures ends { IsRunEnd result }
    ensures keeper { result ≡ Status.KeeperFault → HasFailed (described bytes.now)
        (map K.state keepers.old.items) (map K.state keepers.new.items) }
    ensures bad_row { result ≡ Status.BadRow →
        IsUnsound (described bytes.now) (map K.state keepers.new.items) }
    ensures unopened { IsUnopened result →
        AreKeptOrOpened (map K.state keepers.old.items) (map K.state keepers.new.items) }
    ensures told { TellsFault result → IsTold (described bytes.now)
        (Wrote result (W.written sink.old) (W.written sink.new)) }
    ensures places { vec_len keepers.new ≡ vec_len keepers.old }
    ensures others { OthersStay (described bytes.now)
        (map K.state keepers.old.items) (map K.state keepers.new.items) }
    ensures still { IsStill result → keepers.new.items ≡ keepers.old.items }
{
    let (description, script) = split_source(bytes);
    match read_description(alloc, description) {
        Ok(net) => match run_net(alloc, net, keepers, carry, script) {
            Ok(lines) => put_shown(alloc, sink, shown, &lines),
            Err(fault) => Status::from(fault),
        },
        Err(DescFault::Bad { path, need }) => tell_fault(alloc, sink, path.as_str(), need),
        Err(DescFault::NoMemory) => Status::OutOfMemory,
    }
}
