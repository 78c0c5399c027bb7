//! The top call.

ghost use Rattle.std.specs.Prelude.{◌≡◌, ◌≢◌, ◌≤◌, ◌↔◌, ℕ, List, None, Some, IfSome, IfOk, ◌<◌, length, map, take, vec_len};
ghost use Rattle.std.specs.Io.KnownBytes.{Appends};
ghost use Rattle.misp_ids.specs.Moments.{last_stamp};
ghost use Rattle.misp_outside.specs.Causes.{Rose, StaysUnless};
ghost use Rattle.misp_outside.specs.Wires.{Connection};
ghost use Rattle.misp_effects.specs.KeeperStates.{AllReport};
ghost use Rattle.misp_script.specs.Source.{script_part};
ghost use Rattle.misp_net.specs.Carrying.{carried};
ghost use Rattle.misp_net.specs.Opening.{AreKeptOrOpened};
ghost use Rattle.misp_words.specs.Words.{ServeData, SyncData, Net, Check, Serve, Sync, Gen, command_of};
ghost use Rattle.misp_generated.specs.Script.{source_text};
ghost use Rattle.misp_app.specs.Causes.{faults, HasCauses, IsFaultless, LeavesAlone};
ghost use Rattle.misp_app.specs.Checking.{ok_line, EndsCheck};
ghost use Rattle.misp_app.specs.Hosting.{HasLinesServed, HasServed, IsReady};
ghost use Rattle.misp_app.specs.Limits.{source_limit, least_keepers};
ghost use Rattle.misp_app.specs.Net.{EndsGenerated, EndsRun};
ghost use Rattle.misp_app.specs.Source.{described, source_of, status_of, IsTold, IsUnsound, HasFailed, OthersStay, HoldNothing, host_named};
ghost use Rattle.misp_app.specs.Status.{EndsAs, Finishes, IsStill, IsUnasked, IsUnopened, HasDial, HasDoor, HasKeepers, HasScript, TellsFault, WritesNothing, Wrote};
ghost use Rattle.misp_app.specs.Synchronising.{EndsSync, HasSyncLine, HasSynced, IsCutSync, dialled};

use crate::checking::check_source;
use crate::hosting::serve_source;
use crate::reading::source_bytes;
use crate::running::{Shown, run_source};
use crate::synchronising::sync_source;
use crate::{KEEPERS, MAX_SOURCE, Status};
use misp_ids::LAST_SECOND;
use misp_outside::{Carry, Clock, Dial, Door, Keeper, Sink, Source};
use misp_words::{Command, Words, WordsFault};
use std::alloc::Global;

/// Does all that the program does: reads the source, runs its script over the keepers and writes
/// the lines, checks its description, or serves or synchronises an instance of it; or runs a
/// generated network, and writes a summary.
#[tactic(auto, unfolding(misp_ids::specs::Moments::last_stamp))]
pub fn run<S: Source, W: Sink, K: Keeper, C: Carry, D: Door, L: Dial, T: Clock>(
    alloc: Global,
    words: &Words<'_>,
    source: &mut S,
    sink: &mut W,
    keepers: &mut Vec<K>,
    carry: &mut C,
    door: &mut D,
    dial: &mut L,
    clock: &mut T,
) -> Status
    requires { HasKeepers (command_of words.now) (vec_len keepers.old) }

    // THE headline. A script is run over the instances of its description: each reply is the stated
    // function of its line and of what is held, each keeper holds the newest versions, and what an
    // organisation was never granted changes none of its replies.
    ensures net { command_of words.now ≡ Some Net →
        IfSome (S.left source.old) (λ left. IfOk (described left) (λ net.
        EndsRun result net (script_part left)
        (map K.state keepers.old.items) (map K.state keepers.new.items)
        (carried (C.faults carry.old) (C.passed carry.old))
        (carried (C.faults carry.new) (C.passed carry.new))
        (W.written sink.old) (W.written sink.new))) }

    // A generated network is run the same way, and what its lines come to is summed up. The source
    // is not read.
    ensures generated { (count : ℕ) → command_of words.now ≡ Some (Gen count) →
        IfOk (described (source_text count)) (λ net.
        EndsGenerated count result net (script_part (source_text count))
        (map K.state keepers.old.items) (map K.state keepers.new.items)
        (carried (C.faults carry.old) (C.passed carry.old))
        (carried (C.faults carry.new) (C.passed carry.new))
        (W.written sink.old) (W.written sink.new)) }
    ensures unread { (count : ℕ) → command_of words.now ≡ Some (Gen count) →
        source.new ≡ source.old }

    // Connections are served one after another, each by a session on what the one before it left.
    ensures served { (asked : ServeData) (time word : ℕ) (back coming : List Connection) →
        command_of words.now ≡ Some (Serve asked) →
        IsReady time word back coming (T.time clock.old) (T.next_word clock.old)
        (D.back door.old) (D.coming door.old) → HasLinesServed result →
        IfSome (S.left source.old) (λ left. IfOk (described left) (λ net.
        IfSome (host_named asked.name net) (λ host. HasServed host time asked.count word back coming
        (take 1 (map K.state keepers.old.items)) (take 1 (map K.state keepers.new.items))
        (T.next_word clock.new) (D.back door.new) (D.coming door.new)
        (W.written sink.old) (W.written sink.new) result))) }

    // A synchronisation is over the link of its name, with the peer of that link, at the address
    // that the description has for it. Its line says what it was told.
    ensures synced { (asked : SyncData) → command_of words.now ≡ Some (Sync asked) →
        IfSome (S.left source.old) (λ left. IfOk (described left) (λ net.
        IfSome (host_named asked.name net) (λ host.
        EndsSync result host asked net.instances
        (take 1 (map K.state keepers.old.items)) (take 1 (map K.state keepers.new.items))
        (dialled (L.asks dial.old) (L.faults dial.old))
        (dialled (L.asks dial.new) (L.faults dial.new))
        (W.written sink.old) (W.written sink.new)))) }

    // A check writes that the description is one. Of one that is none the first fault is told,
    // whatever the command.
    ensures checked { command_of words.now ≡ Some Check → EndsCheck result
        (S.left source.old) (W.written sink.old) (W.written sink.new) }
    ensures told { TellsFault result →
        IfSome (source_of (command_of words.now) (S.left source.old)) (λ left. IsTold
        (described left) (Wrote result (W.written sink.old) (W.written sink.new))) }

    // The words and the source decide how it ends, where nothing stops it before.
    ensures usage { result ≡ Status.Usage ↔ command_of words.now ≡ None }
    ensures status { IfSome (command_of words.now) (λ command.
        IfSome (source_of (Some command) (S.left source.old))
        (λ left. EndsAs result command (status_of command left))) }

    // Over keepers that hold nothing and report that to the end, where nothing fails, only want of
    // memory stops it.
    ensures finished { IsFaultless
        (map K.state keepers.old.items) (map K.state keepers.new.items)
        (faults (S.faults source.old) (W.faults sink.old) (D.faults door.old)
        (C.faults carry.old) (L.faults dial.old))
        (faults (S.faults source.new) (W.faults sink.new) (D.faults door.new)
        (C.faults carry.new) (L.faults dial.new)) →
        HoldNothing (map K.state keepers.old.items) →
        AllReport (map K.state keepers.new.items) → IfSome (command_of words.now) (λ command.
        IfSome (source_of (Some command) (S.left source.old))
        (λ left. Finishes command (status_of command left) result)) }

    // A fault is told only where it was met, and one of the source as nothing else.
    ensures causes { HasCauses (source_of (command_of words.now) (S.left source.old))
        (map K.state keepers.old.items) (map K.state keepers.new.items)
        (faults (S.faults source.old) (W.faults sink.old) (D.faults door.old)
        (C.faults carry.old) (L.faults dial.old))
        (faults (S.faults source.new) (W.faults sink.new) (D.faults door.new)
        (C.faults carry.new) (L.faults dial.new)) result }

    // What has no lines writes nothing. Where the instances do not open, each keeper holds what it
    // held, or that in its newest form. What a command has no use for is as it was.
    ensures silent { WritesNothing (command_of words.now) result →
        W.written sink.new ≡ W.written sink.old }
    ensures unopened { IsUnopened result →
        (command_of words.now ≢ Some Check)
        × AreKeptOrOpened (map K.state keepers.old.items) (map K.state keepers.new.items) }
    ensures alone { LeavesAlone K.state (command_of words.now)
        (source_of (command_of words.now) (S.left source.old))
        keepers.old.items keepers.new.items carry.old carry.new door.old door.new
        dial.old dial.new clock.old clock.new result }

    // The constants are the limits of the definitions.
    ensures limits { (MAX_SOURCE ≡ source_limit) × (KEEPERS ≡ least_keepers)
        × (LAST_SECOND ≡ last_stamp) }
{
    run_command(
        alloc, words, source, sink, keepers, carry, door, dial, clock,
    )
}

// Does what the words ask for. Each clause is one of the facts that those of `run` are made of.
fn run_command<S: Source, W: Sink, K: Keeper, C: Carry, D: Door, L: Dial, T: Clock>(
    alloc: Global,
    words: &Words<'_>,
    source: &mut S,
    sink: &mut W,
    keepers: &mut Vec<K>,
    carry: &mut C,
    door: &mut D,
    dial: &mut L,
    clock: &mut T,
) -> Status
    requires { HasKeepers (command_of words.now) (vec_len keepers.old) }
    ensures net { command_of words.now ≡ Some Net →
        IfSome (S.left source.old) (λ left. IfOk (described left) (λ net.
        EndsRun result net (script_part left)
        (map K.state keepers.old.items) (map K.state keepers.new.items)
        (carried (C.faults carry.old) (C.passed carry.old))
        (carried (C.faults carry.new) (C.passed carry.new))
        (W.written sink.old) (W.written sink.new))) }
    ensures generated { (count : ℕ) → command_of words.now ≡ Some (Gen count) →
        IfOk (described (source_text count)) (λ net.
        EndsGenerated count result net (script_part (source_text count))
        (map K.state keepers.old.items) (map K.state keepers.new.items)
        (carried (C.faults carry.old) (C.passed carry.old))
        (carried (C.faults carry.new) (C.passed carry.new))
        (W.written sink.old) (W.written sink.new)) }
    ensures later { C.faults carry.old ≤ C.faults carry.new }
    ensures usage { result ≡ Status.Usage ↔ command_of words.now ≡ None }
    ensures status { IfSome (command_of words.now) (λ command.
        IfSome (source_of (Some command) (S.left source.old))
        (λ left. EndsAs result command (status_of command left))) }
    ensures read { result ≡ Status.ReadFault → Rose (S.faults source.old) (S.faults source.new) }
    ensures stays { StaysUnless (S.faults source.old) (S.faults source.new)
        (result ≡ Status.ReadFault) }
    ensures write { result ≡ Status.WriteFault → Rose (W.faults sink.old) (W.faults sink.new) }
    ensures too_much { result ≡ Status.TooMuch →
        IfSome (source_of (command_of words.now) (S.left source.old))
        (λ left. source_limit < length left) }
    ensures door { result ≡ Status.DoorFault → Rose (D.faults door.old) (D.faults door.new) }
    ensures silent { WritesNothing (command_of words.now) result →
        W.written sink.new ≡ W.written sink.old }
    ensures keeper { result ≡ Status.KeeperFault →
        IfSome (source_of (command_of words.now) (S.left source.old)) (λ left. HasFailed
        (described left) (map K.state keepers.old.items) (map K.state keepers.new.items)) }
    ensures bad_row { result ≡ Status.BadRow →
        IfSome (source_of (command_of words.now) (S.left source.old))
        (λ left. IsUnsound (described left) (map K.state keepers.new.items)) }
    ensures unopened { IsUnopened result →
        (command_of words.now ≢ Some Check)
        × AreKeptOrOpened (map K.state keepers.old.items) (map K.state keepers.new.items) }
    ensures checked { command_of words.now ≡ Some Check →
        result ≡ Status.Done → Appends (W.written sink.old) (W.written sink.new) ok_line }
    ensures partly_checked { command_of words.now ≡ Some Check →
        result ≡ Status.WriteFault → IfSome (S.left source.old) (λ left. IfOk (described left)
        (λ _. Wrote result (W.written sink.old) (W.written sink.new) ok_line)) }
    ensures still_checked { command_of words.now ≡ Some Check →
        keepers.new.items ≡ keepers.old.items }
    ensures told { TellsFault result →
        IfSome (source_of (command_of words.now) (S.left source.old)) (λ left. IsTold
        (described left) (Wrote result (W.written sink.old) (W.written sink.new))) }
    ensures served { (asked : ServeData) (time word : ℕ) (back coming : List Connection) →
        command_of words.now ≡ Some (Serve asked) →
        IsReady time word back coming (T.time clock.old) (T.next_word clock.old)
        (D.back door.old) (D.coming door.old) → HasLinesServed result →
        IfSome (S.left source.old) (λ left. IfOk (described left) (λ net.
        IfSome (host_named asked.name net) (λ host. HasServed host time asked.count word back coming
        (take 1 (map K.state keepers.old.items)) (take 1 (map K.state keepers.new.items))
        (T.next_word clock.new) (D.back door.new) (D.coming door.new)
        (W.written sink.old) (W.written sink.new) result))) }
    ensures synced { (asked : SyncData) →
        command_of words.now ≡ Some (Sync asked) → HasSyncLine result →
        IfSome (S.left source.old) (λ left. IfOk (described left) (λ net.
        IfSome (host_named asked.name net) (λ host.
        HasSynced host asked net.instances
        (take 1 (map K.state keepers.old.items)) (take 1 (map K.state keepers.new.items))
        (dialled (L.asks dial.old) (L.faults dial.old))
        (dialled (L.asks dial.new) (L.faults dial.new))
        (W.written sink.old) (W.written sink.new) result))) }
    ensures cut_synced { (asked : SyncData) →
        command_of words.now ≡ Some (Sync asked) →
        result ≡ Status.OutOfMemory →
        IfSome (S.left source.old) (λ left. IfOk (described left) (λ net.
        IfSome (host_named asked.name net) (λ host.
        IsCutSync host asked net.instances
        (take 1 (map K.state keepers.old.items)) (take 1 (map K.state keepers.new.items))
        (dialled (L.asks dial.old) (L.faults dial.old))
        (dialled (L.asks dial.new) (L.faults dial.new))))) }
    ensures unasked { IsUnasked result → dial.new ≡ dial.old }
    ensures dialling { L.faults dial.old ≤ L.faults dial.new }
    ensures places { vec_len keepers.new ≡ vec_len keepers.old }
    ensures others { IfSome (source_of (command_of words.now) (S.left source.old))
        (λ left. OthersStay (described left)
        (map K.state keepers.old.items) (map K.state keepers.new.items)) }
    ensures still { IsStill result → keepers.new.items ≡ keepers.old.items }
    ensures untouched { (HasScript (command_of words.now) → ⊥) → carry.new ≡ carry.old }
    ensures unread { (count : ℕ) → command_of words.now ≡ Some (Gen count) →
        source.new ≡ source.old }
    ensures undialled { (HasDial (command_of words.now) → ⊥) → dial.new ≡ dial.old }
    ensures indoors { (HasDoor (command_of words.now) → ⊥) →
        (door.new ≡ door.old) × (clock.new ≡ clock.old) }
{
    let command = match words.command() {
        Ok(command) => command,
        Err(WordsFault::Usage) => return Status::Usage,
        Err(WordsFault::OutOfMemory) => return Status::OutOfMemory,
    };
    let bytes = match source_bytes(alloc, command, source) {
        Ok(bytes) => bytes,
        Err(status) => return status,
    };
    match command {
        Command::Net => run_source(alloc, &bytes, Shown::Lines, sink, keepers, carry),
        Command::Gen(count) => {
            run_source(alloc, &bytes, Shown::Summary(*count), sink, keepers, carry)
        }
        Command::Check => check_source(alloc, &bytes, sink),
        Command::Sync(words) => sync_source(alloc, &bytes, words, sink, keepers, dial),
        Command::Serve(words) => serve_source(alloc, &bytes, words, sink, keepers, door, clock),
    }
}
