//! The program: the real streams, keepers in memory or a file of records, a socket for who is
//! served or asked, and the status as its exit status. Words that are not accepted are answered by
//! the usage.
#![tactic(auto)]

ghost use Rattle.std.specs.Prelude.{◌≡◌, ◌≤◌, IfOk, vec_len};
ghost use Rattle.misp_app.specs.Limits.{least_keepers};
ghost use Rattle.misp_app.specs.Status.{HasKeepers};
ghost use Rattle.misp_words.specs.Words.{command_of};

mod records;

use misp_app::{KEEPERS, Status, run};
use misp_ids::InstId;
use misp_outside::{
    Dial, Door, Keeper, MemDial, MemDoor, StandardInput, StandardOutput, SureCarry, SureKeeper,
    SystemClock, TcpDial, TcpDoor,
};
use misp_words::{Command, ServeWords, USAGE, Words, WordsFault};
use std::alloc::{AllocError, Global};
use std::env;
use std::io::{self, BufReader};
use std::net::TcpListener;
use std::process::ExitCode;

fn keepers(alloc: Global) -> Result<Vec<SureKeeper>, AllocError>
    ensures { IfOk result (λ keepers. vec_len keepers ≡ least_keepers) }
{
    let mut keepers = Vec::new(alloc);
    while keepers.len() < KEEPERS {
        keepers.push(SureKeeper::new(alloc))?;
    }
    Ok(keepers)
}

// A door to which nobody comes.
fn no_door(alloc: Global) -> Result<MemDoor, AllocError> {
    MemDoor::new(alloc, Vec::new(alloc), Vec::new(alloc)).map_err(|_| AllocError)
}

// A dial that reaches nobody.
fn no_dial(alloc: Global) -> MemDial {
    MemDial::new(alloc, Vec::new(alloc), Vec::new(alloc))
}

// What the words ask for, over the streams of the system, keepers, a door and a dial.
fn run_between<K: Keeper, D: Door, L: Dial>(
    rt: &HostRuntime,
    words: &Words<'_>,
    keepers: &mut Vec<K>,
    door: &mut D,
    dial: &mut L,
) -> io::Result<Status>
    requires { HasKeepers (command_of words.now) (vec_len keepers.old) }
{
    let alloc = rt.alloc();
    let mut source = StandardInput::new(BufReader::new(alloc, rt.reader())?);
    let mut sink = StandardOutput::new(io::writer(rt));
    Ok(run(
        alloc,
        words,
        &mut source,
        &mut sink,
        keepers,
        &mut SureCarry::new(),
        door,
        dial,
        &mut SystemClock::new(rt),
    ))
}

// The same over the records of an instance. Where they cannot be had, nothing is run.
fn run_with_records<D: Door, L: Dial>(
    rt: &HostRuntime,
    words: &Words<'_>,
    name: &InstId,
    door: &mut D,
    dial: &mut L,
) -> io::Result<Status>
    requires { HasKeepers (command_of words.now) 1 }
{
    let keeper = match records::open(rt, name) {
        Ok(keeper) => keeper,
        Err(status) => return Ok(status),
    };
    let mut keepers = vec![in rt.alloc(); keeper]?;
    let status = run_between(rt, words, &mut keepers, door, dial)?;
    records::close(keepers);
    Ok(status)
}

// Serves an instance behind a socket. Where it cannot be had, nothing is run.
fn serve_at(rt: &HostRuntime, words: &Words<'_>, serve: &ServeWords<'_>) -> io::Result<Status>
    requires { HasKeepers (command_of words.now) 1 }
{
    let mut dial = no_dial(rt.alloc());
    match TcpListener::bind(rt, serve.address) {
        Ok(listener) => {
            let mut door = TcpDoor::new(rt, listener);
            run_with_records(rt, words, &serve.name, &mut door, &mut dial)
        }
        Err(_) => Ok(Status::DoorFault),
    }
}

// Synchronises an instance with peers that are asked over sockets.
fn sync_with(rt: &HostRuntime, words: &Words<'_>, name: &InstId) -> io::Result<Status>
    requires { HasKeepers (command_of words.now) 1 }
{
    run_with_records(
        rt,
        words,
        name,
        &mut no_door(rt.alloc())?,
        &mut TcpDial::new(rt),
    )
}

// Runs what needs no file, where nobody comes or is asked.
#[tactic(auto, using(misp_app::proofs::Hosted::enough_keepers))]
fn run_in_memory(rt: &HostRuntime, words: &Words<'_>) -> io::Result<Status> {
    let alloc = rt.alloc();
    let mut keepers = keepers(alloc)?;
    run_between(
        rt,
        words,
        &mut keepers,
        &mut no_door(alloc)?,
        &mut no_dial(alloc),
    )
}

// Does what the words of the program ask for.
fn run_words(rt: &HostRuntime) -> io::Result<Status> {
    let alloc = rt.alloc();
    let given: Vec<String> = env::args(rt)?.skip(1).collect(alloc)?;
    let words = Words::read(alloc, &given);
    match words.command() {
        Ok(Command::Serve(serve)) => serve_at(rt, &words, serve),
        Ok(Command::Sync(sync)) => sync_with(rt, &words, &sync.name),
        Err(WordsFault::OutOfMemory) => Ok(Status::OutOfMemory),
        _ => run_in_memory(rt, &words),
    }
}

// How it ends where nothing could be run: for want of memory, or of words that are text.
fn status_before(error: &io::Error) -> Status {
    match error.kind() {
        io::ErrorKind::OutOfMemory => Status::OutOfMemory,
        _ => Status::Usage,
    }
}

fn main(rt: HostRuntime) -> ExitCode {
    let status = match run_words(&rt) {
        Ok(status) => status,
        Err(error) => status_before(&error),
    };
    if status == Status::Usage {
        // Where standard error takes nothing, the exit status says it alone.
        let _ = eprint!(rt; "{USAGE}");
    }
    ExitCode::from(status.code())
}
