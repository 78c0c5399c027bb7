//! Sockets.

ghost use Rattle.std.specs.Prelude.{◌≡◌, None, false, OnOk, OnErr, IsErr, IsTrue};
ghost use Rattle.misp_outside.specs.Causes.{HasCause, StaysUnless};

use super::timed::TimedStream;
use super::{StandardInput, StandardOutput};
use crate::{Door, DoorFault, NoMemory, Sink, SinkFault, Source, SourceFault};
use std::io::{self, Read};
use std::net::{Shutdown, TcpListener};
use std::time::{Duration, Instant};

/// For how many seconds a connection that was given back is still read.
const LINGER_SECONDS: u64 = 1;

/// How often it is read, each time for at most 1024 bytes.
const LINGER_READS: u32 = 1024;

/// The bytes that come from a socket. It tells nothing of them. One that is waited for too long is
/// a fault, as [TimedStream] says.
#[derive(Drop)]
pub struct TcpSource<'a> {
    input: StandardInput<TimedStream<'a>>,
}

impl<'a> Source for TcpSource<'a> {
    ghost use Rattle.misp_outside.specs.System.{tcp_source_faults};

    ghost left = { λ _. None };

    ghost faults = { tcp_source_faults };

    fn read(&mut self, into: &mut [u8]) -> Result<usize, SourceFault> {
        self.input.read(into)
    }
}

/// The bytes that go to a socket. It tells nothing of them, and never how many more it can take. A
/// write of no byte where there are some is a fault too, and so is too long a wait.
#[derive(Drop)]
pub struct TcpSink<'a> {
    output: StandardOutput<TimedStream<'a>>,
}

impl<'a> Sink for TcpSink<'a> {
    ghost use Rattle.misp_outside.specs.System.{tcp_sink_faults};

    ghost written = { λ _. None };

    ghost space = { λ _. None };

    ghost faults = { tcp_sink_faults };

    fn room(&mut self, _count: usize) -> Result<(), NoMemory> {
        Ok(())
    }

    fn write(&mut self, from: &[u8]) -> Result<usize, SinkFault> {
        self.output.write(from)
    }
}

/// A door on a socket, which tells nothing of who comes. A connection of which there is no second
/// end to be had is a fault of the door.
#[derive(Drop)]
pub struct TcpDoor<'a> {
    system: &'a HostRuntime,
    listener: TcpListener,
    out: bool,
    faults: u64,
}

impl<'a> TcpDoor<'a> {
    ghost use Rattle.misp_outside.specs.System.{tcp_is_out, tcp_faults};

    pub fn new(system: &'a HostRuntime, listener: TcpListener) -> Self
        ensures out { tcp_is_out result ≡ false }
        ensures faults { tcp_faults result ≡ 0 }
    {
        TcpDoor {
            system,
            listener,
            out: false,
            faults: 0,
        }
    }

    fn ends(&self) -> io::Result<(TcpSource<'a>, TcpSink<'a>)> {
        let (stream, _) = self.listener.accept()?;
        let second = stream.try_clone()?;
        Ok((
            TcpSource {
                input: StandardInput::new(TimedStream::new(self.system, stream)),
            },
            TcpSink {
                output: StandardOutput::new(TimedStream::new(self.system, second)),
            },
        ))
    }

    // The ends of the next connection, which is out then. An error is a fault that is counted.
    fn accepted(&mut self) -> Result<(TcpSource<'a>, TcpSink<'a>), DoorFault>
        ensures out { OnOk result (IsTrue (tcp_is_out self.new)) }
        ensures err { OnErr result (tcp_is_out self.new ≡ tcp_is_out self.old) }
        ensures cause { HasCause (tcp_faults self.old) (tcp_faults self.new) (IsErr result) }
        ensures stays { StaysUnless (tcp_faults self.old) (tcp_faults self.new) (IsErr result) }
    {
        match self.ends() {
            Ok(ends) => {
                self.out = true;
                Ok(ends)
            }
            Err(_) => {
                self.faults = self.faults.saturating_add(1);
                Err(DoorFault::Failed)
            }
        }
    }

    // Closes the writing side, and reads what the client still sends: the system resets a
    // connection that is closed with unread bytes, and the reply may be lost with it. A wait of 0
    // is an error, and ends it.
    fn linger(&self, from: TcpSource<'a>) -> io::Result<()> {
        let mut stream = from.input.into_reader().into_stream();
        stream.shutdown(Shutdown::Write)?;
        let most = Duration::from_secs(LINGER_SECONDS);
        let begun = Instant::now(self.system)?;
        let mut unread = [0u8; 1024];
        for _ in 0..LINGER_READS {
            let left = most.saturating_sub(begun.elapsed(self.system)?);
            stream.set_read_timeout(Some(left))?;
            if stream.read(&mut unread)? == 0 {
                break;
            }
        }
        Ok(())
    }
}

impl<'a> Door for TcpDoor<'a> {
    ghost use Rattle.misp_outside.specs.System.{tcp_is_out, tcp_faults};

    type From = TcpSource<'a>;

    type To = TcpSink<'a>;

    ghost coming = { λ _. None };

    ghost back = { λ _. None };

    ghost is_out = { tcp_is_out };

    ghost faults = { tcp_faults };

    fn next(&mut self) -> Result<Option<(Self::From, Self::To)>, DoorFault> {
        Ok(Some(self.accepted()?))
    }

    fn close(&mut self, from: Self::From, _to: Self::To) {
        let _ = self.linger(from);
        self.out = false;
    }
}
