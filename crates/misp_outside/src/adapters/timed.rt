//! Sockets that are waited for so long in all.

ghost use Rattle.std.specs.Prelude.{◌≡◌, ◌+◌, ◌-◌, ◌*◌, ◌/◌, min};
ghost use Rattle.std.specs.Duration.{as_nanos};
ghost use Rattle.misp_outside.specs.declared.adapters.timed.TheConstants.{MOST_WAIT, WAIT_PER_BYTE};

use std::io::{self, ErrorKind, Read, Write};
use std::net::TcpStream;
use std::time::{Duration, Instant};

/// The most microseconds that a connection may be waited for from one call on: 30 seconds.
const MOST_WAIT: u64 = 30_000_000;

/// How many more it may be waited for after each byte that passed: a second after 50,000 bytes.
const WAIT_PER_BYTE: u64 = 20;

/// The most bytes of one write, so that a write which takes a part of them tells so soon.
const MOST_WRITTEN: usize = 65_536;

/// How often a call is made again that a signal interrupts.
const MOST_TRIES: u32 = 1024;

/// A socket whose reads, or writes, may wait for 30 seconds in all, and a second more after each
/// 50,000 bytes that passed, but never for more than 30 from one call on. A wait that takes longer
/// is an error. A call that a signal interrupts is made again, and its wait is not counted.
#[derive(Drop)]
pub struct TimedStream<'a> {
    system: &'a HostRuntime,
    stream: TcpStream,
    /// In microseconds.
    left: u64,
}

impl<'a> TimedStream<'a> {
    pub fn new(system: &'a HostRuntime, stream: TcpStream) -> Self {
        // What is written goes out at once. Where the option is refused, it only comes later.
        let _ = stream.set_nodelay(true);
        TimedStream {
            system,
            stream,
            left: MOST_WAIT,
        }
    }

    /// The socket, when it is waited for no more.
    pub fn into_stream(self) -> TcpStream {
        self.stream
    }

    // So many bytes passed in a call that has begun then.
    fn passed(&mut self, begun: Instant, count: usize) -> io::Result<()> {
        self.left = left_after(self.left, begun.elapsed(self.system)?, count);
        Ok(())
    }
}

impl<'a> Read for TimedStream<'a> {
    fn read(&mut self, into: &mut [u8]) -> io::Result<usize> {
        self.stream
            .set_read_timeout(Some(Duration::from_micros(self.left)))?;
        for _ in 0..MOST_TRIES {
            let begun = Instant::now(self.system)?;
            match self.stream.read(into) {
                Err(error) if error.kind() == ErrorKind::Interrupted => {}
                Err(error) => return Err(error),
                Ok(count) => {
                    self.passed(begun, count)?;
                    return Ok(count);
                }
            }
        }
        Err(io::Error::from(ErrorKind::Interrupted))
    }
}

impl<'a> Write for TimedStream<'a> {
    fn write(&mut self, from: &[u8]) -> io::Result<usize> {
        self.stream
            .set_write_timeout(Some(Duration::from_micros(self.left)))?;
        let from = &from[..from.len().min(MOST_WRITTEN)];
        for _ in 0..MOST_TRIES {
            let begun = Instant::now(self.system)?;
            match self.stream.write(from) {
                Err(error) if error.kind() == ErrorKind::Interrupted => {}
                Err(error) => return Err(error),
                Ok(count) => {
                    self.passed(begun, count)?;
                    return Ok(count);
                }
            }
        }
        Err(io::Error::from(ErrorKind::Interrupted))
    }

    fn flush(&mut self) -> io::Result<()> {
        self.stream.flush()
    }
}

// How many microseconds are left after a wait in which so many bytes passed.
fn left_after(left: u64, waited: Duration, count: usize) -> u64
    ensures { result
        ≡ min (left - as_nanos waited / 1_000 + count * WAIT_PER_BYTE) MOST_WAIT }
{
    let rest = u128::from(left).saturating_sub(waited.as_micros());
    let gained = count as u128 * u128::from(WAIT_PER_BYTE);
    (rest + gained).min(u128::from(MOST_WAIT)) as u64
}
