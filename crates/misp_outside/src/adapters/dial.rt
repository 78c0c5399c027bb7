//! Asks over sockets.

ghost use Rattle.std.specs.Prelude.{◌≡◌, ◌≤◌, ◌↔◌, None, Err, IfSome, IfOk, OnOk, vec_len};
ghost use Rattle.std.specs.Io.KnownBytes.{Appends};
ghost use Rattle.std.specs.IoError.{error_kind};
ghost use Rattle.misp_outside.specs.Causes.{HasCause, StaysUnless};

use super::timed::TimedStream;
use crate::{Dial, WireFault};
use std::alloc::Global;
use std::io::{self, ErrorKind, Read, Write};
use std::net::TcpStream;

/// The most bytes of a reply. A longer one is a fault.
const MOST_BYTES: u64 = 67_108_864;

/// A connection that was asked over, and whose reply is still to be read.
#[derive(Drop)]
pub struct TcpWaiting<'a> {
    stream: TimedStream<'a>,
}

/// A dial over sockets, with a connection for each ask. It tells no asks. One that is waited for
/// too long is a fault, as [TimedStream] says.
#[derive(Drop)]
pub struct TcpDial<'a> {
    system: &'a HostRuntime,
    faults: u64,
}

impl<'a> TcpDial<'a> {
    ghost use Rattle.misp_outside.specs.System.{tcp_dial_faults};

    pub fn new(system: &'a HostRuntime) -> Self
        ensures { tcp_dial_faults result ≡ 0 }
    {
        TcpDial { system, faults: 0 }
    }

    /// Connects to the address, and sends the bytes.
    pub fn send(&mut self, address: &str, bytes: &[u8]) -> Result<TcpWaiting<'a>, WireFault>
        ensures cause { HasCause (tcp_dial_faults self.old) (tcp_dial_faults self.new)
            (result ≡ Err WireFault.Failed) }
        ensures stays { StaysUnless (tcp_dial_faults self.old) (tcp_dial_faults self.new)
            (result ≡ Err WireFault.Failed) }
    {
        match sent(self.system, address, bytes) {
            Ok(waiting) => Ok(waiting),
            Err(error) => Err(self.fault(error)),
        }
    }

    /// Reads the reply to its end, where the peer closes the connection.
    pub fn receive(&mut self, waiting: TcpWaiting<'a>) -> Result<Vec<u8>, WireFault>
        ensures cause { HasCause (tcp_dial_faults self.old) (tcp_dial_faults self.new)
            (result ≡ Err WireFault.Failed) }
        ensures stays { StaysUnless (tcp_dial_faults self.old) (tcp_dial_faults self.new)
            (result ≡ Err WireFault.Failed) }
    {
        match whole_reply(self.system.alloc(), waiting.stream) {
            Ok(reply) => Ok(reply),
            Err(error) => Err(self.fault(error)),
        }
    }

    // Counts the error, unless memory ran out.
    fn fault(&mut self, error: io::Error) -> WireFault
        ensures kind { (result ≡ WireFault.NoMemory) ↔ (error_kind error ≡ ErrorKind.OutOfMemory) }
        ensures cause { HasCause (tcp_dial_faults self.old) (tcp_dial_faults self.new)
            (result ≡ WireFault.Failed) }
        ensures stays { StaysUnless (tcp_dial_faults self.old) (tcp_dial_faults self.new)
            (result ≡ WireFault.Failed) }
    {
        if error.kind() == ErrorKind::OutOfMemory {
            return WireFault::NoMemory;
        }
        self.faults = self.faults.saturating_add(1);
        WireFault::Failed
    }
}

impl<'a> Dial for TcpDial<'a> {
    ghost use Rattle.misp_outside.specs.System.{tcp_dial_faults};

    ghost asks = { λ _. None };

    ghost faults = { tcp_dial_faults };

    fn ask(&mut self, _alloc: Global, address: &str, bytes: &[u8]) -> Result<Vec<u8>, WireFault> {
        let waiting = self.send(address, bytes)?;
        self.receive(waiting)
    }
}

// Connects, and sends the bytes.
fn sent<'a>(system: &'a HostRuntime, address: &str, bytes: &[u8]) -> io::Result<TcpWaiting<'a>> {
    let mut stream = TimedStream::new(system, TcpStream::connect(system, address)?);
    send_whole(&mut stream, bytes)?;
    Ok(TcpWaiting { stream })
}

// Writes all of the bytes.
fn send_whole<W: Write>(stream: &mut W, bytes: &[u8]) -> io::Result<()>
    ensures { OnOk result (Appends (W.contents stream.old) (W.contents stream.new) bytes.now) }
{
    stream.write_all(bytes)
}

// Reads all that is left. One byte more than the most is read, and is an error.
fn whole_reply<R: Read + Drop>(alloc: Global, stream: R) -> io::Result<Vec<u8>>
    ensures whole { IfOk result
        (λ reply. IfSome (R.remaining stream) (λ left. reply.items ≡ left)) }
    ensures most { IfOk result (λ reply. vec_len reply ≤ MOST_BYTES) }
{
    let mut reply = Vec::new(alloc);
    let count = stream.take(MOST_BYTES + 1).read_to_end(&mut reply)?;
    if MOST_BYTES < count as u64 {
        return Err(io::Error::from(ErrorKind::FileTooLarge));
    }
    Ok(reply)
}
