//! The outside over the system. What stands here tells nothing of the bytes.

mod clock;
mod dial;
mod input;
mod output;
mod tcp;
mod timed;

pub use clock::SystemClock;
pub use dial::{TcpDial, TcpWaiting};
pub use input::StandardInput;
pub use output::StandardOutput;
pub use tcp::{TcpDoor, TcpSink, TcpSource};
