// Requests from the kernel, and replies to it.
ghost use Rattle.std.specs.Prelude.{◌≡◌, false};
ghost use Rattle.std.specs.Io.KnownBytes.{Keeps};
ghost use Rattle.mount_serving.specs.Turns.{Gives};

use std::io::{Error, ErrorKind, Read, Write};
use std::thread;
use std::time::{Clock, Duration};

/// The system's number for a device that is gone: the folder was unmounted.
const NO_DEVICE: i32 = 19;

/// Milliseconds for which the first request is waited for, since the device can't be read before it is mounted.
const MOST_WAITS: u32 = 30_000;

/// Why there are no more requests.
#[derive(Clone, Copy, PartialEq, Eq)]
pub(crate) enum Stop {
    Unmounted,
    Fault,
}

/// The next request: so many bytes of the buffer.
pub(crate) fn next_request<I: Read>(input: &mut I, buffer: &mut [u8]) -> Result<usize, Stop> {
    for _ in 0..u64::MAX {
        match input.read(buffer) {
            Ok(0) => return Err(Stop::Unmounted),
            Ok(n) => return Ok(n),
            Err(error) if error.kind() == ErrorKind::Interrupted => {}
            // (a request that was taken back)
            Err(error) if error.kind() == ErrorKind::NotFound => {}
            Err(error) => return Err(stop_of(&error)),
        }
    }
    Err(Stop::Fault)
}

fn stop_of(error: &Error) -> Stop {
    if error.raw_os_error() == Some(NO_DEVICE) || error.kind() == ErrorKind::ConnectionAborted {
        Stop::Unmounted
    } else {
        Stop::Fault
    }
}

/// The first request. The device may be handed over before it is mounted, and isn't permitted to be read until then.
pub(crate) fn first_request<C: Clock, I: Read>(
    clock: &C,
    input: &mut I,
    buffer: &mut [u8],
) -> Result<usize, Stop> {
    for _ in 0..MOST_WAITS {
        match input.read(buffer) {
            Ok(0) => return Err(Stop::Unmounted),
            Ok(n) => return Ok(n),
            Err(error) if error.kind() == ErrorKind::PermissionDenied => {
                thread::sleep(clock, Duration::from_millis(1));
            }
            Err(error) if error.kind() == ErrorKind::Interrupted => {}
            Err(error) if error.kind() == ErrorKind::NotFound => {}
            Err(error) => return Err(stop_of(&error)),
        }
    }
    Err(Stop::Fault)
}

/// Gives a reply in one write. False where the kernel doesn't take it. One that nobody waits for any more counts as given.
pub(crate) fn give<O: Write>(output: &mut O, reply: &[u8]) -> bool
    ensures given { Gives (O.contents output.old) (O.contents output.new) reply.now }
    ensures kept { result ≡ false → Keeps (O.contents output.old) (O.contents output.new) }
{
    'tries: for _ in 0..u64::MAX {
        match output.write(reply) {
            Ok(_) => return true,
            Err(error) if error.kind() == ErrorKind::Interrupted => {}
            Err(error) => return error.kind() == ErrorKind::NotFound,
        }
    }
    false
}
