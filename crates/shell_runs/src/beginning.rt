// What each session begins with.
ghost use Rattle.std.specs.Prelude.{◌≤◌, List, ℕ, IfOk, IfErr};
ghost use Rattle.session_laws.specs.line_io.Streams.{stream_of};
ghost use Rattle.session_laws.specs.run_frame.Passwords.{PasswordRead, PasswordUnread};

use crate::asks::Asks;
use outside::Source;
use run_status::Status;
use session_laws::run_frame::line_io::{LineReader, MAX_LINE};
use session_laws::run_frame::{copy_line, read_password};
use std::alloc::Global;

/// The password, the reader that has taken its line, and the memory for texts.
pub(crate) struct Beginning<T> {
    pub(crate) password: Vec<u8>,
    pub(crate) reader: LineReader,
    pub(crate) text: T,
}

/// Takes the memory for lines and texts, and then reads the password line of the input.
pub(crate) fn begin<A: Asks, I: Source>(
    alloc: Global,
    input: &mut I,
) -> Result<Beginning<A::Text>, Status>
    ensures read { IfOk result (λ b. (taken : List ℕ)
        × PasswordRead (stream_of I.rest I.faults input.old input.new) b.reader taken b.password.items) }
    ensures unread { IfErr result (λ status. PasswordUnread (stream_of I.rest I.faults input.old input.new) status) }
    ensures grows { I.faults input.old ≤ I.faults input.new }
{
    let Ok(text) = A::text(alloc) else {
        return Err(Status::Memory);
    };
    let Ok(mut password) = Vec::with_capacity(alloc, MAX_LINE) else {
        return Err(Status::Memory);
    };
    let reader = match read_password(alloc, input) {
        Ok(reader) => reader,
        Err(status) => return Err(status),
    };
    copy_line(&reader, &mut password);
    Ok(Beginning {
        password,
        reader,
        text,
    })
}
