// What each session begins with.
ghost use Rattle.std.specs.Prelude.{◌≤◌, List, ℕ, IfOk, IfErr};
ghost use Rattle.line_io.specs.Streams.{stream_of};
ghost use Rattle.run_frame.specs.Passwords.{PasswordRead, PasswordUnread};

use crate::{copy_line, read_password};
use line_io::{LineReader, MAX_LINE};
use outside::Source;
use run_status::Status;
use session_lines::answers::TextBuffer;
use std::alloc::Global;

/// The password, the reader that has taken its line, and the memory for texts.
pub struct Beginning {
    pub password: Vec<u8>,
    pub reader: LineReader,
    pub text: TextBuffer,
}

/// Takes the memory for lines and texts, and then reads the password line of the input.
pub fn begin<I: Source>(alloc: Global, input: &mut I) -> Result<Beginning, Status>
    ensures read { IfOk result (λ b. (taken : List ℕ)
        × PasswordRead (stream_of I.rest I.faults input.old input.new) b.reader taken b.password.items) }
    ensures unread { IfErr result (λ status. PasswordUnread (stream_of I.rest I.faults input.old input.new) status) }
    ensures grows { I.faults input.old ≤ I.faults input.new }
{
    let Ok(text) = TextBuffer::new(alloc) else {
        return Err(Status::Memory);
    };
    let Ok(mut password) = Vec::with_capacity(alloc, MAX_LINE) else {
        return Err(Status::Memory);
    };
    let reader = match read_password(alloc, input) {
        Ok(reader) => reader,
        Err(status) => return Err(status),
    };
    copy_line(&reader, &mut password);
    Ok(Beginning {
        password,
        reader,
        text,
    })
}
