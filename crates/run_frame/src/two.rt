// Two password lines.
ghost use Rattle.std.specs.Prelude.{◌≡◌, ◌≤◌, List, [], ℕ, IfOk, IfErr, length, vec_capacity};
ghost use Rattle.std.specs.declared.option.Option.TheVariants.{Some};
ghost use Rattle.std.specs.declared.result.Result.TheVariants.{Err};
ghost use Rattle.line_io.specs.script_text.declared.grammar.TheConstants.{MAX_LINE};
ghost use Rattle.line_io.specs.Streams.{stream_of};
ghost use Rattle.run_frame.specs.Passwords.{PasswordsRead, PasswordsUnread};

use crate::one::read_password;
use block_id::Failed;
use line_io::{LineReader, MAX_LINE};
use outside::Source;
use run_status::Status;
use std::alloc::Global;

/// The old password, and the reader that holds the new one.
#[derive(Drop)]
pub struct PasswordChange {
    pub old: Vec<u8>,
    pub reader: LineReader,
}

/// Copies the line that was read, into memory taken beforehand.
pub fn copy_line(reader: &LineReader, copy: &mut Vec<u8>)
    requires held { (line : List ℕ) × (reader.now.line ≡ Some line) × (length line ≤ MAX_LINE) }
    requires empty { copy.old.items ≡ [] }
    requires room { MAX_LINE ≤ vec_capacity copy.old }
    ensures { reader.now.line ≡ Some copy.new.items }
{
    let Some(line) = reader.line() else {
        unreachable!()
    };
    match copy.extend_from_slice(line) {
        Ok(()) => {}
        Err(_) => unreachable!(),
    }
}

/// Reads the first line of an input as the old password and the second as the new one, no bytes where there is none.
/// LongPassword comes exactly where one of the lines passes 1,048,576 bytes in the bytes that were taken, and goes
/// before InputFault. Memory comes before anything is read.
pub fn read_two_passwords<I: Source>(alloc: Global, input: &mut I) -> Result<PasswordChange, Status>
    ensures read { IfOk result (λ change. (taken : List ℕ) × (new : List ℕ)
        × PasswordsRead (stream_of I.rest I.faults input.old input.new) change.reader taken change.old.items new) }
    ensures unread { IfErr result (λ status. PasswordsUnread (stream_of I.rest I.faults input.old input.new) status) }
    ensures untouched { (result ≡ Err Status.Memory) → input.new ≡ input.old }
    ensures grows { I.faults input.old ≤ I.faults input.new }
{
    let Ok(mut old) = Vec::with_capacity(alloc, MAX_LINE) else {
        return Err(Status::Memory);
    };
    let mut reader = match read_password(alloc, input) {
        Ok(reader) => reader,
        Err(status) => return Err(status),
    };
    copy_line(&reader, &mut old);
    let read = reader.next_line(input);
    if reader.line().is_none() {
        return Err(Status::LongPassword);
    }
    match read {
        Ok(_) => Ok(PasswordChange { old, reader }),
        Err(Failed) => Err(Status::InputFault),
    }
}
