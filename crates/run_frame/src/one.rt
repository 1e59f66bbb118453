// One password line.
ghost use Rattle.std.specs.Prelude.{◌≡◌, ◌≤◌, List, ℕ, IfOk, IfErr};
ghost use Rattle.std.specs.declared.result.Result.TheVariants.{Err};
ghost use Rattle.line_io.specs.Streams.{stream_of};
ghost use Rattle.run_frame.specs.Passwords.{PasswordRead, PasswordUnread};

use block_id::Failed;
use line_io::LineReader;
use outside::Source;
use run_status::Status;
use std::alloc::Global;

/// Reads the first line of an input as the password, which the reader then holds, no bytes where there is none.
/// LongPassword comes exactly where the line passes 1,048,576 bytes in the bytes that were taken, and goes before
/// InputFault. Memory comes before anything is read.
pub fn read_password<I: Source>(alloc: Global, input: &mut I) -> Result<LineReader, Status>
    ensures read { IfOk result (λ reader. (taken : List ℕ) × (password : List ℕ)
        × PasswordRead (stream_of I.rest I.faults input.old input.new) reader taken password) }
    ensures unread { IfErr result (λ status. PasswordUnread (stream_of I.rest I.faults input.old input.new) status) }
    ensures untouched { (result ≡ Err Status.Memory) → input.new ≡ input.old }
    ensures grows { I.faults input.old ≤ I.faults input.new }
{
    let Ok(mut reader) = LineReader::new(alloc) else {
        return Err(Status::Memory);
    };
    let read = reader.next_line(input);
    if reader.line().is_none() {
        return Err(Status::LongPassword);
    }
    match read {
        Ok(_) => Ok(reader),
        Err(Failed) => Err(Status::InputFault),
    }
}
