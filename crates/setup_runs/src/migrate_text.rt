// What `migrate` prints.
ghost use Rattle.std.specs.Prelude.{◌≡◌, ◌≤◌, ◌<◌, ◌+◌, [], OnErr, vec_capacity, vec_len};
ghost use Rattle.run_frame.specs.line_io.Streams.{stream_of};
ghost use Rattle.mount_migrating.specs.script_text.Appending.{Appends};
ghost use Rattle.mount_migrating.specs.Migrating.{answer_of};
ghost use Rattle.run_frame.specs.session_lines.Driven.{Reported};
ghost use Rattle.setup_runs.specs.MigrateText.{migrated_text, count_text};

use block_id::{Failed, Memory};
use mount_migrating::MigrateError;
use mount_migrating::script_text::{push_bytes, push_decimal};
use outside::Sink;
use run_frame::answers::{Answer, print_answer};
use run_frame::line_io::write_all;
use run_frame::session_lines::End;

/// Prints how many blocks were written anew, or why not all were, by memory that was taken beforehand.
pub fn print_migrated<O: Sink>(
    migration: Result<u64, MigrateError>,
    text: &mut Vec<u8>,
    output: &mut O,
) -> End
    requires room { 256 ≤ vec_capacity text.old }
    requires empty { text.old.items ≡ [] }
    ensures reported { Reported (stream_of O.written O.faults output.old output.new) (migrated_text migration) result }
    ensures grows { O.faults output.old ≤ O.faults output.new }
{
    match push_migrated(text, migration) {
        Ok(()) => {}
        Err(Memory) => unreachable!(),
    }
    match write_all(output, text) {
        Ok(()) => End::Finished,
        Err(Failed) => End::OutputFault,
    }
}

/// Appends the line.
fn push_migrated(text: &mut Vec<u8>, migration: Result<u64, MigrateError>) -> Result<(), Memory>
    ensures text { Appends text.old text.new result (migrated_text migration) }
    ensures wants { OnErr result (vec_capacity text.old < vec_len text.old + 256) }
{
    match migration {
        Ok(count) => push_count(text, count),
        Err(error) => print_answer(&answer_of(error), text),
    }
}

/// Appends the line of a number of blocks.
fn push_count(text: &mut Vec<u8>, count: u64) -> Result<(), Memory>
    ensures { Appends text.old text.new result (count_text count) }
{
    push_bytes(text, b"migrated")?;
    push_decimal(text, count)?;
    push_bytes(text, b"\n")
}

/// The error as a session's answer.
fn answer_of(error: MigrateError) -> Answer
    ensures { result ≡ answer_of error }
{
    match error {
        MigrateError::Memory => Answer::Memory,
        MigrateError::Spent => Answer::Spent,
        MigrateError::FaultDirectory => Answer::FaultDirectory,
        MigrateError::FaultState => Answer::FaultState,
        MigrateError::Violation(why) => Answer::Violation(why),
    }
}
