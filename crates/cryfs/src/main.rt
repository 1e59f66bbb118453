//! The program: what the system gives it, and the real streams.
#![tactic(auto)]

use call_log::{ByteLog, CallLog};
use program_run::program_inputs::Inputs;
use program_run::real_outside::{ReaderSource, WriterSink};
use program_run::run_program;
use run_status::{Status, Storage};
use std::io;
use std::process::ExitCode;

/// The past that `main` chooses: no calls, and no save that failed. `run_program` is proved behind any other as well, and no code
/// reads one.
fn past() -> CallLog {
    CallLog::new()
}

/// Runs the words after the block folder and the state folder, from standard input to standard output. A copy out that ends well is
/// on the disk.
fn run_words(rt: &HostRuntime) -> Status {
    let (inputs, mut chance) = match Inputs::read(rt) {
        Ok(read) => read,
        Err(status) => return status,
    };
    let Ok(keeper) = inputs.make_keeper(rt, past()) else {
        return Status::Memory;
    };
    let mut host = inputs.host(rt);
    let ended = run_program(
        rt.alloc(),
        &inputs,
        &mut ReaderSource::new(rt.reader()),
        &mut WriterSink::new(io::writer(rt), ByteLog::new()),
        Storage {
            vault: inputs.vault(rt, past()),
            keeper,
        },
        &mut chance,
        &mut host,
    );
    if host.end().is_err() {
        return ended.status.or(Status::HostFault);
    }
    ended.status
}

fn main(rt: HostRuntime) -> ExitCode {
    let status = run_words(&rt);
    if status != Status::Done {
        let text = status.text();
        let _ = eprintln!(rt; "cryfs: {text}");
    }
    ExitCode::from(status.code())
}
