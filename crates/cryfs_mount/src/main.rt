//! The program that serves a mounted folder: it opens the file system that its two words name under the password line of descriptor 3, and answers
//! the kernel's requests on standard input by replies on standard output, until the folder is unmounted.
#![tactic(auto)]

use call_log::{ByteLog, CallLog};
use mount_run::{MountRequests, run_mount};
use program_inputs::Inputs;
use program_inputs::real_outside::{FolderKeeper, FolderVault, ReaderSource, WriterSink};
use rand_chacha::ChaCha20Rng;
use run_status::{Status, Storage};
use std::fs::{File, OpenOptions};
use std::process::ExitCode;

/// The descriptor that has the password line.
const PASSWORD: &str = "/dev/fd/3";

/// The descriptor that is told, by one byte, that the file system is open.
const OPENED: &str = "/dev/fd/4";

/// Where nobody is told, if that descriptor isn't open.
const NOBODY: &str = "/dev/null";

/// What the words after the two folders would be of a session, which uses the record as a mount does.
const SESSION: &str = "shell";

/// The inputs of a mount, which has no words after the two folders.
fn read_inputs(rt: &HostRuntime) -> Result<(Inputs, ChaCha20Rng), Status> {
    let (mut inputs, chance) = match Inputs::read(rt) {
        Ok(read) => read,
        Err(status) => return Err(status),
    };
    if !inputs.words.is_empty() {
        return Err(Status::Usage);
    }
    let Ok(word) = String::from_str(rt.alloc(), SESSION) else {
        return Err(Status::Memory);
    };
    match inputs.words.push(word) {
        Ok(()) => Ok((inputs, chance)),
        Err(_) => Err(Status::Memory),
    }
}

/// The two folders, before anything is read of them.
fn storage_of<'a>(
    rt: &HostRuntime,
    inputs: &'a Inputs,
) -> Result<Storage<FolderVault<'a, HostRuntime>, FolderKeeper<'a, HostRuntime>>, Status> {
    let Ok(keeper) = inputs.make_keeper(rt, CallLog::new()) else {
        return Err(Status::Memory);
    };
    let vault = inputs.vault(rt, CallLog::new());
    Ok(Storage { vault, keeper })
}

/// The descriptor that is told that the file system is open, or one that tells nobody.
fn open_told(rt: &HostRuntime) -> Result<File, Status> {
    if let Ok(file) = OpenOptions::new().write(true).open(rt, OPENED) {
        return Ok(file);
    }
    match OpenOptions::new().write(true).open(rt, NOBODY) {
        Ok(file) => Ok(file),
        Err(_) => Err(Status::OutputFault),
    }
}

fn run(rt: &HostRuntime) -> Status {
    // (before anything else is opened, which could get their numbers)
    let password = File::open(rt, PASSWORD);
    let opened = open_told(rt);
    let (inputs, mut chance) = match read_inputs(rt) {
        Ok(read) => read,
        Err(status) => return status,
    };
    let Ok(password) = password else {
        return Status::InputFault;
    };
    let opened = match opened {
        Ok(opened) => opened,
        Err(status) => return status,
    };
    let storage = match storage_of(rt, &inputs) {
        Ok(storage) => storage,
        Err(status) => return status,
    };
    let requests = MountRequests {
        clock: rt,
        now: inputs.now,
        requests: &mut rt.stdin(),
        replies: &mut rt.stdout(),
        notes: &mut rt.stderr(),
    };
    run_mount(
        rt.alloc(),
        requests,
        &mut ReaderSource::new(password),
        &mut WriterSink::new(opened, ByteLog::new()),
        storage,
        &mut chance,
        &mut inputs.host(rt),
    )
    .status
}

fn main(rt: HostRuntime) -> ExitCode {
    let status = run(&rt);
    if status != Status::Done {
        let text = status.text();
        let _ = eprintln!(rt; "cryfs: {text}");
    }
    ExitCode::from(status.code())
}
