// A process beside the program that flushes all files of a disk at once.
ghost use Rattle.std.specs.Prelude.{◌≡◌, ◌++◌, suc, OnOk};
ghost use Rattle.std.specs.Int.{w64, to_le_bytes};
ghost use Rattle.std.specs.Io.KnownBytes.{Appends, Consumes};
ghost use Rattle.real_outside.specs.FlushWords.{request_of, done_of};

use crate::files::numbers;
use std::fs::{self, File, Files, Metadata, OpenOptions};
use std::io::{self, ErrorKind, Read, Write};
use std::os::unix::fs::FileTypeExt;

/// The descriptor of the folder on whose disk the helper flushes files.
const FOLDER: &str = "/dev/fd/5";

/// The descriptor of the pipe that the helper reads.
const REQUESTS: &str = "/dev/fd/6";

/// The descriptor of the pipe in which it answers.
const ANSWERS: &str = "/dev/fd/7";

const FLUSH: [u8; 8] = *b"flush\0\0\0";

const DONE: [u8; 8] = *b"done\0\0\0\0";

/// A helper that was lent: at a request it flushes all that was written on the disk of a folder since that folder was opened for it, and
/// answers with the number of the request.
#[derive(Drop)]
pub struct FlushHelper<F> {
    requests: F,
    answers: F,
    /// The numbers of the folder.
    folder: (u64, u64),
    /// How many requests there were.
    asked: u64,
}

impl<F: Read + Write> FlushHelper<F> {
    /// The helper of this folder, which reads the one file and answers in the other. Nothing was asked yet.
    pub fn new(requests: F, answers: F, folder: &Metadata) -> FlushHelper<F>
        ensures none { result.asked ≡ 0 }
        ensures requests { result.requests ≡ requests }
        ensures answers { result.answers ≡ answers }
    {
        FlushHelper {
            requests,
            answers,
            folder: numbers(folder),
            asked: 0,
        }
    }

    /// The helper that whoever started the program lent it, where that was one. To be called before any file is opened, which could get
    /// its descriptors' numbers.
    pub fn lent<R: Files<File = F>>(files: &R) -> Option<FlushHelper<F>>
    where
        F: Drop,
    {
        let folder = fs::metadata(files, FOLDER).ok()?;
        if !folder.is_dir() || !is_pipe(files, REQUESTS) || !is_pipe(files, ANSWERS) {
            return None;
        }
        // Both ways, so that no request goes to a pipe that nobody reads, which would end the program.
        let requests = OpenOptions::new()
            .read(true)
            .write(true)
            .open(files, REQUESTS)
            .ok()?;
        let answers = fs::open(files, ANSWERS).ok()?;
        Some(FlushHelper::new(requests, answers, &folder))
    }

    /// The numbers of the folder on whose disk it flushes files.
    pub fn folder(&self) -> (u64, u64) {
        self.folder
    }

    /// Asks for a flush, and waits for the answer. It fails where that isn't that this request was done.
    pub fn flush(&mut self) -> io::Result<()>
        ensures next { OnOk result (self.new.asked ≡ suc self.old.asked) }
        ensures asked { OnOk result (Appends (F.contents self.old.requests) (F.contents self.new.requests) (request_of self.new.asked)) }
        ensures told { OnOk result (Consumes (F.remaining self.old.answers) (F.remaining self.new.answers) (done_of self.new.asked)) }
    {
        let Some(number) = self.asked.checked_add(1) else {
            return Err(io::Error::other("too many flushes were asked for"));
        };
        self.asked = number;
        self.requests.write_all(&message(FLUSH, number))?;
        let mut answer = [0; 16];
        self.answers.read_exact(&mut answer)?;
        if answer == message(DONE, number) {
            Ok(())
        } else {
            Err(io::Error::other("the helper didn't flush the blocks"))
        }
    }
}

/// The word and the number behind it.
fn message(word: [u8; 8], number: u64) -> [u8; 16]
    ensures { result ≡ word ++ to_le_bytes w64 number }
{
    let mut bytes = [0; 16];
    bytes[..8].copy_from_slice(&word);
    bytes[8..].copy_from_slice(&number.to_le_bytes());
    bytes
}

/// Whether the descriptor is one of a pipe.
fn is_pipe<R: Files>(files: &R, descriptor: &str) -> bool {
    match fs::metadata(files, descriptor) {
        Ok(found) => found.file_type().is_fifo(),
        Err(_) => false,
    }
}
