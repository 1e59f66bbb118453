// How far a copy is, on a terminal.
use std::fmt::{self, Display, Formatter, Write};
use std::io::IsTerminal;
use std::time::Instant;

/// The least time between two lines, in milliseconds.
const PAUSE: u128 = 250;

/// Files and bytes so far, on one line that is written over where standard error is a terminal. Elsewhere none is written.
#[derive(Drop)]
pub struct Progress {
    rt: HostRuntime,
    is_shown: bool,
    files: u64,
    bytes: u64,
    begun: Option<Instant>,
    /// When the line was written last.
    written: Option<Instant>,
}

impl Progress {
    pub fn new(rt: HostRuntime) -> Progress {
        Progress {
            rt,
            is_shown: rt.stderr().is_terminal(),
            files: 0,
            bytes: 0,
            begun: None,
            written: None,
        }
    }

    /// From here on no line is written.
    pub fn hide(&mut self) {
        self.is_shown = false;
    }

    /// Counts more, and writes the line where its time has come.
    pub fn add(&mut self, files: u64, bytes: u64) {
        self.files = self.files.saturating_add(files);
        self.bytes = self.bytes.saturating_add(bytes);
        if !self.is_shown {
            return;
        }
        let Ok(now) = Instant::now(&self.rt) else {
            return;
        };
        let begun = self.begun.unwrap_or(now);
        self.begun = Some(begun);
        let last = self.written.unwrap_or(begun);
        if now.duration_since(last).as_millis() >= PAUSE {
            self.write(now.duration_since(begun).as_millis());
            self.written = Some(now);
        }
    }

    /// Writes the line after so many milliseconds, over the last one. The cursor stands below it, where the output goes on.
    fn write(&self, passed: u128) {
        let rate = u128::from(self.bytes) * 1000 / passed.max(1);
        let rate = Size(u64::try_from(rate).unwrap_or(u64::MAX));
        let (files, bytes) = (self.files, Size(self.bytes));
        let over = if self.written.is_some() { "\x1b[A" } else { "" };
        let _ = eprintln!(self.rt; "{over}\rcryfs: {files} files, {bytes}, {rate}/s\x1b[K");
    }

    /// Takes the line away: another is written in its place.
    pub fn clear(&mut self) {
        if self.written.is_some() {
            let _ = eprint!(self.rt; "\x1b[A\r\x1b[K");
            self.written = None;
        }
    }
}

/// Bytes as megabytes with one digit behind the point.
#[derive(Drop)]
struct Size(u64);

impl Display for Size {
    fn fmt<W: Write>(&self, f: &mut Formatter<W>) -> fmt::Result {
        let tenths = (self.0 / 1024) * 10 / 1024;
        write!(f, "{}.{} MiB", tenths / 10, tenths % 10)
    }
}
