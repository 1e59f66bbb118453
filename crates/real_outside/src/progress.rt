// How far a run is that reads each block, on a terminal.
use std::fmt::{self, Display, Formatter, Write};
use std::io::IsTerminal;
use std::time::Instant;

/// The least time between two lines, in milliseconds.
const PAUSE: u128 = 1000;

/// How many blocks were read so far, on one line that is written over where standard error is a terminal. Elsewhere none is written.
#[derive(Drop)]
pub struct Progress {
    rt: HostRuntime,
    is_terminal: bool,
    blocks: u64,
    begun: Option<Instant>,
    /// When the line was written last.
    written: Option<Instant>,
}

impl Progress {
    pub fn new(rt: HostRuntime) -> Progress {
        Progress {
            rt,
            is_terminal: rt.stderr().is_terminal(),
            blocks: 0,
            begun: None,
            written: None,
        }
    }

    /// Counts one block more of so many, and writes the line where its time has come.
    pub fn add(&mut self, known: u64) {
        self.blocks = self.blocks.saturating_add(1);
        if !self.is_terminal {
            return;
        }
        let Ok(now) = Instant::now(&self.rt) else {
            return;
        };
        let begun = self.begun.unwrap_or(now);
        self.begun = Some(begun);
        let last = self.written.unwrap_or(begun);
        if now.duration_since(last).as_millis() >= PAUSE {
            self.write(known, now.duration_since(begun).as_millis());
            self.written = Some(now);
        }
    }

    /// Writes the line after so many milliseconds, over the last one. The cursor stands below it, where the output goes on.
    fn write(&self, known: u64, passed: u128) {
        let blocks = self.blocks;
        let rate = u128::from(blocks) * 1000 / passed.max(1);
        let left = Left(u128::from(known.saturating_sub(blocks)) / rate.max(1));
        let over = if self.written.is_some() { "\x1b[A" } else { "" };
        let _ = eprintln!(self.rt;
            "{over}\rcryfs: read {blocks} of about {known} blocks, {rate}/s, {left} left\x1b[K"
        );
    }
}

/// Seconds, or minutes where they are more than two of these.
#[derive(Drop)]
struct Left(u128);

impl Display for Left {
    fn fmt<W: Write>(&self, f: &mut Formatter<W>) -> fmt::Result {
        if self.0 > 120 {
            write!(f, "{} min", self.0 / 60)
        } else {
            write!(f, "{} s", self.0)
        }
    }
}
