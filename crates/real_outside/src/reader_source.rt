// Standard input, or another reader, as a source.
ghost use Rattle.std.specs.Prelude.{◌≡◌, ◌≤◌, length, IfOk, OnOk, OnErr};
ghost use Rattle.std.specs.Io.KnownBytes.{ReadConsumes};
ghost use Rattle.std.specs.declared.option.Option.TheVariants.{None};
ghost use Rattle.outside.specs.Causes.{RoseBy};

use outside::{Failed, Source};
use std::io::{ErrorKind, Read};

/// A reader of which nothing is told. A read that was interrupted is tried again.
#[derive(Drop)]
pub struct ReaderSource<R> {
    reader: R,
    faults: u64,
}

impl<R> ReaderSource<R> {
    ghost use Rattle.real_outside.specs.StreamsAdapters.{reader_of, source_faults};

    /// No fault so far.
    pub fn new(reader: R) -> ReaderSource<R>
        ensures reader { reader_of result ≡ reader }
        ensures none { source_faults result ≡ 0 }
    {
        ReaderSource { reader, faults: 0 }
    }
}

impl<R: Read> Source for ReaderSource<R> {
    ghost use Rattle.real_outside.specs.StreamsAdapters.{reader_of, source_faults};

    ghost rest = { λ _. None };

    ghost faults = { λ s. s.faults };

    // Of a reader nothing is told, so neither is what a read took of it.
    ghost took = { λ old new _. new.faults ≡ old.faults };

    fn read(&mut self, piece: &mut [u8]) -> Result<usize, Failed>
        ensures bound { IfOk result (λ n. n ≤ length piece.old) }
        ensures grows { source_faults self.old ≤ source_faults self.new }
        ensures cause { OnErr result (RoseBy 1 (source_faults self.old) (source_faults self.new)) }
        ensures quiet { OnOk result (source_faults self.new ≡ source_faults self.old) }

        ensures bytes { ReadConsumes (R.remaining (reader_of self.old)) (R.remaining (reader_of self.new)) result piece.new }
    {
        for _ in 0..u64::MAX {
            match self.reader.read(piece) {
                Ok(n) => return Ok(n),
                Err(error) if error.kind() == ErrorKind::Interrupted => {}
                Err(_) => break,
            }
        }
        self.faults = self.faults.saturating_add(1);
        Err(Failed)
    }
}
