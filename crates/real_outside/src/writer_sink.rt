// Standard output, or another writer, as a sink.
ghost use Rattle.std.specs.Prelude.{◌≡◌, ◌≤◌, ◌<◌, length, take, IfOk, OnOk, OnErr};
ghost use Rattle.std.specs.Io.KnownBytes.{WriteAppends};
ghost use Rattle.std.specs.declared.option.Option.TheVariants.{Some};
ghost use Rattle.outside.specs.Causes.{RoseBy};
ghost use Rattle.outside.specs.Streams.{appends};

use call_log::ByteLog;
use outside::{Failed, Sink};
use std::io::{ErrorKind, Write};

/// A writer, with a log of the bytes that it took, which no memory holds. A write that was interrupted is tried again, and one that takes nothing of a
/// piece with bytes is a fault.
#[derive(Drop)]
pub struct WriterSink<W> {
    writer: W,
    log: ByteLog,
    faults: u64,
}

impl<W> WriterSink<W> {
    ghost use Rattle.real_outside.specs.StreamsAdapters.{writer_of, written_by, sink_faults};

    /// After the bytes of this log. No fault so far.
    pub fn new(writer: W, log: ByteLog) -> WriterSink<W>
        ensures writer { writer_of result ≡ writer }
        ensures log { written_by result ≡ log.bytes }
        ensures none { sink_faults result ≡ 0 }
    {
        WriterSink {
            writer,
            log,
            faults: 0,
        }
    }
}

impl<W: Write> Sink for WriterSink<W> {
    ghost use Rattle.real_outside.specs.StreamsAdapters.{writer_of, written_by, sink_faults};

    ghost written = { λ s. Some s.log.bytes };

    ghost faults = { λ s. s.faults };

    fn write(&mut self, piece: &[u8]) -> Result<usize, Failed>
        ensures bound { IfOk result (λ n. n ≤ length piece.now) }
        ensures some { IfOk result (λ n. 0 < length piece.now → 0 < n) }
        ensures ok { IfOk result (λ n. Some (written_by self.new) ≡ appends (Some (written_by self.old)) (take n piece.now)) }
        ensures err { OnErr result (Some (written_by self.new) ≡ Some (written_by self.old)) }
        ensures grows { sink_faults self.old ≤ sink_faults self.new }
        ensures cause { OnErr result (RoseBy 1 (sink_faults self.old) (sink_faults self.new)) }
        ensures quiet { OnOk result (sink_faults self.new ≡ sink_faults self.old) }

        ensures bytes { WriteAppends (W.contents (writer_of self.old)) (W.contents (writer_of self.new)) result piece.now }
    {
        for _ in 0..u64::MAX {
            match self.writer.write(piece) {
                Ok(n) if n > 0 || piece.is_empty() => {
                    self.log.note(&piece[..n]);
                    return Ok(n);
                }
                Err(error) if error.kind() == ErrorKind::Interrupted => {}
                _ => break,
            }
        }
        self.faults = self.faults.saturating_add(1);
        Err(Failed)
    }
}
