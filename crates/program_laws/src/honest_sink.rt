// An output in memory that fails for want of memory alone.
ghost use Rattle.std.specs.Prelude.{◌≡◌, ◌≤◌, ◌<◌, ◌++◌, ℕ, List, [], length, take, IfOk, OnOk, OnErr};
ghost use Rattle.std.specs.declared.option.Option.TheVariants.{Some};
ghost use Rattle.outside.specs.Causes.{RoseBy};
ghost use Rattle.outside.specs.Streams.{appends};

use block_id::Failed;
use outside::Sink;
use std::alloc::Global;

/// The bytes that were written, and how often memory for more was refused.
#[derive(Drop)]
pub struct HonestSink {
    written: Vec<u8>,
    faults: u64,
}

impl HonestSink {
    /// Nothing is written yet.
    pub fn new(alloc: Global) -> HonestSink
        ensures empty { result.written.items ≡ [] }
        ensures faultless { result.faults ≡ 0 }
    {
        HonestSink {
            written: Vec::new(alloc),
            faults: 0,
        }
    }

    /// The bytes written.
    pub fn into_written(self) -> Vec<u8>
        ensures { result.items ≡ self.written.items }
    {
        self.written
    }
}

impl Sink for HonestSink {
    ghost written = { λ s. Some s.written.items };

    ghost faults = { λ s. s.faults };

    fn write(&mut self, piece: &[u8]) -> Result<usize, Failed> {
        match self.written.extend_from_slice(piece) {
            Ok(()) => Ok(piece.len()),
            Err(_) => {
                self.faults = self.faults.saturating_add(1);
                Err(Failed)
            }
        }
    }
}
