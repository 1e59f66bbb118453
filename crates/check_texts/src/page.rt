// Text that waits to be written.
ghost use Rattle.std.specs.Prelude.{◌≡◌, ◌≤◌, ℕ, List, [], vec_capacity, IfOk, IfErr};
ghost use Rattle.copy_sessions.specs.line_io.Streams.{stream_of};
ghost use Rattle.check_texts.specs.Printing.{Prints};
ghost use Rattle.check_texts.specs.declared.error.PrintError.TheVariants.{Failed};

use crate::error::PrintError;
use block_id::Memory;
use copy_sessions::line_io::write_all;
use outside::Sink;
use std::alloc::Global;
use std::marker::Model;

/// So many bytes don't wait any more.
pub const FULL_PAGE: usize = 65_536;

/// Text that waits to be written, with the memory for 65,536 bytes taken beforehand.
#[derive(Drop)]
pub struct Page {
    pub(crate) bytes: Vec<u8>,
}

impl Model for Page {
    ghost Value = { List ℕ };

    ghost view = { λ page. page.bytes.items };

    ghost invariant = { λ page. 65536 ≤ vec_capacity page.bytes };
}

impl Page {
    /// Nothing waits.
    pub fn new(alloc: Global) -> Result<Page, Memory>
        ensures { IfOk result (λ page. page ≡ []) }
    {
        Ok(Page {
            bytes: Vec::with_capacity(alloc, FULL_PAGE)?,
        })
    }

    /// Writes what waits.
    pub(crate) fn write<O: Sink>(&mut self, output: &mut O) -> Result<(), PrintError>
        ensures printed { Prints (stream_of O.written O.faults output.old output.new) self.old [] self.new result }
        ensures empty { self.new ≡ [] }
        ensures failed { IfErr result (λ error. error ≡ Failed) }
        ensures grows { O.faults output.old ≤ O.faults output.new }
    {
        let written = write_all(output, &self.bytes);
        self.bytes.clear();
        Ok(written?)
    }

    /// Writes what waits where it is much.
    pub(crate) fn turn<O: Sink>(&mut self, output: &mut O) -> Result<(), PrintError>
        ensures printed { Prints (stream_of O.written O.faults output.old output.new) self.old [] self.new result }
        ensures grows { O.faults output.old ≤ O.faults output.new }
    {
        if self.bytes.len() < FULL_PAGE {
            return Ok(());
        }
        self.write(output)
    }
}
