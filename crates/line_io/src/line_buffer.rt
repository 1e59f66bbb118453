// The line that is being read.
ghost use Rattle.std.specs.Prelude.{◌≡◌, ◌≤◌, ℕ, cond, List, [], length, IfOk, vec_capacity};
ghost use Rattle.std.specs.Option.{option_copied};
ghost use Rattle.std.specs.declared.option.Option.{Option};
ghost use Rattle.std.specs.declared.option.Option.TheVariants.{None, Some};
ghost use Rattle.line_io.specs.Lines.{kept_on};

use block_id::Memory;
use script_text::MAX_LINE;
use std::alloc::Global;
use std::marker::Model;

/// A line of up to 1,048,576 bytes, in memory taken beforehand. A longer line isn't kept.
#[derive(Drop)]
pub struct LineBuffer {
    bytes: Vec<u8>,
    is_long: bool,
}

impl Model for LineBuffer {
    ghost Value = { Option (List ℕ) };

    ghost view = { λ b. cond b.is_long None (Some b.bytes.items) };

    ghost invariant = { λ b. (1048576 ≤ vec_capacity b.bytes) × (length b.bytes.items ≤ 1048576) };
}

impl LineBuffer {
    /// An empty line; takes the memory for the longest.
    pub fn new(alloc: Global) -> Result<LineBuffer, Memory>
        ensures { IfOk result (λ line. line ≡ Some []) }
    {
        Ok(LineBuffer {
            bytes: Vec::with_capacity(alloc, MAX_LINE)?,
            is_long: false,
        })
    }

    /// Begins an empty line.
    pub fn clear(&mut self)
        ensures { self.new ≡ Some [] }
    {
        self.bytes.clear();
        self.is_long = false;
    }

    /// The line goes on by these bytes.
    pub fn append(&mut self, part: &[u8])
        ensures { self.new ≡ kept_on self.old part.now }
    {
        if self.is_long {
            return;
        }
        if part.len() > MAX_LINE - self.bytes.len() {
            self.is_long = true;
            return;
        }
        match self.bytes.extend_from_slice(part) {
            Ok(()) => {}
            Err(_) => unreachable!(),
        }
    }

    /// The line, or None for one of more than 1,048,576 bytes.
    pub fn line(&self) -> Option<&[u8]>
        ensures { option_copied result ≡ self.now }
    {
        if self.is_long {
            None
        } else {
            Some(&self.bytes)
        }
    }
}
