// Parts of the bytes of a tree.
ghost use Rattle.std.specs.Prelude.{◌≡◌, ◌-◌, ◌++◌, OnOk};
ghost use Rattle.data_reads.specs.Reading.{between};

use block_id::Memory;

/// The places of a list from `from` up to `to`.
#[derive(Clone, Copy)]
pub struct Part {
    pub from: u64,
    pub to: u64,
}

impl Part {
    /// The part as it lies behind the first `room` places.
    pub fn after(self, room: u64) -> Part
        ensures from { result.from ≡ self.from - room }
        ensures to { result.to ≡ self.to - room }
    {
        Part {
            from: self.from.saturating_sub(room),
            to: self.to.saturating_sub(room),
        }
    }
}

/// Appends a part of the bytes.
pub fn append_part(bytes: &[u8], part: Part, out: &mut Vec<u8>) -> Result<(), Memory>
    ensures { OnOk result (out.new.items ≡ out.old.items ++ between part.from part.to bytes.now) }
{
    let end = part.to.min(bytes.len() as u64) as usize;
    let start = part.from.min(end as u64) as usize;
    out.extend_from_slice(&bytes[start..end])?;
    Ok(())
}
