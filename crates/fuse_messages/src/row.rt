// Rows of a directory.
ghost use Rattle.std.specs.Prelude.{◌≡◌, ◌<◌, ◌≤◌, ◌++◌, length, OnOk};
ghost use Rattle.fuse_messages.specs.Layout.{fill, row_text};

use crate::structures::Row;
use block_id::Memory;
use byte_fields::{put_u32, put_u64};

/// Bytes of a row beside its name, and the zeros behind that.
pub const ROW_HEADER: usize = 24;

/// Appends a row of a directory, filled up with zeros to a multiple of 8.
#[tactic(auto, unfolding(crate::specs::Layout::row_text))]
pub fn put_row(out: &mut Vec<u8>, row: &Row<'_>) -> Result<(), Memory>
    requires { length row.now.name.now ≤ 255 }
    ensures { OnOk result (out.new.items ≡ out.old.items ++ row_text row.now.node row.now.place row.now.kind row.now.name.now) }
{
    put_u64(out, row.node)?;
    put_u64(out, row.place)?;
    put_u32(out, row.name.len() as u32)?;
    put_u32(out, row.kind)?;
    out.extend_from_slice(row.name)?;
    put_fill(out, row.name.len())?;
    Ok(())
}

/// Appends zeros up to the next multiple of 8.
fn put_fill(out: &mut Vec<u8>, len: usize) -> Result<(), Memory>
    ensures { OnOk result (out.new.items ≡ out.old.items ++ fill len) }
{
    let zeros = [0u8; 8];
    out.extend_from_slice(&zeros[..(8 - len % 8) % 8])?;
    Ok(())
}
