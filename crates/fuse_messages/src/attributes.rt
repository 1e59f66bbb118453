// Nodes as the kernel is told of them.
ghost use Rattle.std.specs.Prelude.{◌≡◌, ◌++◌, OnOk};
ghost use Rattle.fuse_messages.specs.Layout.{attributes_text, entry_text, times_text};

use crate::structures::{Entry, NodeAttributes, Times};
use block_id::Memory;
use byte_fields::{put_u32, put_u64};

#[tactic(auto, unfolding(crate::specs::Layout::times_text))]
fn put_times(out: &mut Vec<u8>, times: &Times) -> Result<(), Memory>
    ensures { OnOk result (out.new.items ≡ out.old.items ++ times_text times.now) }
{
    put_u64(out, times.atime)?;
    put_u64(out, times.mtime)?;
    put_u64(out, times.ctime)?;
    put_u32(out, times.atime_nanos)?;
    put_u32(out, times.mtime_nanos)?;
    put_u32(out, times.ctime_nanos)?;
    Ok(())
}

/// Appends attributes.
#[tactic(auto, unfolding(crate::specs::Layout::attributes_text))]
pub fn put_attributes(out: &mut Vec<u8>, it: &NodeAttributes) -> Result<(), Memory>
    ensures { OnOk result (out.new.items ≡ out.old.items ++ attributes_text it.now) }
{
    put_u64(out, it.node)?;
    put_u64(out, it.size)?;
    put_u64(out, it.blocks)?;
    put_times(out, &it.times)?;
    put_u32(out, it.mode)?;
    put_u32(out, it.links)?;
    put_u32(out, it.uid)?;
    put_u32(out, it.gid)?;
    put_u32(out, it.device)?;
    put_u32(out, it.block_size)?;
    put_u32(out, it.flags)?;
    Ok(())
}

/// Appends an entry.
#[tactic(auto, unfolding(crate::specs::Layout::entry_text))]
pub fn put_entry(out: &mut Vec<u8>, entry: &Entry) -> Result<(), Memory>
    ensures { OnOk result (out.new.items ≡ out.old.items ++ entry_text entry.now) }
{
    put_u64(out, entry.node)?;
    put_u64(out, entry.generation)?;
    put_u64(out, entry.entry_valid)?;
    put_u64(out, entry.attributes_valid)?;
    put_u32(out, entry.entry_valid_nanos)?;
    put_u32(out, entry.attributes_valid_nanos)?;
    put_attributes(out, &entry.attributes)?;
    Ok(())
}
