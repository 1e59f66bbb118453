// Writing the entries of a directory as its body.
ghost use Rattle.std.specs.Prelude.{◌≡◌, ◌≤◌, [], ◌∷◌, ◌++◌, IfOk, OnOk};
ghost use Rattle.fs_model.specs.Names.{IsName};
ghost use Rattle.dir_entries.specs.Layout.{IsBody, IsEntry, HasModes, IsInOrder, moment_text, IsMoment, attr_text, IsAttr, entry_text, entry_of, listing_of};

use crate::Entry;
use block_id::Memory;
use byte_fields::{put_id, put_u32, put_u64};
use fs_model::{Attr, MAX_MODE, Moment, Name, kind_byte};
use std::alloc::Global;

/// The body of a directory with these entries.
pub fn encode_entries(alloc: Global, entries: &[Entry]) -> Result<Vec<u8>, Memory>
    requires order { IsInOrder (listing_of entries.now) }
    requires modes { HasModes (listing_of entries.now) }
    ensures { IfOk result (λ bytes. IsBody bytes.items (listing_of entries.now)) }
{
    let mut out = Vec::new(alloc);
    for entry in entries {
        put_entry(&mut out, entry)?;
    }
    Ok(out)
}

/// Puts an entry behind the bytes.
#[tactic(auto, unfolding(crate::specs::Layout::entry_text))]
pub fn put_entry(out: &mut Vec<u8>, entry: &Entry) -> Result<(), Memory>
    requires { entry.now.attr.mode ≤ MAX_MODE }
    ensures text { OnOk result (out.new.items ≡ out.old.items ++ entry_text (entry_of entry.now)) }
    ensures types { OnOk result (IsEntry (entry_of entry.now)) }
{
    put_attr(out, &entry.attr)?;
    put_name(out, &entry.name)?;
    put_id(out, &entry.blob)
}

fn put_attr(out: &mut Vec<u8>, attr: &Attr) -> Result<(), Memory>
    requires { attr.now.mode ≤ MAX_MODE }
    ensures text { OnOk result (out.new.items ≡ out.old.items ++ attr_text attr.now) }
    ensures types { OnOk result (IsAttr attr.now) }
{
    out.push(kind_byte(attr.kind))?;
    put_u32(out, attr.mode)?;
    put_u32(out, attr.uid)?;
    put_u32(out, attr.gid)?;
    put_moment(out, attr.atime)?;
    put_moment(out, attr.mtime)?;
    put_moment(out, attr.ctime)
}

fn put_moment(out: &mut Vec<u8>, moment: Moment) -> Result<(), Memory>
    ensures text { OnOk result (out.new.items ≡ out.old.items ++ moment_text moment) }
    ensures types { IsMoment moment }
{
    put_u64(out, moment.secs())?;
    put_u32(out, moment.nanos())
}

fn put_name(out: &mut Vec<u8>, name: &Name) -> Result<(), Memory>
    ensures text { OnOk result (out.new.items ≡ out.old.items ++ name.now ++ 0 ∷ []) }
    ensures types { IsName name.now }
{
    out.extend_from_slice(name.as_slice())?;
    out.push(0)?;
    Ok(())
}
