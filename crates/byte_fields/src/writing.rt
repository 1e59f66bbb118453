// Fields put behind bytes.
ghost use Rattle.std.specs.Prelude.{◌≡◌, ◌++◌, length, OnOk, OnErr};
ghost use Rattle.std.specs.Int.{w16, w32, w64, to_le_bytes};

use block_id::{BlockId, Memory};

/// Appends a number as two bytes, the low one first. Without memory the bytes stay as they were.
pub fn put_u16(out: &mut Vec<u8>, number: u16) -> Result<(), Memory>
    ensures text { OnOk result (out.new.items ≡ out.old.items ++ to_le_bytes w16 number) }
    ensures stays { OnErr result (out.new.items ≡ out.old.items) }
{
    let two: [u8; 2] = number.to_le_bytes();
    out.extend_from_slice(&two)?;
    Ok(())
}

/// Appends a number as four bytes, the lowest first. Without memory the bytes stay as they were.
pub fn put_u32(out: &mut Vec<u8>, number: u32) -> Result<(), Memory>
    ensures text { OnOk result (out.new.items ≡ out.old.items ++ to_le_bytes w32 number) }
    ensures stays { OnErr result (out.new.items ≡ out.old.items) }
{
    let four: [u8; 4] = number.to_le_bytes();
    out.extend_from_slice(&four)?;
    Ok(())
}

/// Appends a number as eight bytes, the lowest first. Without memory the bytes stay as they were.
pub fn put_u64(out: &mut Vec<u8>, number: u64) -> Result<(), Memory>
    ensures text { OnOk result (out.new.items ≡ out.old.items ++ to_le_bytes w64 number) }
    ensures stays { OnErr result (out.new.items ≡ out.old.items) }
{
    let eight: [u8; 8] = number.to_le_bytes();
    out.extend_from_slice(&eight)?;
    Ok(())
}

/// Appends the sixteen bytes of an id. Without memory the bytes stay as they were.
pub fn put_id(out: &mut Vec<u8>, id: &BlockId) -> Result<(), Memory>
    ensures text { OnOk result (out.new.items ≡ out.old.items ++ id.now.0) }
    ensures len { length id.now.0 ≡ 16 }
    ensures stays { OnErr result (out.new.items ≡ out.old.items) }
{
    out.extend_from_slice(&id.0)?;
    Ok(())
}
