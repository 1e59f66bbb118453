// Bytes that are cut, filled up and overwritten.
ghost use Rattle.std.specs.Prelude.{◌≡◌, ◌<◌, ◌+◌, ◌^◌, length, IfOk};
ghost use Rattle.block_id.specs.Contents.{resized, written};

use block_id::Memory;
use std::alloc::Global;

/// Cut to `n` bytes, or filled up with zeros.
pub fn resized_to(alloc: Global, old: &[u8], n: usize) -> Result<Vec<u8>, Memory>
    ensures { IfOk result (λ new. new.items ≡ resized old.now n) }
{
    let mut new = old.to_vec(alloc)?;
    new.resize(n, 0)?;
    Ok(new)
}

/// With these bytes at `from`, and zeros between the old end and `from`.
pub fn written_to(alloc: Global, old: &[u8], from: usize, bytes: &[u8]) -> Result<Vec<u8>, Memory>
    requires { from + length bytes.now < 2 ^ 63 }
    ensures { IfOk result (λ new. new.items ≡ written old.now from bytes.now) }
{
    if bytes.is_empty() {
        return Ok(old.to_vec(alloc)?);
    }
    let mut new = resized_to(alloc, old, from)?;
    new.extend_from_slice(bytes)?;
    let end = from + bytes.len();
    let rest = if end < old.len() { &old[end..] } else { &[] };
    new.extend_from_slice(rest)?;
    Ok(new)
}
