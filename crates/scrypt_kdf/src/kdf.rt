// scrypt (RFC 7914, section 6).

ghost use Rattle.std.specs.Prelude.{◌≡◌, ◌≤◌, ◌*◌, ◌^◌, IfOk, OnErr, OnOk, length, replicate, vec_len};
ghost use Rattle.scrypt_kdf.specs.Scrypt.{mixed_parts, scrypt};

use crate::mix::ro_mix;
use crate::params::Params;
use crate::pbkdf::pbkdf2;
use block_id::Memory;
use std::alloc::{AllocError, Global};

/// Fills `out` with the key that scrypt derives from `password` and `salt` (RFC 7914, section 6), or
/// with zeros where memory is refused. It takes 128 * (N + p) * r bytes, and gives them back.
pub fn scrypt(
    alloc: Global,
    password: &[u8],
    salt: &[u8],
    params: &Params,
    out: &mut [u8],
) -> Result<(), Memory>
    requires { length out.old ≤ 65536 }
    ensures derived { OnOk result (out.new ≡ scrypt password.now salt.now params.now (length out.old)) }
    ensures zeros { OnErr result (out.new ≡ replicate (length out.old) 0) }
{
    out.fill(0);
    let len = 128 * params.r() as usize;
    let mut parts = zeros(alloc, len * params.p() as usize)?;
    let mut iterates = Vec::with_capacity(alloc, len * params.n() as usize)?;
    let b = parts.as_mut_slice();
    pbkdf2(password, salt, b);
    mix_parts(params, b, &mut iterates)?;
    pbkdf2(password, b, out);
    Ok(())
}

fn zeros(alloc: Global, len: usize) -> Result<Vec<u8>, AllocError>
    requires { len ≤ 2 ^ 30 }
    ensures { IfOk result (λ v. vec_len v ≡ len) }
{
    vec![in alloc; 0u8; len]
}

/// ROMix of each of the p parts of `b`, in place; `v` is to have room for N times a part.
fn mix_parts(params: &Params, b: &mut [u8], v: &mut Vec<u8>) -> Result<(), AllocError>
    requires { length b.old ≡ 128 * params.now.r * params.now.p }
    ensures { OnOk result (b.new ≡ mixed_parts params.now b.old) }
{
    let r = params.r() as usize;
    let n = params.n() as usize;
    let len = 128 * r;
    for i in 0..params.p() as usize {
        ro_mix(r, n, &mut b[len * i..len * i + len], v)?;
    }
    Ok(())
}
