// The order of a block's words in which Salsa20/8 works on them.

ghost use Rattle.std.specs.Prelude.{◌≡◌, ◌*◌, ◌<◌, ◌≤◌, ◌%◌, length};
ghost use Rattle.scrypt_kdf.specs.Order.{reordered, source};

/// The most bytes of a list of blocks.
pub(crate) const MAX_LEN: usize = 128 * 8;

/// Each word comes from five times its place, modulo 16: diagonal after diagonal.
pub(crate) const TO_DIAGONALS: usize = 5;

/// And back, since 5 * 13 is 1 modulo 16.
pub(crate) const FROM_DIAGONALS: usize = 13;

/// Takes each word of each block of 64 bytes from `step` times its place, modulo 16.
pub(crate) fn reorder(x: &mut [u8], step: usize)
    requires blocks { length x.old % 64 ≡ 0 }
    requires len { length x.old ≤ 1024 }
    requires step { step < 16 }
    ensures { x.new ≡ reordered step x.old }
{
    let mut room = [0u8; MAX_LEN];
    let t = &mut room[..x.len()];
    t.copy_from_slice(x);
    for k in 0..x.len() {
        x[k] = t[source(step, k)];
    }
}

fn source(step: usize, k: usize) -> usize
    requires step { step < 16 }
    requires place { k < 1024 }
    ensures { result ≡ source step k }
{
    64 * (k / 64) + (4 * ((step * (k / 4)) % 16) + k % 4)
}
