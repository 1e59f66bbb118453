// The random bytes of a new file system, and of a new password.
ghost use Rattle.std.specs.Prelude.{◌≡◌};
ghost use Rattle.rand_core.specs.Stream.{fill_bytes};
ghost use Rattle.mount_stores.specs.Drawing.{drawn, seal_drawn};

use config_file::SealDraws;
use rand_core::Rng;

/// What is drawn for a new file system, in this order.
#[derive(Clone, Copy)]
pub struct Draws {
    pub fs_id: [u8; 16],
    /// The id of the root's block; where it is zero, the next is taken.
    pub root: [u8; 16],
    pub key: [u8; 32],
    /// The salt of the key's digest in the local record.
    pub key_salt: [u8; 32],
    pub seal: SealDraws,
}

/// One fill.
fn fill<const N: usize, R: Rng>(chance: &mut R) -> [u8; N]
    ensures bytes { result ≡ (fill_bytes N (R.stream chance.old)).0 }
    ensures stream { R.stream chance.new ≡ (fill_bytes N (R.stream chance.old)).1 }
{
    let mut bytes = [0; N];
    chance.fill_bytes(&mut bytes);
    bytes
}

/// Draws what seals a configuration, each by one fill.
pub fn draw_seal<R: Rng>(chance: &mut R) -> SealDraws
    ensures draws { result ≡ (seal_drawn (R.stream chance.old)).0 }
    ensures stream { R.stream chance.new ≡ (seal_drawn (R.stream chance.old)).1 }
{
    SealDraws {
        scrypt_salt: fill::<32, R>(chance),
        fill: fill::<960, R>(chance),
        inner_iv: fill::<16, R>(chance),
        outer_iv: fill::<16, R>(chance),
    }
}

impl Draws {
    /// Draws each by one fill.
    pub fn draw<R: Rng>(chance: &mut R) -> Draws
        ensures draws { result ≡ (drawn (R.stream chance.old)).0 }
        ensures stream { R.stream chance.new ≡ (drawn (R.stream chance.old)).1 }
    {
        Draws {
            fs_id: fill::<16, R>(chance),
            root: fill::<16, R>(chance),
            key: fill::<32, R>(chance),
            key_salt: fill::<32, R>(chance),
            seal: draw_seal(chance),
        }
    }
}
