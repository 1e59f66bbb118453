// What a promise is compared with, and the error where it isn't kept.
ghost use Rattle.std.specs.Prelude.{◌≡◌, ◌↔◌, IsTrue, IfOk, is_ok, vec_len};
ghost use Rattle.std.specs.Option.{option_copied};
ghost use Rattle.outside.specs.Changes.{cut};
ghost use Rattle.outside.specs.View.{bytes_of};

use rand_core::Rng;
use rand_pcg::Pcg32;
use std::alloc::{AllocError, Global};
use std::test::Fail;

/// Lengths at and about the size of the pieces in which files are read.
pub(crate) const LENGTHS: [usize; 6] = [0, 1, 300, 8191, 8192, 20000];

/// So many bytes, the same for the same number.
pub(crate) fn generated(alloc: Global, number: u64, len: usize) -> Result<Vec<u8>, AllocError>
    ensures { IfOk result (λ bytes. vec_len bytes ≡ len) }
{
    let mut bytes = vec![in alloc; 0; len]?;
    Pcg32::new(number, 1).fill_bytes(&mut bytes);
    Ok(bytes)
}

/// Whether what came is what is wanted.
pub(crate) fn is_same(came: &Option<Vec<u8>>, want: Option<&Vec<u8>>) -> bool
    ensures { IsTrue result ↔ (bytes_of came.now ≡ bytes_of (option_copied want.entry)) }
{
    match (came, want) {
        (Some(came), Some(want)) => came.as_slice() == want.as_slice(),
        (None, None) => true,
        _ => false,
    }
}

/// Whether what came is the front of what is wanted: all of it, or `max` bytes where it is longer.
pub(crate) fn is_front(came: &Option<Vec<u8>>, want: Option<&Vec<u8>>, max: usize) -> bool
    ensures { IsTrue result ↔ (bytes_of came.now ≡ cut max (bytes_of (option_copied want.entry))) }
{
    match (came, want) {
        (Some(came), Some(want)) => came.as_slice() == &want[..want.len().min(max)],
        (None, None) => true,
        _ => false,
    }
}

/// Fails where a promise isn't kept, and says in which case.
pub(crate) fn expect(alloc: Global, kept: bool, promise: &str, case: usize) -> Result<(), Fail>
    ensures { is_ok result ≡ kept }
{
    if kept {
        return Ok(());
    }
    Err(Fail::from(format!(in alloc; "not so at {case}: {promise}")?))
}
