// Sealing and opening of blocks in memory.
ghost use Rattle.std.specs.Prelude.{◌≡◌, ◌≤◌, IfOk, length};
ghost use Rattle.seal_api.specs.Sealing.{max_len};

use aes_block::KeySchedule;
use aes_gcm::{Aes256Gcm, GcmKey};
use block_id::Memory;
use seal_api::Sealer;
use std::alloc::Global;
use std::io;

const KEY: [u8; 32] = [7; 32];

/// The most bytes of a block.
const MAX_SIZE: u64 = 1 << 30;

/// How many blocks are sealed, and how many bytes each has.
#[derive(Drop)]
struct Plan {
    count: u64,
    size: usize,
    ghost in_range: { size ≤ max_len },
}

/// Seals a block into `sealed`, and opens it again.
fn through(
    alloc: Global,
    key: &[u8; 32],
    iv: [u8; 16],
    plain: &[u8],
    sealed: &mut Vec<u8>,
) -> Result<Vec<u8>, Memory>
    requires { length plain.now ≤ max_len }
    ensures { IfOk result (λ opened. opened.items ≡ plain.now) }
{
    sealed.clear();
    Aes256Gcm.seal(key, &iv, plain, sealed)?;
    match Aes256Gcm.unseal(alloc, key, sealed)? {
        Some(opened) => Ok(opened),
        None => unreachable!(),
    }
}

/// The checksum with the last byte of a tag taken in.
fn taken_in(checksum: u64, sealed: &[u8]) -> u64 {
    let last = sealed.last().copied().unwrap_or(0);
    checksum.rotate_left(5) ^ u64::from(last)
}

/// Seals and opens blocks of zeros, with the key made ready in each call.
fn bench(alloc: Global, plan: &Plan) -> Result<u64, Memory> {
    let mut plain = vec![in alloc; 0u8; plan.size]?;
    let mut sealed = Vec::new(alloc);
    let mut checksum: u64 = 0;
    for number in 0..plan.count {
        let iv = u128::from(number).to_be_bytes();
        plain = through(alloc, &KEY, iv, &plain, &mut sealed)?;
        checksum = taken_in(checksum, &sealed);
    }
    Ok(checksum)
}

/// The same with the key made ready once.
fn bench_kept(alloc: Global, plan: &Plan) -> Result<u64, Memory> {
    let key = GcmKey::new(&KeySchedule::new(&KEY));
    let mut plain = vec![in alloc; 0u8; plan.size]?;
    let mut sealed = Vec::new(alloc);
    let mut checksum: u64 = 0;
    for number in 0..plan.count {
        let iv = u128::from(number).to_be_bytes();
        sealed.clear();
        sealed.extend_from_slice(&plain)?;
        let tag = key.seal(&iv, &[], &mut sealed);
        if let Some(opened) = key.unseal(alloc, &iv, &[], &sealed, &tag)? {
            plain = opened;
        }
        checksum = taken_in(checksum, &tag);
    }
    Ok(checksum)
}

/// Seals and opens so many blocks of so many bytes, with one key for all of them if it is kept, and prints a checksum of the tags.
pub fn measure(rt: &HostRuntime, count: u64, size: u64, is_kept: bool) -> io::Result<()> {
    if size > MAX_SIZE {
        return println!(rt; "too long");
    }
    let plan = Plan {
        count,
        size: size as usize,
    };
    let checksum = if is_kept {
        bench_kept(rt.alloc(), &plan)
    } else {
        bench(rt.alloc(), &plan)
    };
    match checksum {
        Ok(checksum) => { println!(rt; "{count} blocks of {size} bytes, checksum {checksum:016x}") }
        Err(_) => println!(rt; "out of memory"),
    }
}
