// Drafts of plaintexts that end with zeros.
ghost use Rattle.std.specs.Prelude.{◌≡◌, ◌≤◌};
ghost use Rattle.integrity_store.specs.sealed_store.Stores.{IsIntact, block_size_of, cipher_of};

use crate::integrity_files::{Sealed, file_of, put_draft, sealed_over};
use aes_gcm::Aes256Gcm;
use block_id::BlockId;
use integrity_store::sealed_store::Seen;
use memory_outside::MemoryVault;
use outside::{FileName, Vault};
use seal_api::Sealer;
use std::alloc::Global;
use std::test::Fail;

const ID: BlockId = BlockId([7; 16]);

/// Whether a store that is asked for at most so many bytes shows these.
fn shows(alloc: Global, store: &mut Sealed, most: usize, front: &[u8]) -> Result<bool, Fail>
    requires { IsIntact (block_size_of store.old) (⟦<Aes256Gcm as Sealer>⟧.iv_size (cipher_of store.old)) }
    ensures { IsIntact (block_size_of store.new) (⟦<Aes256Gcm as Sealer>⟧.iv_size (cipher_of store.new)) }
{
    match store.get_plain(alloc, &ID, 2, most)? {
        Seen::Plain(plain) => Ok(plain.as_slice() == front),
        _ => Ok(false),
    }
}

/// The block's file, once all was written.
fn written(alloc: Global, mut store: Sealed) -> Result<Vec<u8>, Fail> {
    store.write_out(alloc)?;
    let file = store.into_vault().get(alloc, &FileName::Block(ID), 129)?;
    Ok(file.ok_or("no file")?)
}

/// The first 40 bytes of a plaintext.
fn front_of(plain: &[u8; 80]) -> &[u8] {
    &plain[..40]
}

/// A store in which the draft of so many fives waits shows this plaintext, and its first 40 bytes alone.
fn shows_both(alloc: Global, store: &mut Sealed, plain: &[u8; 80]) -> Result<bool, Fail>
    requires { IsIntact (block_size_of store.old) (⟦<Aes256Gcm as Sealer>⟧.iv_size (cipher_of store.old)) }
    ensures { IsIntact (block_size_of store.new) (⟦<Aes256Gcm as Sealer>⟧.iv_size (cipher_of store.new)) }
{
    let whole = shows(alloc, store, 81, plain)?;
    Ok(whole && shows(alloc, store, 40, front_of(plain))?)
}

/// Whether the draft of so many fives shows these with the zeros that follow, and is sealed to the file of the whole plaintext.
fn is_as_whole(alloc: Global, fives: usize) -> Result<bool, Fail>
    requires { fives ≤ 80 }
{
    let mut plain = [0; 80];
    plain[..fives].fill(5);
    let mut store = sealed_over(alloc, MemoryVault::new(alloc));
    put_draft(alloc, &mut store, &ID, &[5; 80][..fives])?;
    let shown = shows_both(alloc, &mut store, &plain)?;
    let file = file_of(alloc, &ID, &[9; 16], &plain)?;
    Ok(shown && written(alloc, store)?.as_slice() == file.as_slice())
}

#[test]
fn short_drafts_are_shown_and_sealed_as_the_whole(rt: HostRuntime) -> Result<(), Fail> {
    for fives in [0, 30, 40, 79, 80] {
        assert!(rt; is_as_whole(rt.alloc(), fives)?, "{fives}");
    }
    Ok(())
}

#[test]
fn counts_a_short_draft_as_its_file(rt: HostRuntime) -> Result<(), Fail> {
    let mut store = sealed_over(rt.alloc(), MemoryVault::new(rt.alloc()));
    put_draft(rt.alloc(), &mut store, &ID, &[5; 3])?;
    store.put_config(rt.alloc(), [8; 5].to_vec(rt.alloc())?)?;
    assert!(rt; (store.waiting(), store.buffered(), store.weight()) == (2, 133, 133));
    Ok(())
}
