// Files of blocks that are sealed under one key, over a directory in memory.
ghost use Rattle.std.specs.Prelude.{◌≡◌, ◌≤◌, [], length};
ghost use Rattle.integrity_store.specs.sealed_store.Stores.{IsIntact, block_size_of, cipher_of};

use aes_gcm::Aes256Gcm;
use block_id::BlockId;
use integrity_store::redo_vault::RedoVault;
use integrity_store::sealed_store::SealedStore;
use memory_outside::MemoryVault;
use outside::{Change, FileName, Pending, Vault};
use seal_api::Sealer;
use std::alloc::Global;
use std::test::Fail;

/// A store of blocks that are sealed over a directory.
pub(crate) type Sealed = SealedStore<MemoryVault, Aes256Gcm>;

/// Blocks of 128 bytes.
pub(crate) fn sealed_over(alloc: Global, below: MemoryVault) -> Sealed
    ensures intact { IsIntact (block_size_of result) (⟦<Aes256Gcm as Sealer>⟧.iv_size (cipher_of result)) }
    ensures size { block_size_of result ≡ 128 }
    ensures list { result.vault.list ≡ [] }
{
    let vault = RedoVault::new(below, Vec::new(alloc));
    SealedStore::new(vault, Aes256Gcm, [3; 32], 128)
}

/// The file of a block, sealed under the key.
pub(crate) fn sealed_file(alloc: Global, id: &BlockId, plain: &[u8; 80]) -> Result<Vec<u8>, Fail> {
    let mut sealed = sealed_over(alloc, MemoryVault::new(alloc));
    put_draft(alloc, &mut sealed, id, plain)?;
    sealed.write_out(alloc)?;
    let file = sealed.into_vault().get(alloc, &FileName::Block(*id), 128)?;
    Ok(file.ok_or("no file")?)
}

/// Has the file of a block wait, of which this is the front of the plaintext: zeros follow.
pub(crate) fn put_draft(
    alloc: Global,
    sealed: &mut Sealed,
    id: &BlockId,
    front: &[u8],
) -> Result<(), Fail>
    requires front { length front.now ≤ 80 }
    requires intact { IsIntact (block_size_of sealed.old) (⟦<Aes256Gcm as Sealer>⟧.iv_size (cipher_of sealed.old)) }
    requires size { block_size_of sealed.old ≡ 128 }
    ensures intact { IsIntact (block_size_of sealed.new) (⟦<Aes256Gcm as Sealer>⟧.iv_size (cipher_of sealed.new)) }
    ensures size { block_size_of sealed.new ≡ 128 }
{
    let draft = sealed.draft(front.to_vec(alloc)?, &[9; 16])?;
    let mut drafts = Vec::new(alloc);
    drafts.push(Pending {
        name: FileName::Block(*id),
        change: Change::Bytes(draft),
    })?;
    sealed.put_drafts(drafts)?;
    Ok(())
}

/// The file that this plaintext is sealed to, without a store.
pub(crate) fn file_of(
    alloc: Global,
    id: &BlockId,
    iv: &[u8; 16],
    plain: &[u8; 80],
) -> Result<Vec<u8>, Fail> {
    let mut file = b"cryfs;block;0\0\x02\0".to_vec(alloc)?;
    Aes256Gcm.seal_with(&[3; 32], iv, &id.0, plain, &mut file)?;
    Ok(file)
}
