// Which blocks of a store the blobs in it change.
use blob_store::BlobStore;
use memory_stores::MapStore;
use memory_stores::blob_api::Blobs;
use memory_stores::store_api::{BlocksMut, Tx};
use rand_pcg::Pcg32;
use std::alloc::Global;
use std::test::Fail;

/// No blobs, over blocks of 50 bytes in memory.
pub(crate) fn empty(alloc: Global) -> BlobStore<MapStore>
    ensures { ⟦<BlobStore<MapStore> as Blobs>⟧.meanings.intact result }
{
    BlobStore::new(Tx::new(alloc, MapStore::new(alloc, 50), [0; 32]))
}

/// How many blocks are changed once a blob of 169 bytes was made, once it was removed, and, of another one that is stored,
/// once a byte was written.
fn changed<S: BlocksMut>(
    alloc: Global,
    blobs: &mut BlobStore<S>,
) -> Result<(usize, usize, usize), Fail>
    requires { ⟦<BlobStore<S> as Blobs>⟧.meanings.intact blobs.old }
{
    let id = blobs.create(alloc, &[1; 169])?;
    let made = blobs.tx.batch().len();
    blobs.remove(alloc, &id)?;
    let removed = blobs.tx.batch().len();
    let stored = blobs.create(alloc, &[1; 169])?;
    blobs.tx.commit(alloc, &mut Pcg32::new(1, 2))?;
    blobs.write(alloc, &stored, 100, &[2])?;
    Ok((made, removed, blobs.tx.batch().len()))
}

#[test]
fn a_byte_inside_a_blob_changes_one_block(rt: HostRuntime) -> Result<(), Fail> {
    let alloc = rt.alloc();
    let mut blobs = empty(alloc);
    let counts = changed(alloc, &mut blobs);
    drop(blobs.into_tx().into_store());
    assert!(rt; counts? == (11, 0, 1));
    Ok(())
}
