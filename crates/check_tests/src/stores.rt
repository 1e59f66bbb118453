// Blocks put into a store in memory, and the check of it.
use crate::blocks::Disk;
use block_id::BlockId;
use cryfs_check::{Checked, check};
use memory_stores::store_api::{Blocks, BlocksMut};
use memory_stores::{MapStore, put_one};
use rand_pcg::Pcg32;
use std::alloc::Global;
use std::test::Fail;

/// Puts all blocks, whose ids have to be new.
fn put_all<S: BlocksMut>(alloc: Global, store: &mut S, disk: &Disk) -> Result<(), Fail>
    requires { S.Blocks.meanings.intact store.old }
    ensures { S.Blocks.meanings.intact store.new }
{
    let mut chance = Pcg32::new(1, 2);
    for (id, text) in &disk.blocks {
        if store.is_used(id) {
            return Err(Fail::from("a used id"));
        }
        let text = text.as_slice().to_vec(alloc)?;
        put_one(alloc, store, id, text, &mut chance)?;
    }
    Ok(())
}

/// What a check from this root on says of a store.
fn checked(alloc: Global, store: &mut MapStore, root: &BlockId) -> Result<Checked, Fail>
    requires { ⟦<MapStore as Blocks>⟧.meanings.intact store.old }
{
    let live = store.live_ids(alloc)?;
    Ok(check(alloc, store, &live, root)?)
}

/// What a check of a disk says.
pub fn check_disk(alloc: Global, disk: &Disk) -> Result<Checked, Fail> {
    if disk.payload < 50 || disk.payload > 4_096 {
        return Err(Fail::from("the length of payloads"));
    }
    let mut store = MapStore::new(alloc, disk.payload);
    put_all(alloc, &mut store, disk)?;
    checked(alloc, &mut store, &disk.root)
}
