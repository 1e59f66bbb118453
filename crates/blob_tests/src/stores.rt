// What every store of blobs has to do, over each of them.
use crate::blocks::empty;
use crate::suite::{forgets_what_was_removed, reads_what_was_made, resizes, writes};
use memory_stores::MapBlobs;
use memory_stores::blob_api::Blobs;
use std::alloc::Global;
use std::test::Fail;

/// Whether the store keeps each promise.
fn conforms<B: Blobs>(alloc: Global, blobs: &mut B) -> Result<(bool, bool, bool, bool), Fail>
    requires { B.meanings.intact blobs.old }
{
    let made = reads_what_was_made(alloc, blobs)?;
    let written = writes(alloc, blobs)?;
    let resized = resizes(alloc, blobs)?;
    let removed = forgets_what_was_removed(alloc, blobs)?;
    Ok((made, written, resized, removed))
}

#[test]
fn blobs_in_memory(rt: HostRuntime) -> Result<(), Fail> {
    let alloc = rt.alloc();
    let mut blobs = MapBlobs::new(alloc, [0; 32]);
    assert!(rt; conforms(alloc, &mut blobs)? == (true, true, true, true));
    Ok(())
}

#[test]
fn blobs_in_blocks(rt: HostRuntime) -> Result<(), Fail> {
    let alloc = rt.alloc();
    let mut blobs = empty(alloc);
    let kept = conforms(alloc, &mut blobs);
    drop(blobs.into_tx().into_store());
    assert!(rt; kept? == (true, true, true, true));
    Ok(())
}
