// A blob of the file system, with its header and its body.
use block_id::BlockId;
use dir_blob::fs_blobs::{
    Header, blob_header, body_len, new_blob, read_body, resize_body, set_parent, write_body,
};
use fs_model::Kind;
use memory_stores::MapBlobs;
use std::test::Fail;

#[test]
fn a_file_from_its_header_to_its_end(rt: HostRuntime) -> Result<(), Fail> {
    let alloc = rt.alloc();
    let mut blobs = MapBlobs::new(alloc, [0; 32]);
    let header = Header {
        kind: Kind::File,
        parent: BlockId([7; 16]),
    };
    let id = new_blob(alloc, &mut blobs, &header, b"file")?;
    write_body(alloc, &mut blobs, &id, 6, b"end")?;
    set_parent(alloc, &mut blobs, &id, &BlockId([8; 16]))?;
    resize_body(alloc, &mut blobs, &id, 8)?;
    let moved = blob_header(alloc, &mut blobs, &id)?;
    assert!(rt; matches!(moved.kind, Kind::File));
    assert!(rt; moved.parent == BlockId([8; 16]));
    assert_eq!(rt; body_len(alloc, &mut blobs, &id)?, 8);
    let tail = read_body(alloc, &mut blobs, &id, 2, 100)?;
    assert_eq!(rt; tail.as_slice(), b"le\0\0en".as_slice());
    Ok(())
}
