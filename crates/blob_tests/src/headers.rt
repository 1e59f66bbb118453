// A header as bytes.
use block_id::BlockId;
use dir_blob::fs_blobs::{Header, header_bytes, read_header};
use fs_model::Kind;
use std::test::Fail;

#[test]
fn the_header_of_a_file(rt: HostRuntime) -> Result<(), Fail> {
    let mut parent = [0; 16];
    parent[15] = 1;
    let header = Header {
        kind: Kind::File,
        parent: BlockId(parent),
    };
    let bytes = header_bytes(&header);
    let mut expected = [0; 19];
    expected[0] = 1;
    expected[2] = 1;
    expected[18] = 1;
    assert_eq!(rt; bytes, expected);
    let read = read_header(&bytes).ok_or("a header")?;
    assert!(rt; matches!(read.kind, Kind::File));
    assert!(rt; read.parent == header.parent);
    assert!(rt; read_header(&bytes[..18]).is_none());
    Ok(())
}
