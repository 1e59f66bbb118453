// Entries as bytes: a whole one, names of 1 and 255 bytes, and their order.
ghost use Rattle.std.specs.Prelude.{◌≤◌, IfSome};

use block_id::{BlockId, Memory};
use dir_blob::dir_entries::{Entry, decode_entries, encode_entries};
use fs_model::{Attr, Kind, MAX_MODE, Moment, Name};
use std::alloc::Global;
use std::test::Fail;

const BLOB: [u8; 16] = [0, 0, 0, 0, 0, 0, 0, 0, 0, 0, 0, 0, 0, 0, 0, 2];

/// The directory `a`, mode 755, all moments 100.000000005.
const ENTRY: [u8; 67] = [
    0, 0xed, 1, 0, 0, 0, 0, 0, 0, 0, 0, 0, 0, 100, 0, 0, 0, 0, 0, 0, 0, 5, 0, 0, 0, 100, 0, 0, 0,
    0, 0, 0, 0, 5, 0, 0, 0, 100, 0, 0, 0, 0, 0, 0, 0, 5, 0, 0, 0, 97, 0, 0, 0, 0, 0, 0, 0, 0, 0, 0,
    0, 0, 0, 0, 0, 0, 2,
];

#[test]
fn one_directory(rt: HostRuntime) -> Result<(), Fail> {
    let bytes = body_of_one(rt.alloc(), b"a".to_vec(rt.alloc())?)?.ok_or("a name")?;
    assert_eq!(rt; bytes.as_slice(), ENTRY.as_slice());
    let entries = decode_entries(rt.alloc(), &ENTRY)?.ok_or("a body")?;
    assert_eq!(rt; entries.len(), 1);
    for entry in &entries {
        assert_eq!(rt; entry.name.as_slice(), b"a".as_slice());
        let attr = &entry.attr;
        assert!(rt; matches!(attr.kind, Kind::Directory));
        assert_eq!(rt; (attr.mode, attr.uid, attr.gid), (0o755, 0, 0));
        for time in [attr.atime, attr.mtime, attr.ctime] {
            assert_eq!(rt; (time.secs(), time.nanos()), (100, 5));
        }
        assert!(rt; entry.blob == BlockId(BLOB));
    }
    Ok(())
}

#[test]
fn names_in_order(rt: HostRuntime) -> Result<(), Fail> {
    let alloc = rt.alloc();
    let short = body_of_one(alloc, b"b".to_vec(alloc)?)?.ok_or("a name")?;
    let long = body_of_one(alloc, vec![in alloc; b'c'; 255]?)?.ok_or("a name")?;
    assert_eq!(rt; long.len(), 66 + 255);
    assert_eq!(rt; entries_in(alloc, &[])?, Some(0));
    assert_eq!(rt; entries_in(alloc, &[&short, &long])?, Some(2));
    assert_eq!(rt; entries_in(alloc, &[&long, &short])?, None);
    assert_eq!(rt; entries_in(alloc, &[&short, &short])?, None);
    assert!(rt; body_of_one(alloc, vec![in alloc; b'c'; 256]?)?.is_none());
    Ok(())
}

/// How many entries the joined texts have, if they are a body.
fn entries_in(alloc: Global, texts: &[&[u8]]) -> Result<Option<usize>, Memory> {
    let mut body = Vec::new(alloc);
    for text in texts {
        body.extend_from_slice(text)?;
    }
    Ok(decode_entries(alloc, &body)?.map(|entries| entries.len()))
}

fn body_of_one(alloc: Global, name: Vec<u8>) -> Result<Option<Vec<u8>>, Memory> {
    let Some(name) = Name::new(name) else {
        return Ok(None);
    };
    let Some(attr) = attributes() else {
        return Ok(None);
    };
    let blob = BlockId(BLOB);
    let entries = [Entry { name, attr, blob }];
    Ok(Some(encode_entries(alloc, &entries)?))
}

fn attributes() -> Option<Attr>
    ensures { IfSome result (λ a. a.mode ≤ MAX_MODE) }
{
    let moment = Moment::new(100, 5)?;
    Some(Attr {
        kind: Kind::Directory,
        mode: 0o755,
        uid: 0,
        gid: 0,
        atime: moment,
        mtime: moment,
        ctime: moment,
    })
}
