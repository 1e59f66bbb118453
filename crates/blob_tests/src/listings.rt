// A directory of many entries that are inserted, changed and removed.
ghost use Rattle.std.specs.Prelude.{◌≤◌, IfOk, length};

use block_id::BlockId;
use dir_blob::dir_entries::{Entry, encode_entries};
use dir_blob::fs_blobs::{Header, new_blob};
use dir_blob::{change, entries, find_target, insert, remove, whole_body};
use fs_model::{Attr, FILE_MODE, Kind, MAX_MODE, Moment, Name};
use memory_stores::MapBlobs;
use std::alloc::Global;
use std::test::Fail;

/// The first, the middle and the last odd number.
const ODD: [usize; 3] = [1, 10_001, 20_001];

#[test]
fn both_ends_and_the_middle_of_many(rt: HostRuntime) -> Result<(), Fail> {
    let alloc = rt.alloc();
    let mut blobs = MapBlobs::new(alloc, [0; 32]);
    let header = Header {
        kind: Kind::Directory,
        parent: BlockId([0; 16]),
    };
    let even = body_of_even(alloc)?;
    let dir = new_blob(alloc, &mut blobs, &header, &even)?;
    for number in &ODD {
        insert(alloc, &mut blobs, &dir, &numbered(alloc, *number, 5)?)?;
        change(alloc, &mut blobs, &dir, &numbered(alloc, *number, 7)?)?;
    }
    assert_eq!(rt; entries(alloc, &mut blobs, &dir)?.len(), 10_003);
    for number in &ODD {
        let name = numbered(alloc, *number, 0)?.name;
        let (attr, _) = find_target(alloc, &mut blobs, &dir, &name)?.ok_or("the entry")?;
        assert_eq!(rt; attr.uid, 7);
        remove(alloc, &mut blobs, &dir, &name)?;
        assert!(rt; find_target(alloc, &mut blobs, &dir, &name)?.is_none());
    }
    let left = whole_body(alloc, &mut blobs, &dir)?;
    assert!(rt; left.as_slice() == even.as_slice());
    Ok(())
}

/// The body of a directory with the even numbers up to 20,000.
fn body_of_even(alloc: Global) -> Result<Vec<u8>, Fail>
    ensures { IfOk result (λ body. length body.items ≤ 1000000) }
{
    let mut body = Vec::new(alloc);
    for i in 1..10_001 {
        let one = [numbered(alloc, 2 * i, 0)?];
        body.extend_from_slice(&encode_entries(alloc, &one)?)?;
    }
    if body.len() > 1_000_000 {
        return Err(Fail::from("too long"));
    }
    Ok(body)
}

/// The entry of a number, whose name is its five digits.
fn numbered(alloc: Global, number: usize, uid: u32) -> Result<Entry, Fail>
    ensures { IfOk result (λ entry. entry.attr.mode ≤ MAX_MODE) }
{
    let digits = [
        digit(number / 10_000),
        digit(number / 1_000),
        digit(number / 100),
        digit(number / 10),
        digit(number),
    ];
    let name = Name::new(digits.to_vec(alloc)?).ok_or("a name")?;
    let moment = Moment::new(100, 5).ok_or("a moment")?;
    let attr = Attr {
        kind: Kind::File,
        mode: FILE_MODE,
        uid,
        gid: 0,
        atime: moment,
        mtime: moment,
        ctime: moment,
    };
    let blob = BlockId([2; 16]);
    Ok(Entry { name, attr, blob })
}

/// The last decimal digit.
fn digit(number: usize) -> u8 {
    b'0' + (number % 10) as u8
}
