// How many files a command on one entry of a directory reads and writes.
use crate::counts::cost_so;
use std::test::Fail;

/// Seven entries of 68 bytes: 495 bytes of a directory, in 12 leaves. The directory is 24 files, and is read once. Where the third
/// to the eighth read it again for the change they read 80, 61, 64, 64, 48 and 121; a write and a cut asked for the file's
/// length then.
///
/// The last six give a row another name. One of the same length writes what lies between: with a removal and an insertion these
/// read 126, 124 and 121 files, and wrote 13, 14 and 11; with a second look-up they read 61, 64 and 67. Else what follows is
/// written where it moves: with a removal and an insertion these read 126, 126 and 120 files, and wrote 13, 13 and 16; with a
/// second look-up they read 79, 77 and 76.
const ENTRIES: &str = "mkfile /a0
mkfile /b0
mkfile /c0
mkfile /d0
mkfile /e0
mkfile /f0
mkfile /g0
> stat /c0
read 25, written 0
> mkfile /c1
read 49, written 16
> rm /c0
read 56, written 12
> chmod /c0 600
read 37, written 3
> write /c0 0 61
read 39, written 4
> truncate /c0 5
read 39, written 4
> mv /c0 /c0
read 24, written 0
> mv /c0 /e0
read 59, written 12
> mv /c0 /c1
read 37, written 3
> mv /b0 /d1
read 40, written 5
> mv /f0 /c1
read 43, written 6
> mv /c0 /c
read 55, written 13
> mv /c0 /c00
read 53, written 13
> mv /a0 /z0
read 52, written 12
";

/// The same seven entries in another directory, whose own entry is touched, and a directory among them. The directory above is
/// read on the way, and for the touch. Where the row's was read again they read, from the third on, 100, 79, 87, 104 and 147.
const BELOW: &str = "mkdir /d
mkfile /d/a0
mkfile /d/b0
mkfile /d/c0
mkfile /d/d0
mkfile /d/e0
mkfile /d/f0
mkdir /d/g0
> stat /d/c0
read 31, written 0
> mkfile /d/c1
read 69, written 19
> rm /d/c0
read 76, written 15
> rmdir /d/g0
read 55, written 8
> mv /d/c0 /d/c1
read 57, written 6
> mv /d/c0 /c0
read 80, written 19
> mv /d/c0 /d/e0
read 79, written 15
";

#[test]
fn each_command_reads_the_rows_directory_once(rt: HostRuntime) -> Result<(), Fail> {
    cost_so(rt.alloc(), ENTRIES)?;
    cost_so(rt.alloc(), BELOW)
}
