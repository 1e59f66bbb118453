// How many block files there are after each session, and how often they are asked for and put.

use crate::stories::tell;
use std::test::Fail;

/// A new file system of blocks of 128 bytes.
const SMALL: &str = "> !nothing
> create|--blocksize|128|--scrypt-n|16
pw
=
created 00000000000000000000000000000000
";

const SIZES: &str = "# a file that grows by a byte takes two leaves more
> shell
pw
mkfile /f
write /f 0 {61*23}
=
ok
ok
> !count blocks 7
> shell
pw
write /f 23 61
=
ok
> !count blocks 9
> shell
pw
truncate /f 23
read /f 0 100
=
ok
data 6161616161616161616161616161616161616161616161
> !count blocks 7
# an emptied file gives its blocks back
> shell
pw
mkfile /f
write /f 0 {61*66}
=
ok
ok
> !count blocks 12
> shell
pw
truncate /f 0
=
ok
> !count blocks 7
> shell
pw
write /f 0 {61*66}
=
ok
> !count blocks 12
";

#[test]
fn a_file_takes_and_gives_back_blocks_as_it_grows_and_shrinks(rt: HostRuntime) -> Result<(), Fail> {
    tell(&rt, SMALL, SIZES)
}

/// The directory `/docs`, or `/d`, is the first block that was made, `/d/f` the third.
const CALLS: &str = "# a block that is used again is asked for once
> !note
> shell
pw
ls /
ls /
=
list 0
list 0
> !count gets 1
# a byte inside a long file puts its leaf and its directory
> !piece 4096
> shell
pw
mkdir /docs
mkdir /docs/old
mkfile /docs/report
write /docs/report 0 {41*25000}
write /docs/report 25000 {41*25000}
write /docs/report 50000 {41*25000}
write /docs/report 75000 {41*25000}
=
ok
ok
ok
ok
ok
ok
ok
> !plain
> !note
> shell
pw
write /docs/report 50000 61
=
ok
> !count puts 2
> !count puts of first 1
> !count blocks 11
# a move puts what moves only where its directory is another
> shell
pw
mkdir /d
mkdir /d/e
mkfile /d/f
=
ok
ok
ok
> !note
> shell
pw
mv /d/f /d/g
=
ok
> !count puts of first 1
> !count puts of third 0
> !note
> shell
pw
mv /d/g /d/e/g
=
ok
> !count puts of third 1
";

#[test]
fn only_what_is_needed_is_asked_for_and_put(rt: HostRuntime) -> Result<(), Fail> {
    tell(&rt, "", CALLS)
}
