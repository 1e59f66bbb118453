// Looks: the files are read with the password alone, whatever became of the record.

use crate::stories::tell;
use std::test::Fail;

const LOST: &str = "# without its record a tree is looked at
> shell
pw
mkdir /d
mkfile /f
write /f 0 6162
symlink f /l
=
ok
ok
ok
ok
> !note
> !record none
> ls|/
pw
= no local state
> look|ls|/
pw
=
list 3
d d
f f
l l
> look|read|/f|0|9
pw
=
data 6162
> look|readlink|/l
pw
=
link f
> look|ls|/n
pw
=
error no-entry
> look|read
pw
=
error bad-line
> look|ls|/
px
= configuration does not open
> look|mkdir|/x
pw
= usage
> look|sync
pw
= usage
> look
pw
= usage
> look|ls|/
pw
=
list 3
d d
f f
l l
> !record 0
> ls|/
pw
=
list 3
d d
f f
l l
# an older record is no hindrance
> !note
> shell
pw
mkdir /a
=
ok
> !record 0
> look|ls|/
pw
=
list 1
d a
";

#[test]
fn files_are_read_without_the_record(rt: HostRuntime) -> Result<(), Fail> {
    tell(&rt, "", LOST)
}

const MARKED: &str = "# after a violation runs are refused, and looks answer
> shell
pw
mkdir /a
=
ok
> !note
> shell
pw
mkdir /b
=
ok
> !note
> !file root 0 root
> ls|/
pw
= integrity violation
violation old-version 3 2
> look|ls|/
pw
=
list 1
d a
> !put-back 1
> ls|/
pw
= integrity violation
> look|ls|/
pw
=
list 2
d a
d b
> ls|/
pw
= integrity violation
# a block that doesn't open is a violation of the look, and marks nothing
> shell
pw
mkdir /a
=
ok
> !note
> !file root changed-last
> look|ls|/
pw
= integrity violation
violation structure
> !put-back 0
> ls|/
pw
=
list 1
d a
# a call that fails is a fault
> shell
pw
mkdir /a
=
ok
> !calls-fail 1
> look|ls|/
pw
= block directory fault
> look|ls|/
pw
=
list 1
d a
";

#[test]
fn looks_heed_no_mark(rt: HostRuntime) -> Result<(), Fail> {
    tell(&rt, "", MARKED)
}
