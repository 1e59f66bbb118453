// Sessions over a directory that breaks its promise. The one that meets it is refused, and a later one over the honest files
// too, without a call.

use crate::stories::tell;
use std::test::Fail;

const OLDER: &str = "# an older block
> shell
pw
mkdir /a
=
ok
> !note
> shell
pw
mkdir /b
=
ok
> !note
> !file root 0 root
> shell
pw
ls /
stat /
frob
= integrity violation
violation old-version 3 2
refused violation
refused violation
> !put-back 1
> !note
> shell
pw
ls /
= integrity violation
> !count calls 0
# an older directory
> !note
> shell
pw
mkdir /a
mkdir /b
mkdir /c
=
ok
ok
ok
> !note
> !put-back 0
> shell
pw
ls /
stat /
frob
= integrity violation
violation old-version 4 1
refused violation
refused violation
> !put-back 1
> !note
> shell
pw
ls /
= integrity violation
> !count calls 0
# swapped blocks
> shell
pw
mkdir /a
=
ok
> !note
> !file root 0 first
> !file first 0 root
> shell
pw
ls /
stat /
frob
= integrity violation
violation not-opened
refused violation
refused violation
> !put-back 0
> !note
> shell
pw
ls /
= integrity violation
> !count calls 0
# a block in the older format
> !note
> !file root in-the-older-format
> shell
pw
ls /
stat /
frob
= integrity violation
violation old-format
refused violation
refused violation
> !put-back 0
> !note
> shell
pw
ls /
= integrity violation
> !count calls 0
";

#[test]
fn what_is_older_or_swapped_is_a_violation(rt: HostRuntime) -> Result<(), Fail> {
    tell(&rt, "", OLDER)
}

const CHANGED: &str = "# a block that is removed
> !note
> !file root gone
> shell
pw
ls /
stat /
frob
= integrity violation
violation missing
refused violation
refused violation
> !put-back 0
> !note
> shell
pw
ls /
= integrity violation
> !count calls 0
# a block whose last bit is flipped
> !note
> !file root changed-last
> shell
pw
ls /
stat /
frob
= integrity violation
violation not-opened
refused violation
refused violation
> !put-back 0
> !note
> shell
pw
ls /
= integrity violation
> !count calls 0
# a block whose last byte is cut
> !note
> !file root shorter
> shell
pw
ls /
stat /
frob
= integrity violation
violation bad-length
refused violation
refused violation
> !put-back 0
> !note
> shell
pw
ls /
= integrity violation
> !count calls 0
# a block whose first byte is changed
> !note
> !file root changed-first
> shell
pw
ls /
stat /
frob
= integrity violation
violation bad-prefix
refused violation
refused violation
> !put-back 0
> !note
> shell
pw
ls /
= integrity violation
> !count calls 0
";

#[test]
fn a_changed_block_is_a_violation(rt: HostRuntime) -> Result<(), Fail> {
    tell(&rt, "", CHANGED)
}

const SPENT: &str = "# the root has the last version, in its block and in the record
> !file root of-the-last-version
> !record of-the-last-version
> shell
pw
mkdir /a
ls /
=
spent
list 0
";

#[test]
fn a_root_of_the_last_version_is_spent(rt: HostRuntime) -> Result<(), Fail> {
    tell(&rt, "", SPENT)
}
