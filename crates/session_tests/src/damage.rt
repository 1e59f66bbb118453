// Sessions over a directory or a record that was changed.

use crate::stories::tell;
use std::test::Fail;

/// Two sessions make a directory each, whose files are `first` and `second`. What was before them has the note 0, what was
/// between them 1, what was after them 2.
const TWO_DIRECTORIES: &str = "> !whole
> !note
> shell
pw
mkdir /a
=
ok
> !note
> shell
pw
mkdir /b
=
ok
> !note
";

/// One more session; then a file is changed, or the record; a session over that; and a later one over the files as they
/// were before the change.
const CHANGES: &str = "# the root's file as created
> shell
pw
=
> !note
> !file root 0 root
> shell
pw
ls /a
= integrity violation
violation old-version 3 1
> !put-back 3
> shell
pw
ls /a
= integrity violation
# the second file absent
> shell
pw
=
> !note
> !file first gone
> shell
pw
ls /a
= integrity violation
violation missing
> !put-back 3
> shell
pw
ls /a
= integrity violation
# the third file in the second's place
> shell
pw
=
> !note
> !file first 2 second
> shell
pw
ls /a
= integrity violation
violation not-opened
> !put-back 3
> shell
pw
ls /a
= integrity violation
# the root's file longer by a byte
> shell
pw
=
> !note
> !file root longer
> shell
pw
ls /a
= integrity violation
violation bad-length
> !put-back 3
> shell
pw
ls /a
= integrity violation
# the configuration absent
> shell
pw
=
> !note
> !file config gone
> shell
pw
ls /a
= no configuration
> !put-back 3
> shell
pw
ls /a
=
list 0
# the configuration cut by a byte
> shell
pw
=
> !note
> !file config shorter
> shell
pw
ls /a
= configuration has another form
> !put-back 3
> shell
pw
ls /a
=
list 0
# the configuration's last bit flipped
> shell
pw
=
> !note
> !file config changed-last
> shell
pw
ls /a
= configuration does not open
> !put-back 3
> shell
pw
ls /a
=
list 0
# the record as before the last session
> shell
pw
=
> !note
> !record 1
> shell
pw
ls /a
= integrity violation
violation ahead-version 2 3
> !put-back 3
> shell
pw
ls /a
= integrity violation
# the file of a removed directory put back
> shell
pw
rmdir /a
=
ok
> !note
> !file first 2 first
> shell
pw
ls /
=
list 1
d b
> !put-back 3
> shell
pw
ls /
=
list 1
d b
";

#[test]
fn what_was_changed_is_noticed_or_makes_no_difference(rt: HostRuntime) -> Result<(), Fail> {
    tell(&rt, TWO_DIRECTORIES, CHANGES)
}
