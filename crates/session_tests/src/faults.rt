// Sessions in which calls on the outside fail.

use crate::stories::tell;
use std::test::Fail;

const STREAMS: &str = "# what was saved is put later
> !changes-fail-from 2
> shell
pw
mkdir /a
sync
= block directory fault
ok
fault directory
> !mend
> shell
pw
ls /
=
list 1
d a
# lines that were answered are kept where the input or the output fails
> !piece 12
> !read-fails 2
> shell
pw
mkdir /a
mkdir /b
= input fault
ok
> !plain
> !write-fails 2
> shell
pw
mkdir /a
mkdir /b
= output fault
error e\
> !plain
> shell
pw
ls /
=
list 1
d a
# a password that is not read calls nothing
> !note
> !whole
> !read-fails 1
> !forms input fault
> !kept
> !count calls 0
";

#[test]
fn what_was_answered_or_saved_is_there_later(rt: HostRuntime) -> Result<(), Fail> {
    tell(&rt, "", STREAMS)
}

/// Told twice: where a save that fails keeps the old record, and where it keeps the new one.
const SAVES: &str = "# a sync after a failed save keeps all
> !save-fails 1
> shell
pw
mkdir /a
sync
sync
=
ok
fault state
ok
> shell
pw
ls /
=
list 1
d a
# a stop at a save leaves the old tree or the new
> !saves-fail-from 1
> !changes-fail-from 1
> shell
pw
mkdir /a
sync
= local state fault
ok
fault state
> !mend
> !lists nothing a
";

#[test]
fn a_failed_save_leaves_the_old_tree_or_the_new(rt: HostRuntime) -> Result<(), Fail> {
    tell(&rt, "", SAVES)?;
    tell(&rt, "> !keeps\n", SAVES)
}
