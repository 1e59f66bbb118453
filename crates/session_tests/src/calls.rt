// A session in which one of its calls on the outside fails, or that one and all later ones, as where the outside stops: a line
// that was answered `ok` is there afterwards, and a fault is named.

use crate::stories::tell;
use std::test::Fail;

/// The seven calls of a session that makes a directory and syncs, in their order: a load, gets of the configuration and
/// of the root's block, a save, puts of the root's block and of the new one, a save. A later session, over an outside
/// that works, lists what is said last: where the saves that failed kept the old record, and where they kept the new one.
const READS: &str = "# the load
> !loads-fail 1
> shell
pw
mkdir /a
sync
= local state fault
> !mend
> !lists nothing nothing
# the load and all after it
> !loads-fail 1 2
> !calls-fail 1 99
> !saves-fail-from 1
> shell
pw
mkdir /a
sync
= local state fault
> !mend
> !lists nothing nothing
# the get of the configuration
> !calls-fail 1
> shell
pw
mkdir /a
sync
= block directory fault
> !mend
> !lists nothing nothing
# the get of the configuration and all after it
> !loads-fail 2
> !calls-fail 1 99
> !saves-fail-from 1
> shell
pw
mkdir /a
sync
= block directory fault
> !mend
> !lists nothing nothing
# the get of the root
> !calls-fail 2
> shell
pw
mkdir /a
sync
=
fault directory
ok
> !mend
> !lists nothing nothing
# the get of the root and all after it
> !loads-fail 2
> !calls-fail 2 99
> !saves-fail-from 1
> shell
pw
mkdir /a
sync
=
fault directory
ok
> !mend
> !lists nothing nothing
";

const WRITES: &str = "# the first save
> !save-fails 1
> shell
pw
mkdir /a
sync
=
ok
fault state
> !mend
> !lists a a
# the first save and all after it
> !loads-fail 2
> !calls-fail 3 99
> !saves-fail-from 1
> shell
pw
mkdir /a
sync
= local state fault
ok
fault state
> !mend
> !lists nothing a
# the put of the root
> !calls-fail 3
> shell
pw
mkdir /a
sync
=
ok
fault directory
> !mend
> !lists a a
# the put of the root and all after it
> !loads-fail 2
> !calls-fail 3 99
> !saves-fail-from 2
> shell
pw
mkdir /a
sync
= local state fault
ok
fault directory
> !mend
> !lists a a
# the put of the new block
> !calls-fail 4
> shell
pw
mkdir /a
sync
=
ok
fault directory
> !mend
> !lists a a
# the put of the new block and all after it
> !loads-fail 2
> !calls-fail 4 99
> !saves-fail-from 2
> shell
pw
mkdir /a
sync
= local state fault
ok
fault directory
> !mend
> !lists a a
# the second save
> !save-fails 2
> shell
pw
mkdir /a
sync
=
ok
fault state
> !mend
> !lists a a
# the second save and all after it
> !loads-fail 2
> !calls-fail 5 99
> !saves-fail-from 2
> shell
pw
mkdir /a
sync
= local state fault
ok
fault state
> !mend
> !lists a a
# all after the seventh call, of which there are none
> !loads-fail 2
> !calls-fail 5 99
> !saves-fail-from 3
> shell
pw
mkdir /a
sync
=
ok
ok
> !mend
> !lists a a
";

#[test]
fn each_read_that_fails_is_named_and_loses_nothing(rt: HostRuntime) -> Result<(), Fail> {
    tell(&rt, "", READS)?;
    tell(&rt, "> !keeps\n", READS)
}

#[test]
fn each_write_that_fails_is_named_and_loses_nothing(rt: HostRuntime) -> Result<(), Fail> {
    tell(&rt, "", WRITES)?;
    tell(&rt, "> !keeps\n", WRITES)
}
