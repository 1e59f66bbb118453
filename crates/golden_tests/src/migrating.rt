// The stored file system once its blocks are written anew.

use crate::stories::tell;
use std::test::Fail;

const MIGRATED: &str = "# each block is written anew once
> !stored
> shell
pw
ls /
ls /docs
read /docs/note 0 9
read /docs/report 998 4
=
list 2
d docs
l link
list 3
d deep
f note
f report
data 0000006162630a
data f5f6ffee
> !blocks 24
> migrate
pw
=
migrated 24
> !blocks 24
> !keeps 846
> migrate
pw
=
migrated 0
> shell
pw
ls /
ls /docs
read /docs/note 0 9
read /docs/report 998 4
=
list 2
d docs
l link
list 3
d deep
f note
f report
data 0000006162630a
data f5f6ffee
> shell
pw
mkdir /new
ls /
=
ok
list 3
d docs
l link
d new
> migrate
pw
=
migrated 0
# a file from before is refused from then on, and was taken before
> !stored
> !note
> migrate
pw
=
migrated 24
> !put-back root
> shell
pw
ls /
= integrity violation
violation old-format
> migrate
pw
= integrity violation
# a block that is missing is a violation of `migrate` as of a line, and marks the record
> !stored
> !note
> !remove root
> migrate
pw
= integrity violation
violation missing
> !put-back root
> shell
pw
ls /
= integrity violation
# more words are none of the program's, and another password opens nothing
> !stored
> migrate|/
pw
= usage
> migrate
px
= configuration does not open
> shell
pw
ls /
ls /docs
read /docs/note 0 9
read /docs/report 998 4
=
list 2
d docs
l link
list 3
d deep
f note
f report
data 0000006162630a
data f5f6ffee
";

/// The record with its one byte more is kept: it knows 29 ids.
#[test]
fn each_block_is_written_anew_once(rt: HostRuntime) -> Result<(), Fail> {
    tell(&rt, MIGRATED)
}
