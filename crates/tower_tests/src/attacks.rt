// What a client that begins anew is answered after rollbacks, swaps, damages, stops, and files of format 1.

use crate::stories::tell;
use crate::tower::Store;
use std::test::Fail;

const ATTACKS: &str = "# a file that was rolled back is refused
> commit a=5, sync ok ok
> commit a=6, sync ok ok
note a=a
> commit a=7, sync ok ok
first-get noted
> load a=known-3-found-2
> load a=7
# a directory that was rolled back is refused, where it changed
> commit a=5 b=6, sync ok ok
note a=a
note b=b
> commit a=7, sync ok ok
> commit a=8, sync ok ok
> commit a=9, sync ok ok
put-back
> load a=known-4-found-1
> load b=6
# it is said how a file is damaged
> commit a=5, sync ok ok
first-get gone
> load a=missing
first-get last-bit-flipped
> load a=not-opened
first-get last-byte-cut
> load a=bad-length
first-get first-byte-changed
> load a=bad-prefix
# files that were swapped are refused
> commit a=5 b=6, sync ok ok
note a=b
note b=a
put-back
> load a=not-opened
> load b=not-opened
# files of format 1 are taken over an older record, each for its own block alone
older-record
> commit a=5 b=6, sync ok ok
older-file a=5
> load a=5
older-file b=6
> load a=of-block-b
# files of format 1 are refused else
> commit a=5, sync ok ok
older-file a=5
> load a=old-format
# nothing is put before it is saved
saves-fail 1 2
> commit a=5, sync fault-of-record fault-of-record
count calls 0
saves-fail
> load a=nothing
> commit, sync ok ok
> load a=nothing
# nor where saves keep their records although they fail, from which it is put later
saves-fail-but-keep 1 2
> commit a=5, sync fault-of-record fault-of-record
count calls 0
saves-fail
> load a=5
> commit, sync ok ok
> load a=5
";

#[test]
fn attacks_and_stops_are_noticed_or_make_no_difference(rt: HostRuntime) -> Result<(), Fail> {
    tell::<Store>(&rt, ATTACKS)
}
