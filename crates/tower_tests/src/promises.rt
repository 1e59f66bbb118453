// What every durable store promises a client, over a directory and a record in memory: the store of sealed blocks alone,
// and behind a cache.

use crate::stories::tell;
use crate::tower::{Cached, Store};
use std::test::Fail;

const PROMISES: &str =
    "# what was put and synced is loaded by the store that is opened anew, and nothing else
> load a=nothing b=nothing c=nothing
> commit a=5 b=6, sync ok ok
count bytes-of-record 171
count bytes-of-file 128
> load a=5 b=6 c=nothing
# a second put replaces the first, and a removed block is gone
> commit a=5 b=6 c=7, sync ok ok
> commit a=8 b=gone, sync ok ok
count files 2
> load a=8 b=nothing c=7
# a session loads what it changed last, before a sync and after it, and so does the next one
> commit a=5 b=6 c=7, load a=5 b=6 c=7, commit a=8 b=gone, load a=8 b=nothing c=7, sync ok ok, load a=8 b=nothing c=7
> load a=8 b=nothing c=7
# a block gets the payload of the one that it names, and one that isn't there gets none
> commit a=2 b=7, sync ok ok
> follow a=found, sync ok ok
> follow c=nothing, sync ok ok
> load a=7 b=7 c=nothing
# a configuration that waits is in the record, and is put before the blocks
> commit a=5, configure settings, bytes 136 310 146, sync ok ok
first-put settings
count bytes-of-record 146
> load a=5 b=nothing c=nothing
# after a put that failed the next sync puts the rest
calls-fail 2
> commit a=5 b=6, sync fault-of-directory ok
count calls 3
> load a=5 b=6 c=nothing
# what was saved and couldn't be put is loaded from the record by the store that is opened anew, and put by its sync
changes-fail-from 2
> commit a=5 b=6, sync fault-of-directory fault-of-directory
count bytes-of-record 321
count files 1
changes-fail-from 18446744073709551615
> load a=5 b=6 c=nothing
> commit, sync ok ok
count files 2
> load a=5 b=6 c=nothing
# after a save that failed the next sync saves and puts all
saves-fail 1
> commit a=5, sync fault-of-record ok
count calls 1
> load a=5 b=nothing c=nothing
# after a save that kept its record although it failed too
saves-fail-but-keep 1
> commit a=5, sync fault-of-record ok
count calls 1
> load a=5 b=nothing c=nothing
";

#[test]
fn the_store_keeps_each_promise(rt: HostRuntime) -> Result<(), Fail> {
    tell::<Store>(&rt, PROMISES)
}

#[test]
fn the_store_behind_a_cache_keeps_each_promise(rt: HostRuntime) -> Result<(), Fail> {
    tell::<Cached>(&rt, PROMISES)
}
