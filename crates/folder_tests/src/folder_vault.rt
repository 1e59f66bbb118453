// The directory in a real folder: where its files lie, what fails, which run has it, and what is flushed.
use crate::stories::tell;
use std::test::Fail;

const NAMES: &str = "# keeps files under their names
begin
gets one: (none)
lacks b
puts config: config
holds b/cryfs.config: config
puts one: a long block
holds b/000/00000000000000000000000000001: a long block
puts one: short
holds b/000/00000000000000000000000000001: short
gets 0 one:
gets 4 one: shor
gets 5 one: short
gets 99 one: short
# removes a file once or more
begin
deletes one
puts one: block
deletes one
deletes one
gets one: (none)
lacks b/000
# fails where something else lies
begin
makes b/cryfs.config
fails config
lacks b/cryfs.config.0000000000000001.new
writes b/000:
fails one
# replaces only its own file beside
begin
puts config: first
writes b/cryfs.config.0000000000000001.new: half of a longer te
writes b/cryfs.config.0000000000000002.new: of another run
gets 99 config: first
puts config: second
gets 99 config: second
lacks b/cryfs.config.0000000000000001.new
holds b/cryfs.config.0000000000000002.new: of another run
";

/// A file of somebody else that was linked under a block's name keeps its bytes.
const LINKS: &str = "# follows no link
makes b/000
writes b/other: other
begin
links b/cryfs.config.0000000000000001.new: other
puts config: config
holds b/cryfs.config: config
links b/000/00000000000000000000000000001: ../other
fails-to-put one: block
gets one: (fails)
holds b/other: other
# writes through no link in place of a folder of blocks
makes b
makes other
links b/000: ../other
begin
fails one
removes-empty other
# writes into no file in place of the block folder | file s s
writes file: no folder
begin
fails one
# writes through no second name
makes b/000
writes b/other: other
joins b/other: b/000/00000000000000000000000000001
begin
fails-to-put one: bk
holds b/other: other
gets 9 one: other
";

/// A file isn't missing because its drive was taken away, and none is read, put or removed where the drive was. Of two runs
/// that found no folder the one that makes it has it, also when it has ended.
const FOLDERS: &str = "# serves one run at a time
makes b
begin
gets config: (none)
second
fails config
first
puts config: first
end
gets 9 config: first
# uses no other folder at its path, where its drive was taken away
begin
puts one: block
renames b: away
fails one
lacks b
makes b
fails one
lacks b/000
makes b/000
writes b/000/00000000000000000000000000001: other
fails one
holds b/000/00000000000000000000000000001: other
removes b
renames away: b
gets 9 one: block
# makes the folder in one run
begin
gets config: (none)
second
gets config: (none)
first
puts config: first
second
fails config
end
fails config
holds b/cryfs.config: first
";

/// Puts of the configuration that fail where so many flushes succeed, and what isn't there after them.
const FLUSHES: &str = "# flushes the configuration
allows 0
begin
allows 0
fails-to-put config: config
lacks b
allows 1
fails-to-put config: config
lacks b/cryfs.config
allows 0
fails-to-put config: config
lacks b/cryfs.config
allows 1
fails-to-put config: config
lacks b/000
allows 2
puts config: config
none-left
";

#[test]
fn directories_in_folders(rt: HostRuntime) -> Result<(), Fail> {
    tell(&rt, "runs", NAMES)?;
    tell(&rt, "runs", LINKS)?;
    tell(&rt, "runs", FOLDERS)?;
    tell(&rt, "runs", FLUSHES)
}
