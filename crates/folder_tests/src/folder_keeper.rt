// The record in a real folder: what its file holds, what fails, which run has it, and that its name is flushed.
use crate::stories::tell;
use std::test::Fail;

/// Of two runs at a time the second began with another record than the first saved, so it fails to load when the first has
/// ended; one that begins later has it. A record that counts as not there is never given back as none. One whose drive is
/// taken away stays as it was there, and after a save that failed no load knows what is kept, till one is ok. A load makes
/// nothing, and what another run made since isn't used. A run that saved a record may have been stopped before its name was
/// flushed.
const RECORDS: &str = "# keeps what was saved last, whatever a stopped run left beside it
begin
lacks s
loads: (none)
saves: a long record
loads: a long record
writes s/cryfs.localstate.0000000000000001.new: what a failed save left of another
saves: short
holds s/cryfs.localstate: short
lacks s/cryfs.localstate.0000000000000001.new
# serves one run at a time
begin
saves: first
second
loads: (fails)
fails-to-save: record
end
loads: (fails)
begin
loads: first
# fails where something else lies
makes s/cryfs.localstate
writes s/cryfs.localstate/inner:
begin
loads: (fails)
fails-to-save: record
# fails at a device
makes s
links s/cryfs.localstate: /dev/null
begin
loads: (fails)
# looks at no record where none is used
begin-unread
lacks s
loads: (none)
saves: record
begin-unread
loads: (fails)
# saves into no other folder at its path, where its drive was taken away in mid-session
begin
saves: record
renames s: away
loads: (fails)
fails-to-save: record
lacks s
makes s
loads: (fails)
fails-to-save: record
lacks s/cryfs.localstate
lacks s/cryfs.lock
removes s
renames away: s
holds s/cryfs.localstate: record
loads: (fails)
saves: later
loads: later
# makes its folder by a save alone
begin
loads: (none)
lacks s
makes s
loads: (fails)
fails-to-save: record
lacks s/cryfs.localstate
lacks s/cryfs.lock
# flushes a record before it is loaded
allows 0
makes s
begin
allows 0
loads: (none)
writes s/cryfs.localstate: record
begin
loads: (fails)
allows 1
loads: record
none-left
";

#[test]
fn records_in_folders(rt: HostRuntime) -> Result<(), Fail> {
    tell(&rt, "runs", RECORDS)
}
