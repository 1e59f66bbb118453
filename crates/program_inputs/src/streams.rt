// Standard streams that were closed before the program began.
use std::fs::{File, OpenOptions};

/// Files that have the numbers of the standard streams that are closed, as long as they are held: else a file that the run
/// opens would have one, and get what it answers. This one can't be read, and a write to it fails.
pub(crate) fn hold_closed(rt: &HostRuntime) -> [Option<File>; 3] {
    [hold_lowest(rt), hold_lowest(rt), hold_lowest(rt)]
}

/// The file, open under the lowest number that is free, where the system has it.
fn hold_lowest(rt: &HostRuntime) -> Option<File> {
    OpenOptions::new().write(true).open(rt, "/dev/full").ok()
}
