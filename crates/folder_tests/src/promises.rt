// All promises, over each block directory and each local record.
use crate::places::{make_places, remove_places};
use call_log::CallLog;
use memory_outside::{MemoryKeeper, MemoryVault};
use outside_suite::keeper_promises::keeps_all_of_a_record;
use outside_suite::listing_promises::lists_what_is_there;
use outside_suite::vault_promises::keeps_all_of_a_directory;
use real_outside::{FolderKeeper, FolderRun, FolderVault};
use std::test::Fail;

#[test]
fn those_in_memory_keep_all_promises(rt: HostRuntime) -> Result<(), Fail> {
    let alloc = rt.alloc();
    keeps_all_of_a_directory(alloc, &mut MemoryVault::new(alloc))?;
    lists_what_is_there(alloc, &mut MemoryVault::new(alloc))?;
    let mut keeper = MemoryKeeper::new(alloc, None, Vec::new(alloc));
    keeps_all_of_a_record(alloc, &mut keeper)
}

fn keep_directory(rt: HostRuntime, folder: &str) -> Result<(), Fail> {
    let run = FolderRun::new(rt.alloc(), 1)?;
    let mut vault = FolderVault::new(rt, folder, &run, CallLog::new());
    keeps_all_of_a_directory(rt.alloc(), &mut vault)
}

fn list(rt: HostRuntime, folder: &str) -> Result<(), Fail> {
    let run = FolderRun::new(rt.alloc(), 1)?;
    let mut vault = FolderVault::new(rt, folder, &run, CallLog::new());
    lists_what_is_there(rt.alloc(), &mut vault)
}

fn keep_record(rt: HostRuntime, folder: &str) -> Result<(), Fail> {
    let run = FolderRun::new(rt.alloc(), 1)?;
    let mut keeper = FolderKeeper::new(rt.alloc(), rt, folder, &run, CallLog::new())?;
    keeps_all_of_a_record(rt.alloc(), &mut keeper)
}

/// The promises of this name, over a folder that isn't there yet. Those of a directory flush some thousand times, and a test
/// has a minute.
fn keep(rt: HostRuntime, name: &str) -> Result<(), Fail> {
    let places = make_places(&rt, "directory listed record")?;
    let kept = match name {
        "directory" => keep_directory(rt, places.first.as_str()),
        "listing" => list(rt, places.second.as_str()),
        _ => keep_record(rt, places.third.as_str()),
    };
    let removed = remove_places(&rt, &places);
    kept?;
    Ok(removed?)
}

#[test]
fn a_directory_in_a_folder_keeps_all_promises(rt: HostRuntime) -> Result<(), Fail> {
    keep(rt, "directory")
}

#[test]
fn a_listing_and_a_record_in_a_folder_keep_all_promises(rt: HostRuntime) -> Result<(), Fail> {
    keep(rt, "listing")?;
    keep(rt, "record")
}
