//! Block directories, local records and the folders of copies, in real folders and in memory: what no contract says of them,
//! how those in memory are made to fail, and the promises that all keep alike. There is nothing here but tests.
#![tactic(auto)]

#[cfg(test)]
mod calls;
#[cfg(test)]
mod copied_folders;
#[cfg(test)]
mod copies;
#[cfg(test)]
mod counted_flushes;
#[cfg(test)]
mod files;
#[cfg(test)]
mod flush_helper;
#[cfg(test)]
mod folder_keeper;
#[cfg(test)]
mod folder_run;
#[cfg(test)]
mod folder_vault;
#[cfg(test)]
mod memory;
#[cfg(test)]
mod memory_keeper;
#[cfg(test)]
mod memory_streams;
#[cfg(test)]
mod memory_vault;
#[cfg(test)]
mod places;
#[cfg(test)]
mod promises;
#[cfg(test)]
mod runs;
#[cfg(test)]
mod stories;
