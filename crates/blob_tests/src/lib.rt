//! Trees of blocks, byte lists under ids, and the file system's blobs and directories over them: their bytes,
//! what each store has to do, and what is read after changes. There is nothing here but tests.
#![tactic(auto)]

#[cfg(test)]
mod blocks;
#[cfg(test)]
mod directories;
#[cfg(test)]
mod files;
#[cfg(test)]
mod headers;
#[cfg(test)]
mod listings;
#[cfg(test)]
mod stores;
#[cfg(test)]
mod suite;
#[cfg(test)]
mod trees;
