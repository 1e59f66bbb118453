//! Copies of folders and of single files: over a tree in memory, and as whole runs over a block directory and a local record
//! in memory. There is nothing here but tests.
#![tactic(auto)]

#[cfg(test)]
mod endings;
#[cfg(test)]
mod folders;
#[cfg(test)]
mod inputs;
#[cfg(test)]
mod over_trees;
#[cfg(test)]
mod plain_asker;
#[cfg(test)]
mod runs;
#[cfg(test)]
mod singles;
#[cfg(test)]
mod stories;
#[cfg(test)]
mod systems;
#[cfg(test)]
mod trees;
