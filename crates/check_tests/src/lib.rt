//! Checks of file systems that somebody with the key wrote, against a judge that reads the same blocks. There is nothing here but tests.
#![tactic(auto)]

#[cfg(test)]
mod blobs;
#[cfg(test)]
mod blocks;
#[cfg(test)]
mod comparing;
#[cfg(test)]
mod contents;
#[cfg(test)]
mod damaged;
#[cfg(test)]
mod damages;
#[cfg(test)]
mod entries;
#[cfg(test)]
mod judge;
#[cfg(test)]
mod nodes;
#[cfg(test)]
mod rows;
#[cfg(test)]
mod stores;
#[cfg(test)]
mod stories;
