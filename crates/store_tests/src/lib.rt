//! Single stores, and the list of changes below them: what is written, opened, cached and loaded, and what
//! waits. There is nothing here but tests.
#![tactic(auto)]

#[cfg(test)]
mod block_caches;
#[cfg(test)]
mod client_files;
#[cfg(test)]
mod client_steps;
#[cfg(test)]
mod counted;
#[cfg(test)]
mod counted_seals;
#[cfg(test)]
mod fronts;
#[cfg(test)]
mod integrity_files;
#[cfg(test)]
mod integrity_stories;
#[cfg(test)]
mod map_stores;
#[cfg(test)]
mod redo_vaults;
#[cfg(test)]
mod sealed_stores;
#[cfg(test)]
mod short_drafts;
#[cfg(test)]
mod steps;
