// What a list of drafts counts once they are sealed.
ghost use Rattle.std.specs.Prelude.{◌≡◌, ◌≤◌};
ghost use Rattle.outside.specs.Changes.{change_at};
ghost use Rattle.outside.specs.Trace.{config};
ghost use Rattle.outside.specs.View.{change_of, list_of};
ghost use Rattle.sealed_store.specs.Sums.{bytes_put, one_if_removal, puts_of, removals_in, sealed_sum};

use outside::{Change, FileName, Pending, Vault};
use redo_vault::RedoVault;

/// How many bytes each removal weighs in the list.
pub(crate) const REMOVAL: usize = 64;

/// 1 for a removal, and 0 for bytes.
fn one_if_removal(change: &Change) -> usize
    ensures value { result ≡ one_if_removal (change_of change.now) }
    ensures most { result ≤ 1 }
{
    match change {
        Change::Bytes(_) => 0,
        Change::Removal => 1,
    }
}

/// How many of the changes are removals, counted one by one.
fn count_removals(list: &[Pending]) -> usize
    ensures { result ≡ removals_in (list_of list.now) }
{
    let mut count = 0;
    for pending in list {
        count += one_if_removal(&pending.change);
    }
    count
}

/// How many of the changes that wait are removals. The weight tells it, where it isn't as great as a weight can be.
fn removals<V: Vault>(vault: &RedoVault<V>) -> usize
    ensures { result ≡ removals_in vault.now.list }
{
    let weight = vault.weight();
    if weight == usize::MAX {
        return count_removals(vault.entries());
    }
    (weight - vault.buffered()) / REMOVAL
}

/// 1 where bytes wait for the configuration's file, else 0, and how many bytes.
fn config_put<V: Vault>(vault: &RedoVault<V>) -> (usize, usize)
    ensures puts { result.0 ≡ puts_of (change_at config vault.now.list) }
    ensures bytes { result.1 ≡ bytes_put (change_at config vault.now.list) }
{
    match vault.change_of(&FileName::Config) {
        Some(Change::Bytes(bytes)) => (1, bytes.len()),
        Some(Change::Removal) => (0, 0),
        None => (0, 0),
    }
}

/// How many bytes the list counts once its drafts are sealed, where each removal counts so many. Of the changes no more than
/// the configuration's is looked at.
pub(crate) fn sealed_sum<V: Vault>(block_size: usize, removal: usize, vault: &RedoVault<V>) -> usize
    ensures { result ≡ sealed_sum block_size removal vault.now.list }
{
    let entries = vault.entries().len();
    let removed = removals(vault);
    let (puts, bytes) = config_put(vault);
    let files = entries - removed - puts;
    files
        .saturating_mul(block_size)
        .saturating_add(bytes)
        .saturating_add(removed.saturating_mul(removal))
}
