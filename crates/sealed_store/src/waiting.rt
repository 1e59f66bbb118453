// Drafts that wait, as they are looked up and seen.
ghost use Rattle.std.specs.Prelude.{◌≡◌, ◌⊎◌, ◌≤◌, ◌<◌, ◌^◌, true, false, [], length, take, IfOk, IfSome, IfNone};
ghost use Rattle.std.specs.declared.option.Option.TheVariants.{None, Some};
ghost use Rattle.outside.specs.Changes.{change_at};
ghost use Rattle.outside.specs.View.{at_of, change_of};
ghost use Rattle.sealed_store.specs.declared.sealed_store.TheConstants.{SEAL_LEN};
ghost use Rattle.sealed_store.specs.BlockFiles.{front_seen};
ghost use Rattle.sealed_store.specs.Drafts.{plain_in, seen_draft, IsDraft};
ghost use Rattle.sealed_store.specs.Stores.{seen_file_of};

use crate::Seen;
use crate::drafts::IV_LEN;
use crate::sealed_store::SEAL_LEN;
use crate::seeing::is_old;
use block_id::{Format, Memory};
use outside::{Change, FileName, Vault};
use redo_vault::RedoVault;
use std::alloc::Global;

/// Whether drafts may be set in the list: drafts wait there, or nothing.
pub(crate) fn takes_drafts<V: Vault>(drafts: bool, vault: &RedoVault<V>) -> bool
    ensures yes { result ≡ true → (drafts ≡ true) ⊎ (vault.now.list ≡ []) }
    ensures no { result ≡ false → drafts ≡ false }
    ensures few { length vault.now.list < 2 ^ 64 }
{
    let waiting = vault.entries().len();
    drafts || waiting == 0
}

/// The draft's change that waits for a file, where drafts wait.
pub(crate) fn waiting_draft<'a, V: Vault>(
    drafts: bool,
    vault: &'a RedoVault<V>,
    name: &FileName,
) -> Option<&'a Change>
    ensures drafts { IfSome result (λ _. drafts ≡ true) }
    ensures some { IfSome result (λ change. change_at (at_of name.now) vault.now.list ≡ Some (change_of change.now)) }
    ensures none { IfNone result (drafts ≡ true → change_at (at_of name.now) vault.now.list ≡ None) }
{
    if drafts { vault.change_of(name) } else { None }
}

/// The first bytes of a draft's plaintext, at most so many.
fn front_of_plain(
    alloc: Global,
    block_size: usize,
    most: usize,
    draft: &[u8],
) -> Result<Vec<u8>, Memory>
    requires { IsDraft block_size draft.now }
    ensures { IfOk result (λ front. front.items ≡ take most (plain_in block_size draft.now)) }
{
    let len = most.min(block_size - SEAL_LEN);
    let end = len.min(draft.len() - IV_LEN);
    let mut front = Vec::with_capacity(alloc, len)?;
    front.extend_from_slice(&draft[..end])?;
    front.resize(len, 0)?;
    Ok(front)
}

/// What the file shows that a draft's change is sealed to, of its plaintext no more than so many first bytes.
pub(crate) fn see_draft(
    alloc: Global,
    block_size: usize,
    least: u8,
    most: usize,
    change: &Change,
) -> Result<Seen, Memory>
    requires { IfSome (change_of change.now) (λ draft. IsDraft block_size draft) }
    ensures { IfOk result (λ seen. seen_file_of seen ≡ front_seen most (seen_draft block_size least (change_of change.now))) }
{
    match change {
        Change::Removal => Ok(Seen::Absent),
        Change::Bytes(draft) => {
            if is_old(Format::WithId, least) {
                return Ok(Seen::OldFormat);
            }
            let plain = front_of_plain(alloc, block_size, most, draft)?;
            Ok(Seen::Plain(plain))
        }
    }
}
