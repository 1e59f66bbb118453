// Drafts of block files, and how they are sealed.
ghost use Rattle.std.specs.Prelude.{◌≡◌, true, ◌≤◌, ◌<◌, ◌-◌, ◌++◌, OnOk, OnErr, length, map, take, vec_capacity};
ghost use Rattle.outside.specs.View.{at_of, change_of, list_of, pending_of};
ghost use Rattle.block_id.specs.Formats.{prefix_of};
ghost use Rattle.block_id.specs.declared.format.Format.TheVariants.{WithId};
ghost use Rattle.sealed_store.specs.Drafts.{filled, front_in, iv_in_draft, sealed_as, sealed_entry, told_list, IsDraft, MayBeDraft, AreDrafts};
ghost use Rattle.sealed_store.specs.Stores.{IsIntact};
ghost use Rattle.sealed_store.specs.Sums.{HasRoomFor, HaveRoom};

use crate::sealed_store::SEAL_LEN;
use crate::seeing::PREFIX_WITH_ID;
use block_id::{BlockId, Memory};
use outside::{Change, FileName, Pending, Vault};
use redo_vault::RedoVault;
use seal_api::Sealer;
use std::alloc::Global;

/// How many bytes of a file are its prefix.
const PREFIX_LEN: usize = 16;

/// How many bytes of a draft are its IV.
pub(crate) const IV_LEN: usize = 16;

/// How many bytes stand before what hides the plaintext.
pub(crate) const FRONT_LEN: usize = PREFIX_LEN + IV_LEN;

/// Fills the front of a draft up with zeros to so many bytes, for which there is memory, and gives its IV.
fn fill_up(block_size: usize, draft: &mut Vec<u8>) -> [u8; 16]
    requires draft { IsDraft block_size draft.old.items }
    requires room { block_size ≤ vec_capacity draft.old }
    ensures iv { result ≡ iv_in_draft draft.old.items }
    ensures filled { draft.new.items ≡ filled block_size (front_in draft.old.items) }
{
    let end = draft.len() - IV_LEN;
    let mut iv = [0; IV_LEN];
    iv.copy_from_slice(&draft[end..]);
    draft.truncate(end);
    match draft.resize(block_size, 0) {
        Ok(()) => iv,
        Err(_) => unreachable!(),
    }
}

/// Seals the plaintext that a file's bytes begin with: it moves behind the prefix and the IV.
fn seal_at<C: Sealer>(cipher: &C, key: &[u8; 32], iv: &[u8; 16], id: &BlockId, file: &mut [u8])
    requires { IsIntact (length file.old) (C.iv_size cipher.now) }
    ensures { file.new ≡ prefix_of WithId ++ C.sealed cipher.now key.now iv.now id.now.0 (take (length file.old - 48) file.old) }
{
    let end = file.len() - SEAL_LEN;
    file.copy_within(..end, FRONT_LEN);
    file[..PREFIX_LEN].copy_from_slice(&PREFIX_WITH_ID);
    cipher.seal_in_place(key, iv, &id.0, &mut file[PREFIX_LEN..]);
}

/// Seals a draft to the file of this block where it stands, for which there is memory.
fn seal_draft<C: Sealer>(
    cipher: &C,
    key: &[u8; 32],
    block_size: usize,
    id: &BlockId,
    draft: &mut Vec<u8>,
)
    requires intact { IsIntact block_size (C.iv_size cipher.now) }
    requires draft { IsDraft block_size draft.old.items }
    requires room { block_size ≤ vec_capacity draft.old }
    ensures { draft.new.items ≡ sealed_as (C.sealed cipher.now key.now) block_size id.now.0 draft.old.items }
{
    let iv = fill_up(block_size, draft);
    seal_at(cipher, key, &iv, id, draft);
}

/// Seals the file of a change if it is a draft, for which there is memory.
fn seal_change<C: Sealer>(cipher: &C, key: &[u8; 32], block_size: usize, pending: &mut Pending)
    requires intact { IsIntact block_size (C.iv_size cipher.now) }
    requires draft { MayBeDraft block_size (at_of pending.old.name) (change_of pending.old.change) }
    requires room { HasRoomFor block_size pending.old.name pending.old.change }
    ensures { pending_of pending.new ≡ sealed_entry (C.sealed cipher.now key.now) block_size (pending_of pending.old) }
{
    let FileName::Block(id) = pending.name else {
        return;
    };
    match &mut pending.change {
        Change::Bytes(draft) => seal_draft(cipher, key, block_size, &id, draft),
        Change::Removal => {}
    }
}

/// Seals each draft of the changes where it stands, for which there is memory.
fn seal_list<C: Sealer>(cipher: &C, key: &[u8; 32], block_size: usize, list: &mut Vec<Pending>)
    requires intact { IsIntact block_size (C.iv_size cipher.now) }
    requires drafts { AreDrafts block_size (list_of list.old.items) }
    requires room { HaveRoom block_size list.old.items }
    ensures { list_of list.new.items ≡ map (sealed_entry (C.sealed cipher.now key.now) block_size) (list_of list.old.items) }
{
    for pending in list.iter_mut() {
        seal_change(cipher, key, block_size, pending);
    }
}

/// Takes the memory for the file of a change that may be a draft.
fn make_room_for(block_size: usize, pending: &mut Pending) -> Result<(), Memory>
    ensures ok { OnOk result (HasRoomFor block_size pending.new.name pending.new.change) }
    ensures same { pending_of pending.new ≡ pending_of pending.old }
{
    let FileName::Block(_) = pending.name else {
        return Ok(());
    };
    if let Change::Bytes(draft) = &mut pending.change {
        draft.reserve_exact(block_size.saturating_sub(draft.len()))?;
    }
    Ok(())
}

/// Takes the memory for the file of each change that may be a draft.
fn make_room(block_size: usize, list: &mut Vec<Pending>) -> Result<(), Memory>
    ensures ok { OnOk result (HaveRoom block_size list.new.items) }
    ensures some { OnErr result (0 < length list.old.items) }
    ensures same { list_of list.new.items ≡ list_of list.old.items }
{
    for pending in list.iter_mut() {
        make_room_for(block_size, pending)?;
    }
    Ok(())
}

/// Seals each draft of the changes where it stands, all or none: memory for all is taken first.
pub(crate) fn seal_all<C: Sealer>(
    cipher: &C,
    key: &[u8; 32],
    block_size: usize,
    list: &mut Vec<Pending>,
) -> Result<(), Memory>
    requires intact { IsIntact block_size (C.iv_size cipher.now) }
    requires drafts { AreDrafts block_size (list_of list.old.items) }
    ensures ok { OnOk result (list_of list.new.items ≡ map (sealed_entry (C.sealed cipher.now key.now) block_size) (list_of list.old.items)) }
    ensures err { OnErr result (list_of list.new.items ≡ list_of list.old.items) }
    ensures some { OnErr result (0 < length list.old.items) }
{
    make_room(block_size, list)?;
    seal_list(cipher, key, block_size, list);
    Ok(())
}

/// Seals what waits, where drafts wait, all or none.
pub(crate) fn seal_waiting<V: Vault, C: Sealer>(
    alloc: Global,
    cipher: &C,
    key: &[u8; 32],
    block_size: usize,
    drafts: bool,
    vault: &mut RedoVault<V>,
) -> Result<(), Memory>
    requires intact { IsIntact block_size (C.iv_size cipher.now) }
    requires drafts { drafts ≡ true → AreDrafts block_size vault.old.list }
    ensures ok { OnOk result (vault.new.list ≡ told_list drafts (C.sealed cipher.now key.now) block_size vault.old.list) }
    ensures err { OnErr result (vault.new ≡ vault.old) }
    ensures some { OnErr result (0 < length vault.old.list) }
    ensures vault { vault.new.vault ≡ vault.old.vault }
{
    if !drafts {
        return Ok(());
    }
    let mut list = vault.replace_list(Vec::new(alloc));
    let outcome = seal_all(cipher, key, block_size, &mut list);
    drop(vault.replace_list(list));
    outcome
}
