// A block is asked for, and found.
ghost use Rattle.std.specs.Prelude.{◌≡◌, List, ℕ, ◌+◌, IfSome, IfOk, OnErr};
ghost use Rattle.outside.specs.Causes.{GetHasCause};
ghost use Rattle.block_id.specs.Fresh.{zero_id};
ghost use Rattle.store_api.specs.Content.{same_id};
ghost use Rattle.block_versions.specs.sealed_store.BlockFiles.{SeenFile, IsWhole, front_seen};
ghost use Rattle.block_versions.specs.sealed_store.Stores.{seen_file_of};
ghost use Rattle.block_versions.specs.Verdicts.{front_verdict, good, judged};
ghost use Rattle.block_versions.specs.declared.block_record.TheConstants.{HEAD_LEN};
ghost use Rattle.found_blocks.specs.Searching.{GotAny, SearchedBy};
ghost use Rattle.found_blocks.specs.Views.{IsIdle, finding_by};

use crate::fetch::LEAST;
use crate::rows::FoundRow;
use crate::search::Search;
use crate::store::FoundStore;
use block_id::{BlockId, Memory};
use block_versions::sealed_store::Seen;
use block_versions::{judge, read_head};
use outside::{GetFail, Vault};
use seal_api::Sealer;
use std::alloc::Global;

/// The row and the payload of what was seen for a block, where it is that of the block, with whatever client and version.
fn open_any(id: &BlockId, seen: Seen) -> Option<(FoundRow, Vec<u8>)>
    ensures id { IfSome result (λ x. x.0.id ≡ id.now) }
    ensures opens { IfSome result (λ x. (size most : ℕ) (whole : SeenFile) → IsWhole size whole → seen_file_of seen ≡ front_seen (HEAD_LEN + most) whole
        → good x.1.items ≡ front_verdict most (judged size id.now.0 x.0.client x.0.version whole)) }
{
    let (client, version) = author_in(&seen)?;
    match judge(id, client, version, seen) {
        Ok(payload) => {
            let row = FoundRow {
                id: *id,
                client,
                version,
            };
            Some((row, payload))
        }
        Err(_) => None,
    }
}

/// The client and the version that a plaintext names.
fn author_in(seen: &Seen) -> Option<(u32, u64)> {
    match seen {
        Seen::Plain(plain) => {
            let head = read_head(plain)?;
            Some((head.client, head.version))
        }
        Seen::Absent => None,
        Seen::BadLength => None,
        Seen::BadPrefix => None,
        Seen::OldFormat => None,
        Seen::NotOpened => None,
    }
}

fn is_zero(id: &BlockId) -> bool
    ensures { result ≡ same_id id.now.0 zero_id }
{
    id.cmp(&BlockId([0; 16])).is_eq()
}

/// Asks for a block: its row and its payload, where its file is that of the block.
fn get_any<V: Vault, C: Sealer>(
    alloc: Global,
    store: &mut FoundStore<V, C>,
    id: &BlockId,
) -> Result<Option<(FoundRow, Vec<u8>)>, GetFail>
    requires { IsIdle store.old.sealed (C.iv_size store.old.sealed.cipher) }
    ensures got_ { IfOk result (GotAny (finding_by C.opens store.old) (V.trace store.old.sealed.vault.vault) (V.trace store.new.sealed.vault.vault) id.now.0) }
    ensures err { OnErr result (V.trace store.new.sealed.vault.vault ≡ V.trace store.old.sealed.vault.vault) }
    ensures same { store.new ≡ record store.old { sealed = store.new.sealed } }
    ensures finding { finding_by C.opens store.new ≡ finding_by C.opens store.old }
    ensures idle { IsIdle store.new.sealed (C.iv_size store.new.sealed.cipher) }
    ensures cause { GetHasCause (V.faults store.old.sealed.vault.vault) (V.faults store.new.sealed.vault.vault) result }
{
    // As many bytes as a plaintext has.
    match store.sealed.get_plain(alloc, id, LEAST, usize::MAX) {
        Ok(seen) => Ok(open_any(id, seen)),
        Err(fail) => Err(fail),
    }
}

/// The payload of a block that wasn't asked for before, where its file is found to be one of it.
pub(crate) fn ask<V: Vault, C: Sealer>(
    alloc: Global,
    store: &mut FoundStore<V, C>,
    search: &mut Search,
    id: &BlockId,
) -> Result<Option<Vec<u8>>, GetFail>
    requires { IsIdle store.old.sealed (C.iv_size store.old.sealed.cipher) }
    ensures searched { SearchedBy (finding_by C.opens store.old) (finding_by C.opens store.new) search.old search.new (V.trace store.old.sealed.vault.vault) (V.trace store.new.sealed.vault.vault) }
    ensures idle { IsIdle store.new.sealed (C.iv_size store.new.sealed.cipher) }
    ensures rows { store.new.rows ≡ store.old.rows }
    ensures cause { GetHasCause (V.faults store.old.sealed.vault.vault) (V.faults store.new.sealed.vault.vault) result }
{
    if is_zero(id) {
        return Ok(None);
    }
    match search.note(id) {
        Ok(true) => {}
        Ok(false) => return Ok(None),
        Err(Memory) => return Err(GetFail::Memory),
    }
    match get_any(alloc, store, id) {
        Ok(Some((row, payload))) => match search.add(row) {
            Ok(()) => {
                store.given.note(&[0, 0, 0], &id.0, &payload);
                Ok(Some(payload))
            }
            Err(Memory) => Err(GetFail::Memory),
        },
        Ok(None) => Ok(None),
        Err(fail) => Err(fail),
    }
}
