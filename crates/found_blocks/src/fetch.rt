// A found block's file, judged by the client and the version that it was found with.
ghost use Rattle.std.specs.Prelude.{◌≡◌, ◌≤◌, IfErr};
ghost use Rattle.block_versions.specs.store_outcome.Meanings.{HasCause, IsQuiet};
ghost use Rattle.found_blocks.specs.Fetching.{FetchedFront, fetched_of};
ghost use Rattle.found_blocks.specs.Rows.{author_of};
ghost use Rattle.found_blocks.specs.Views.{IsIdle, finding_by};

use crate::{FoundRow, FoundStore};
use block_id::{BlockId, Fail};
use block_versions::{HEAD_LEN, judge};
use outside::{GetFail, Vault};
use seal_api::Sealer;
use std::alloc::Global;

/// The least number of a format whose files are taken: of each.
pub(crate) const LEAST: u8 = 1;

/// The first bytes of a found block's payload, at most so many, which was judged whole.
pub(crate) fn fetch<V: Vault, C: Sealer>(
    alloc: Global,
    store: &mut FoundStore<V, C>,
    id: &BlockId,
    row: &FoundRow,
    most: usize,
) -> Result<Vec<u8>, Fail>
    requires { IsIdle store.old.sealed (C.iv_size store.old.sealed.cipher) }
    ensures fetched { FetchedFront (finding_by C.opens store.old) (V.trace store.old.sealed.vault.vault) (V.trace store.new.sealed.vault.vault) id.now.0 (author_of row.now) most (fetched_of result) }
    ensures same { finding_by C.opens store.new ≡ finding_by C.opens store.old }
    ensures idle { IsIdle store.new.sealed (C.iv_size store.new.sealed.cipher) }
    ensures faults { V.faults store.old.sealed.vault.vault ≤ V.faults store.new.sealed.vault.vault }
    ensures quiet { IsQuiet result (V.faults store.old.sealed.vault.vault) (V.faults store.new.sealed.vault.vault) }
    ensures cause { IfErr result (λ e. HasCause e (V.faults store.old.sealed.vault.vault) (V.faults store.new.sealed.vault.vault)) }
{
    let opened = most.saturating_add(HEAD_LEN);
    match store.sealed.get_plain(alloc, id, LEAST, opened) {
        Ok(seen) => judge(id, row.client, row.version, seen).map_err(Fail::Violation),
        Err(GetFail::Memory) => Err(Fail::Memory),
        Err(GetFail::Failed) => Err(Fail::Fault),
    }
}
