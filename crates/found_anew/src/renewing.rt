// The found blocks, each written anew.
ghost use Rattle.std.specs.Prelude.{◌≡◌, ◌<◌, ◌≤◌, [], true, is_some, IfErr, OnOk};
ghost use Rattle.std.specs.FinMap as fin;
ghost use Rattle.cryfs_check.specs.Checks.{ListsLive};
ghost use Rattle.cryfs_check.specs.check_rules.data_nodes.Layout.{ids_of};
ghost use Rattle.found_blocks.specs.Views.{finding_by};
ghost use Rattle.found_blocks.specs.block_versions.Views.{held_of};
ghost use Rattle.found_blocks.specs.store_outcome.Meanings.{HasCause, IsQuiet};
ghost use Rattle.found_anew.specs.Renewing.{RenewsAll, RenewsOnce, WentOnRenewing};

use anew::renew;
use block_id::{BlockId, Fail};
use found_blocks::FoundStore;
use found_blocks::local_state::State;
use found_blocks::store_api::Blocks;
use outside::{GetFail, Vault};
use rand_core::Rng;
use seal_api::Sealer;
use std::alloc::Global;

/// Writes the payload of a found block anew, as it was found, unless the state knows the block.
fn renew_found<V: Vault, C: Sealer, R: Rng>(
    alloc: Global,
    found: &mut FoundStore<V, C>,
    state: &mut State,
    id: &BlockId,
    chance: &mut R,
) -> Result<(), Fail>
    requires intact { ⟦<FoundStore<V, C> as Blocks>⟧.meanings.intact found.old }
    requires there { is_some (⟦<FoundStore<V, C> as Blocks>⟧.holdings.content found.old id.now.0) ≡ true }
    requires client { 0 < state.old.client }
    ensures renews { OnOk result (RenewsOnce (is_some (fin.get state.old.known.lives id.now.0)) (finding_by C.opens found.old) (held_of C.opens found.old.sealed state.old)
        (held_of C.opens found.new.sealed state.new) id.now.0 (V.trace found.old.sealed.vault.vault) (V.trace found.new.sealed.vault.vault) (R.stream chance.old) (R.stream chance.new)) }
    ensures same { finding_by C.opens found.new ≡ finding_by C.opens found.old }
    ensures intact { OnOk result (⟦<FoundStore<V, C> as Blocks>⟧.meanings.intact found.new) }
    ensures client { OnOk result (state.new.client ≡ state.old.client) }
    ensures grows { WentOnRenewing (finding_by C.opens found.old) (V.trace found.old.sealed.vault.vault) (V.trace found.new.sealed.vault.vault) }
    ensures faults { V.faults found.old.sealed.vault.vault ≤ V.faults found.new.sealed.vault.vault }
    ensures cause { IfErr result (λ e. HasCause e (V.faults found.old.sealed.vault.vault) (V.faults found.new.sealed.vault.vault)) }
    ensures quiet { IsQuiet result (V.faults found.old.sealed.vault.vault) (V.faults found.new.sealed.vault.vault) }
{
    if state.known.is_used(id) {
        return Ok(());
    }
    let payload = match found.load(alloc, id) {
        Ok(Some(payload)) => payload,
        Ok(None) => unreachable!(),
        Err(fail) => return Err(fail),
    };
    match renew(alloc, &mut found.sealed, state, id, &payload, chance) {
        Ok(()) => Ok(()),
        Err(GetFail::Memory) => Err(Fail::Memory),
        Err(GetFail::Failed) => Err(Fail::Fault),
    }
}

/// Writes each of these found blocks anew, in order, each once. The state knows no block yet.
pub fn renew_all<V: Vault, C: Sealer, R: Rng>(
    alloc: Global,
    found: &mut FoundStore<V, C>,
    state: &mut State,
    ids: &[BlockId],
    chance: &mut R,
) -> Result<(), Fail>
    requires intact { ⟦<FoundStore<V, C> as Blocks>⟧.meanings.intact found.old }
    requires lists { ListsLive (⟦<FoundStore<V, C> as Blocks>⟧.holdings.content found.old) ids.now }
    requires client { 0 < state.old.client }
    requires fresh { state.old.known.lives ≡ fin.empty }
    ensures renews { OnOk result (RenewsAll (finding_by C.opens found.old) (held_of C.opens found.old.sealed state.old) (held_of C.opens found.new.sealed state.new)
        (ids_of ids.now) (V.trace found.old.sealed.vault.vault) (V.trace found.new.sealed.vault.vault)) }
    ensures grows { WentOnRenewing (finding_by C.opens found.old) (V.trace found.old.sealed.vault.vault) (V.trace found.new.sealed.vault.vault) }
    ensures same { finding_by C.opens found.new ≡ finding_by C.opens found.old }
    ensures intact { OnOk result (⟦<FoundStore<V, C> as Blocks>⟧.meanings.intact found.new) }
    ensures cause { IfErr result (λ e. HasCause e (V.faults found.old.sealed.vault.vault) (V.faults found.new.sealed.vault.vault)) }
    ensures quiet { IsQuiet result (V.faults found.old.sealed.vault.vault) (V.faults found.new.sealed.vault.vault) }
{
    for id in ids {
        renew_found(alloc, found, state, id, chance)?;
    }
    Ok(())
}
