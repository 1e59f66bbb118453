// The blocks that a root leads to.
ghost use Rattle.std.specs.Prelude.{◌≡◌, [], IfOk, OnErr};
ghost use Rattle.std.specs.declared.option.Option.TheVariants.{None};
ghost use Rattle.outside.specs.Causes.{GetHasCause};
ghost use Rattle.block_id.specs.Fresh.{zero_id};
ghost use Rattle.found_blocks.specs.Rows.{author_in};
ghost use Rattle.found_blocks.specs.Searching.{Discovered, SearchedBy, with_rows};
ghost use Rattle.found_blocks.specs.Views.{IsIdle, finding_by};

use crate::ask::ask;
use crate::names::Body;
use crate::rows::FoundRows;
use crate::search::Search;
use crate::store::FoundStore;
use block_id::{BlockId, Memory};
use data_nodes::{Node, read_node};
use outside::{GetFail, Vault};
use seal_api::Sealer;
use std::alloc::Global;

/// Puts these ids on top of the others, the first of them uppermost.
fn push_children(nodes: &mut Vec<BlockId>, children: &[BlockId]) -> Result<(), Memory> {
    for child in children.iter().rev() {
        nodes.push(*child)?;
    }
    Ok(())
}

/// What a node leads to: of an inner node its children; of a leaf its bytes are those of the blob.
fn take_node(
    alloc: Global,
    payload: &[u8],
    nodes: &mut Vec<BlockId>,
    body: &mut Body,
) -> Result<(), Memory> {
    match read_node(alloc, payload)? {
        None => Ok(()),
        Some(Node::Leaf(bytes)) => body.take(&bytes),
        Some(Node::Inner { depth: _, children }) => push_children(nodes, &children),
    }
}

/// Asks for one node, and takes what it leads to.
fn visit<V: Vault, C: Sealer>(
    alloc: Global,
    store: &mut FoundStore<V, C>,
    search: &mut Search,
    id: &BlockId,
    nodes: &mut Vec<BlockId>,
    body: &mut Body,
) -> Result<(), GetFail>
    requires { IsIdle store.old.sealed (C.iv_size store.old.sealed.cipher) }
    ensures searched { SearchedBy (finding_by C.opens store.old) (finding_by C.opens store.new) search.old search.new (V.trace store.old.sealed.vault.vault) (V.trace store.new.sealed.vault.vault) }
    ensures idle { IsIdle store.new.sealed (C.iv_size store.new.sealed.cipher) }
    ensures rows { store.new.rows ≡ store.old.rows }
    ensures cause { GetHasCause (V.faults store.old.sealed.vault.vault) (V.faults store.new.sealed.vault.vault) result }
{
    match ask(alloc, store, search, id) {
        Ok(Some(payload)) => match take_node(alloc, &payload, nodes, body) {
            Ok(()) => Ok(()),
            Err(Memory) => Err(GetFail::Memory),
        },
        Ok(None) => Ok(()),
        Err(fail) => Err(fail),
    }
}

/// Asks for the nodes of one blob, in order. Where it is a directory, the blobs of its entries are put behind the others.
fn follow<V: Vault, C: Sealer>(
    alloc: Global,
    store: &mut FoundStore<V, C>,
    search: &mut Search,
    blob: &BlockId,
    blobs: &mut Vec<BlockId>,
) -> Result<(), GetFail>
    requires { IsIdle store.old.sealed (C.iv_size store.old.sealed.cipher) }
    ensures searched { SearchedBy (finding_by C.opens store.old) (finding_by C.opens store.new) search.old search.new (V.trace store.old.sealed.vault.vault) (V.trace store.new.sealed.vault.vault) }
    ensures idle { IsIdle store.new.sealed (C.iv_size store.new.sealed.cipher) }
    ensures rows { store.new.rows ≡ store.old.rows }
    ensures cause { GetHasCause (V.faults store.old.sealed.vault.vault) (V.faults store.new.sealed.vault.vault) result }
{
    let mut nodes = Vec::new(alloc);
    if nodes.push(*blob).is_err() {
        return Err(GetFail::Memory);
    }
    let mut body = Body::new(alloc);
    for _ in 0..u64::MAX {
        let Some(id) = nodes.pop() else {
            break;
        };
        match visit(alloc, store, search, &id, &mut nodes, &mut body) {
            Ok(()) => {}
            Err(fail) => return Err(fail),
        }
    }
    match body.names(alloc, blobs) {
        Ok(()) => Ok(()),
        Err(Memory) => Err(GetFail::Memory),
    }
}

/// Asks for the blocks of each blob that this root leads to.
fn follow_all<V: Vault, C: Sealer>(
    alloc: Global,
    store: &mut FoundStore<V, C>,
    search: &mut Search,
    root: &BlockId,
) -> Result<(), GetFail>
    requires { IsIdle store.old.sealed (C.iv_size store.old.sealed.cipher) }
    ensures searched { SearchedBy (finding_by C.opens store.old) (finding_by C.opens store.new) search.old search.new (V.trace store.old.sealed.vault.vault) (V.trace store.new.sealed.vault.vault) }
    ensures idle { IsIdle store.new.sealed (C.iv_size store.new.sealed.cipher) }
    ensures rows { store.new.rows ≡ store.old.rows }
    ensures cause { GetHasCause (V.faults store.old.sealed.vault.vault) (V.faults store.new.sealed.vault.vault) result }
{
    let mut blobs = Vec::new(alloc);
    if blobs.push(*root).is_err() {
        return Err(GetFail::Memory);
    }
    for _ in 0..u64::MAX {
        let Some(blob) = blobs.pop() else {
            break;
        };
        match follow(alloc, store, search, &blob, &mut blobs) {
            Ok(()) => {}
            Err(fail) => return Err(fail),
        }
    }
    Ok(())
}

/// The rows of the blocks that this root leads to.
pub(crate) fn find_all<V: Vault, C: Sealer>(
    alloc: Global,
    store: &mut FoundStore<V, C>,
    root: &BlockId,
) -> Result<FoundRows, GetFail>
    requires { IsIdle store.old.sealed (C.iv_size store.old.sealed.cipher) }
    ensures ok { IfOk result (λ rows. Discovered (finding_by C.opens store.old) (with_rows (finding_by C.opens store.new) rows) (V.trace store.old.sealed.vault.vault) (V.trace store.new.sealed.vault.vault)) }
    ensures err { OnErr result (Discovered (finding_by C.opens store.old) (with_rows (finding_by C.opens store.new) []) (V.trace store.old.sealed.vault.vault) (V.trace store.new.sealed.vault.vault)) }
    ensures no_zero { IfOk result (λ rows. author_in rows zero_id ≡ None) }
    ensures idle { IsIdle store.new.sealed (C.iv_size store.new.sealed.cipher) }
    ensures rows { store.new.rows ≡ store.old.rows }
    ensures cause { GetHasCause (V.faults store.old.sealed.vault.vault) (V.faults store.new.sealed.vault.vault) result }
{
    let mut search = Search::new(alloc);
    match follow_all(alloc, store, &mut search, root) {
        Ok(()) => {}
        Err(fail) => return Err(fail),
    }
    match search.into_rows(alloc) {
        Ok(rows) => Ok(rows),
        Err(Memory) => Err(GetFail::Memory),
    }
}
