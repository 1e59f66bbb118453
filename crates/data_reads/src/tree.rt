// The calls on trees.
ghost use Rattle.std.specs.Prelude.{◌≡◌, ◌≤◌, ◌<◌, ◌+◌, ◌^◌, [], length, take, drop, IfOk, IfErr, OnOk};
ghost use Rattle.block_id.specs.declared.fail.Fail.TheVariants.{Memory};
ghost use Rattle.block_id.specs.Contents.{resized, written};
ghost use Rattle.data_tree.specs.store_outcome.Outcome.{Outcome};
ghost use Rattle.data_tree.specs.store_api.Holdings.{Stays};
ghost use Rattle.data_tree.specs.store_api.Txs.{content_of, intact_in, tx_holdings, tx_meanings};
ghost use Rattle.data_tree.specs.Roots.{IsRoot, IsNewRoot, IsTooDeep};
ghost use Rattle.data_tree.specs.Trees.{Replaces};

use crate::length::len_in;
use crate::part::Part;
use crate::reading::read_in;
use crate::rewriting::{overwrite, read_root, rewrite};
use block_id::{BlockId, Fail};
use data_tree::store_api::{Blocks, Tx};
use data_tree::{drop_in, level_for, load_head, load_root, new_below, remove};
use std::alloc::Global;

/// How many bytes the tree has. Of a root that is a leaf the front of its block is opened, else a block is loaded for each
/// level.
pub fn len<S: Blocks>(alloc: Global, tx: &mut Tx<S>, root: &BlockId) -> Result<u64, Fail>
    requires { intact_in S.meanings S.holdings tx.old }
    ensures outcome { Outcome (tx_meanings S.meanings S.holdings) (IsRoot (tx_holdings S.holdings) tx.old root.now.0) tx.old tx.new result (λ n len. len ≡ length n.bytes) }
    ensures shallow { S.meanings.sound tx.old.store → S.meanings.forgeries tx.new.store ≤ S.meanings.forgeries tx.old.store
        → OnOk result (IsTooDeep (tx_holdings S.holdings) tx.old root.now.0 → ⊥) }
    ensures stays { Stays (tx_holdings S.holdings) tx.old tx.new }
    ensures below { Stays S.holdings tx.old.store tx.new.store }
    ensures overlay { tx.new.overlay ≡ tx.old.overlay }
{
    let head = match load_head(alloc, tx, root) {
        Ok(head) => head,
        Err(fail) => return Err(fail),
    };
    if head.depth == 0 {
        return Ok(head.size as u64);
    }
    deep_len(alloc, tx, root)
}

/// The same by a block of each level.
fn deep_len<S: Blocks>(alloc: Global, tx: &mut Tx<S>, root: &BlockId) -> Result<u64, Fail>
    requires { intact_in S.meanings S.holdings tx.old }
    ensures outcome { Outcome (tx_meanings S.meanings S.holdings) (IsRoot (tx_holdings S.holdings) tx.old root.now.0) tx.old tx.new result (λ n len. len ≡ length n.bytes) }
    ensures shallow { S.meanings.sound tx.old.store → S.meanings.forgeries tx.new.store ≤ S.meanings.forgeries tx.old.store
        → OnOk result (IsTooDeep (tx_holdings S.holdings) tx.old root.now.0 → ⊥) }
    ensures stays { Stays (tx_holdings S.holdings) tx.old tx.new }
    ensures below { Stays S.holdings tx.old.store tx.new.store }
    ensures overlay { tx.new.overlay ≡ tx.old.overlay }
{
    match load_root(alloc, tx, root) {
        Ok((node, level)) => len_in(alloc, tx, &node, level),
        Err(fail) => Err(fail),
    }
}

/// The bytes from a place on, at most `count`, cut at the end. No node outside the range is loaded, but the root.
pub fn read_range<S: Blocks>(
    alloc: Global,
    tx: &mut Tx<S>,
    root: &BlockId,
    from: u64,
    count: u64,
) -> Result<Vec<u8>, Fail>
    requires { intact_in S.meanings S.holdings tx.old }
    ensures outcome { Outcome (tx_meanings S.meanings S.holdings) (IsRoot (tx_holdings S.holdings) tx.old root.now.0) tx.old tx.new result (λ n out. out.items ≡ take count (drop from n.bytes)) }
    ensures shallow { S.meanings.sound tx.old.store → S.meanings.forgeries tx.new.store ≤ S.meanings.forgeries tx.old.store
        → OnOk result (IsTooDeep (tx_holdings S.holdings) tx.old root.now.0 → ⊥) }
    ensures stays { Stays (tx_holdings S.holdings) tx.old tx.new }
    ensures below { Stays S.holdings tx.old.store tx.new.store }
    ensures overlay { tx.new.overlay ≡ tx.old.overlay }
{
    let (node, level) = match load_root(alloc, tx, root) {
        Ok(found) => found,
        Err(fail) => return Err(fail),
    };
    let mut out = Vec::new(alloc);
    let part = Part {
        from,
        to: from.saturating_add(count),
    };
    match read_in(alloc, tx, &node, level, part, &mut out) {
        Ok(()) => Ok(out),
        Err(fail) => Err(fail),
    }
}

/// Drops the tree. Of a root that is a leaf the front of its block is opened, else the root and the inner nodes are loaded;
/// no other leaf is.
pub fn drop_tree<S: Blocks>(alloc: Global, tx: &mut Tx<S>, root: &BlockId) -> Result<(), Fail>
    requires { intact_in S.meanings S.holdings tx.old }
    ensures outcome { Outcome (tx_meanings S.meanings S.holdings) (IsRoot (tx_holdings S.holdings) tx.old root.now.0) tx.old tx.new result
        (λ n _. Replaces (content_of S.holdings tx.old) (content_of S.holdings tx.new) n.ids []) }
    ensures shallow { S.meanings.sound tx.old.store → S.meanings.forgeries tx.new.store ≤ S.meanings.forgeries tx.old.store
        → OnOk result (IsTooDeep (tx_holdings S.holdings) tx.old root.now.0 → ⊥) }
    ensures below { Stays S.holdings tx.old.store tx.new.store }
{
    let head = match load_head(alloc, tx, root) {
        Ok(head) => head,
        Err(fail) => return Err(fail),
    };
    if head.depth != 0 {
        return drop_deep(alloc, tx, root);
    }
    match remove(tx, root) {
        Ok(()) => Ok(()),
        Err(_) => Err(Fail::Memory),
    }
}

/// The same by the root and the inner nodes.
fn drop_deep<S: Blocks>(alloc: Global, tx: &mut Tx<S>, root: &BlockId) -> Result<(), Fail>
    requires { intact_in S.meanings S.holdings tx.old }
    ensures outcome { Outcome (tx_meanings S.meanings S.holdings) (IsRoot (tx_holdings S.holdings) tx.old root.now.0) tx.old tx.new result
        (λ n _. Replaces (content_of S.holdings tx.old) (content_of S.holdings tx.new) n.ids []) }
    ensures shallow { S.meanings.sound tx.old.store → S.meanings.forgeries tx.new.store ≤ S.meanings.forgeries tx.old.store
        → OnOk result (IsTooDeep (tx_holdings S.holdings) tx.old root.now.0 → ⊥) }
    ensures below { Stays S.holdings tx.old.store tx.new.store }
{
    let (node, level) = match load_root(alloc, tx, root) {
        Ok(found) => found,
        Err(fail) => return Err(fail),
    };
    match remove(tx, root) {
        Ok(()) => drop_in(alloc, tx, &node, level.depth),
        Err(_) => Err(Fail::Memory),
    }
}

/// A new tree that holds the bytes. Nothing is loaded.
pub fn new_tree<S: Blocks>(alloc: Global, tx: &mut Tx<S>, bytes: &[u8]) -> Result<BlockId, Fail>
    requires intact { intact_in S.meanings S.holdings tx.old }
    requires small { length bytes.now ≤ 2 ^ 40 }
    ensures outcome { Outcome (tx_meanings S.meanings S.holdings) Unit tx.old tx.new result (λ _ root. IsNewRoot (tx_holdings S.holdings) tx.old tx.new root.0 [] bytes.now) }
    ensures new { IfOk result (λ root. IsNewRoot (tx_holdings S.holdings) tx.old tx.new root.0 [] bytes.now) }
    ensures err { IfErr result (λ fail. fail ≡ Memory) }
    ensures store { tx.new.store ≡ tx.old.store }
    ensures below { Stays S.holdings tx.old.store tx.new.store }
{
    let level = level_for(tx.payload(), bytes.len() as u64);
    match new_below(alloc, tx, bytes, level) {
        Ok(root) => Ok(root),
        Err(_) => Err(Fail::Memory),
    }
}

/// Writes the bytes from a place on, with zeros between the old end and there. No bytes change nothing.
pub fn write_range<S: Blocks>(
    alloc: Global,
    tx: &mut Tx<S>,
    root: &BlockId,
    from: u64,
    bytes: &[u8],
) -> Result<(), Fail>
    requires intact { intact_in S.meanings S.holdings tx.old }
    requires small { from + length bytes.now ≤ 2 ^ 40 }
    ensures outcome { Outcome (tx_meanings S.meanings S.holdings) (IsRoot (tx_holdings S.holdings) tx.old root.now.0) tx.old tx.new result
        (λ n _. IsNewRoot (tx_holdings S.holdings) tx.old tx.new root.now.0 n.ids (written n.bytes from bytes.now)) }
    ensures shallow { S.meanings.sound tx.old.store → S.meanings.forgeries tx.new.store ≤ S.meanings.forgeries tx.old.store
        → 0 < length bytes.now → OnOk result (IsTooDeep (tx_holdings S.holdings) tx.old root.now.0 → ⊥) }
    ensures empty { length bytes.now ≡ 0 → tx.new ≡ tx.old }
    ensures below { Stays S.holdings tx.old.store tx.new.store }
{
    if bytes.is_empty() {
        return Ok(());
    }
    let (node, mut all) = match read_root(alloc, tx, root) {
        Ok(found) => found,
        Err(fail) => return Err(fail),
    };
    match overwrite(alloc, &mut all, from, bytes) {
        Ok(()) => {}
        Err(_) => return Err(Fail::Memory),
    }
    rewrite(alloc, tx, root, &node, &all)
}

/// Cuts the tree to this length, or appends zeros up to it.
pub fn resize<S: Blocks>(alloc: Global, tx: &mut Tx<S>, root: &BlockId, n: u64) -> Result<(), Fail>
    requires intact { intact_in S.meanings S.holdings tx.old }
    requires small { n ≤ 2 ^ 40 }
    ensures outcome { Outcome (tx_meanings S.meanings S.holdings) (IsRoot (tx_holdings S.holdings) tx.old root.now.0) tx.old tx.new result
        (λ old _. IsNewRoot (tx_holdings S.holdings) tx.old tx.new root.now.0 old.ids (resized old.bytes n)) }
    ensures shallow { S.meanings.sound tx.old.store → S.meanings.forgeries tx.new.store ≤ S.meanings.forgeries tx.old.store
        → OnOk result (IsTooDeep (tx_holdings S.holdings) tx.old root.now.0 → ⊥) }
    ensures below { Stays S.holdings tx.old.store tx.new.store }
{
    let (node, mut all) = match read_root(alloc, tx, root) {
        Ok(found) => found,
        Err(fail) => return Err(fail),
    };
    match all.resize(n as usize, 0) {
        Ok(()) => {}
        Err(_) => return Err(Fail::Memory),
    }
    rewrite(alloc, tx, root, &node, &all)
}
