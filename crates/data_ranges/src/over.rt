// Growing a tree.
ghost use Rattle.std.specs.Prelude.{◌≡◌, ◌⊎◌, ◌≤◌, ◌<◌, ◌+◌, ◌++◌, ◌^◌, true, is_some, length, IfOk};
ghost use Rattle.std.specs.FinMap.{get};
ghost use Rattle.block_id.specs.Contents.{written, zeros};
ghost use Rattle.data_reads.specs.store_outcome.Outcome.{Outcome};
ghost use Rattle.data_reads.specs.store_api.Content.{Id};
ghost use Rattle.data_reads.specs.store_api.Holdings.{Stays};
ghost use Rattle.data_reads.specs.store_api.Txs.{content_of, intact_in, tx_holdings, tx_meanings};
ghost use Rattle.data_reads.specs.data_tree.Leaving.{KeepsBlocks};
ghost use Rattle.data_reads.specs.data_tree.Roots.{IsRoot, IsNewRoot};
ghost use Rattle.data_reads.specs.data_tree.Trees.{span};
ghost use Rattle.data_ranges.specs.Border.{Grew};
ghost use Rattle.data_reads.specs.data_tree.Border.{OnBorder};
ghost use Rattle.data_ranges.specs.Ranges.{GrowsTo, IsOpened};

use block_id::{BlockId, Fail, Memory, Why};
use data_growth::{grown_node, raised};
use data_reads::data_tree::{Level, load_root, put_node};
use data_reads::store_api::{Blocks, Tx};
use data_writes::write_below;
use std::alloc::Global;

/// Appends bytes, so that the tree has n of them. Its depth rises where n needs it.
pub(crate) fn append<S: Blocks>(
    alloc: Global,
    tx: &mut Tx<S>,
    root: &BlockId,
    n: u64,
    tail: &[u8],
) -> Result<(), Fail>
    requires intact { intact_in S.meanings S.holdings tx.old }
    requires small { n ≤ 2 ^ 40 }
    ensures outcome { Outcome (tx_meanings S.meanings S.holdings) (GrowsTo (tx_holdings S.holdings) tx.old root.now.0 (length tail.now) n) tx.old tx.new result
        (λ g _. IsNewRoot (tx_holdings S.holdings) tx.old tx.new root.now.0 g.tree.ids (g.tree.bytes ++ tail.now)) }
    ensures only { (r : IsRoot (tx_holdings S.holdings) tx.old root.now.0) → S.meanings.sound tx.old.store → S.meanings.forgeries tx.new.store ≤ S.meanings.forgeries tx.old.store
        → (q : Id) → is_some (content_of S.holdings tx.old q) ≡ true → (get tx.new.overlay q ≡ get tx.old.overlay q) ⊎ OnBorder (content_of S.holdings tx.old) r.depth root.now.0 q }
    ensures keeps { KeepsBlocks S.holdings tx.old tx.new }
{
    let (node, level) = match load_root(alloc, tx, root) {
        Ok(found) => found,
        Err(fail) => return Err(fail),
    };
    let (grown, used) = match grown_node(alloc, tx, &node, level, tail) {
        Ok(grown) => grown,
        Err(fail) => return Err(fail),
    };
    let (grown, more) = match raised(alloc, tx, grown, level, n, &tail[used..]) {
        Ok(grown) => grown,
        Err(_) => return Err(Fail::Memory),
    };
    if used + more < tail.len() {
        return Err(Fail::Violation(Why::Structure));
    }
    match put_node(alloc, tx, root, &grown) {
        Ok(()) => Ok(()),
        Err(_) => Err(Fail::Memory),
    }
}

/// So many zeros, and the bytes.
pub(crate) fn after_zeros(alloc: Global, count: usize, bytes: &[u8]) -> Result<Vec<u8>, Memory>
    ensures { IfOk result (λ all. all.items ≡ zeros count ++ bytes.now) }
{
    let mut all = Vec::new(alloc);
    all.resize(count, 0)?;
    all.extend_from_slice(bytes)?;
    Ok(all)
}

/// Writes bytes over the end of a tree.
pub(crate) fn write_over<S: Blocks>(
    alloc: Global,
    tx: &mut Tx<S>,
    root: &BlockId,
    level: Level,
    len: u64,
    from: u64,
    bytes: &[u8],
) -> Result<(), Fail>
    requires intact { intact_in S.meanings S.holdings tx.old }
    requires level { level.room ≡ span (S.holdings.payload tx.old.store) level.depth }
    requires some { 0 < length bytes.now }
    requires over { len < from + length bytes.now }
    requires small { from + length bytes.now ≤ 2 ^ 40 }
    ensures outcome { Outcome (tx_meanings S.meanings S.holdings) (IsOpened (tx_holdings S.holdings) tx.old root.now.0 level.depth len) tx.old tx.new result
        (λ n _. IsNewRoot (tx_holdings S.holdings) tx.old tx.new root.now.0 n.tree.ids (written n.tree.bytes from bytes.now)) }
    ensures grown { (n : IsOpened (tx_holdings S.holdings) tx.old root.now.0 level.depth len) → S.meanings.sound tx.old.store → S.meanings.forgeries tx.new.store ≤ S.meanings.forgeries tx.old.store
        → Grew (S.holdings.payload tx.old.store) (content_of S.holdings tx.old) (content_of S.holdings tx.new) n.tree.depth root.now.0 from len tx.old.overlay tx.new.overlay }
    ensures below { Stays S.holdings tx.old.store tx.new.store }
{
    let (piece, rest) = bytes.split_at(len.saturating_sub(from) as usize);
    match write_below(alloc, tx, root, level, from, piece) {
        Ok(()) => {}
        Err(fail) => return Err(fail),
    }
    let tail = match after_zeros(alloc, from.saturating_sub(len) as usize, rest) {
        Ok(tail) => tail,
        Err(_) => return Err(Fail::Memory),
    };
    append(alloc, tx, root, from + bytes.len() as u64, &tail)
}
