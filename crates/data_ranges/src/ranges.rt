// The calls that change a range of a tree.
ghost use Rattle.std.specs.Prelude.{◌≡◌, ◌≤◌, ◌<◌, ◌+◌, ◌^◌, ℕ, true, is_some, length, IfOk, OnOk};
ghost use Rattle.block_id.specs.Contents.{resized, written};
ghost use Rattle.data_reads.specs.store_outcome.Outcome.{Outcome};
ghost use Rattle.data_reads.specs.store_api.Content.{Id};
ghost use Rattle.data_reads.specs.store_api.Holdings.{Stays};
ghost use Rattle.data_reads.specs.store_api.Txs.{LoadsBelow, content_of, intact_in, tx_holdings, tx_meanings};
ghost use Rattle.data_reads.specs.data_nodes.Layout.{node_of};
ghost use Rattle.data_reads.specs.data_tree.Roots.{IsAtLevel, IsRoot, IsNewRoot, IsTooDeep};
ghost use Rattle.data_reads.specs.data_tree.Trees.{IsDepth, span, depth_in};
ghost use Rattle.data_ranges.specs.Border.{Grew, Shrank, WroteInside};
ghost use Rattle.data_ranges.specs.Ranges.{HasAtLeast, IsInside, ReachesPast};

use crate::over::{after_zeros, append, write_over};
use block_id::{BlockId, Fail};
use data_cuts::cut_root;
use data_reads::data_nodes::Node;
use data_reads::data_tree::{Level, level_for, load_root};
use data_reads::len_in;
use data_reads::store_api::{Blocks, Tx};
use data_writes::write_in;
use std::alloc::Global;

/// The root's node with its level, and how many bytes the tree has.
fn open_root<S: Blocks>(
    alloc: Global,
    tx: &mut Tx<S>,
    root: &BlockId,
) -> Result<(Node, Level, u64), Fail>
    requires { intact_in S.meanings S.holdings tx.old }
    ensures outcome { Outcome (tx_meanings S.meanings S.holdings) (IsRoot (tx_holdings S.holdings) tx.old root.now.0) tx.old tx.new result
        (λ n found. (S.holdings.told tx.old.store ≡ true) × ((node_of found.0 ≡ n.tree.node) × (found.2 ≡ length n.bytes))) }
    ensures shallow { S.meanings.sound tx.old.store → S.meanings.forgeries tx.new.store ≤ S.meanings.forgeries tx.old.store
        → OnOk result (IsTooDeep (tx_holdings S.holdings) tx.old root.now.0 → ⊥) }
    ensures stays { Stays (tx_holdings S.holdings) tx.old tx.new }
    ensures leaves { LoadsBelow S.holdings tx.old tx.new }
    ensures there { OnOk result (is_some (content_of S.holdings tx.old root.now.0) ≡ true) }
    ensures level { IfOk result (λ found. IsAtLevel (S.holdings.payload tx.old.store) (node_of found.0) found.1) }
    ensures most { IfOk result (λ found. found.2 ≤ found.1.room) }
{
    let (node, level) = match load_root(alloc, tx, root) {
        Ok(found) => found,
        Err(fail) => return Err(fail),
    };
    match len_in(alloc, tx, &node, level) {
        Ok(len) => Ok((node, level, len)),
        Err(fail) => Err(fail),
    }
}

/// Writes the bytes from a place on, with zeros between the old end and there. No bytes change nothing. Only the right
/// border and the nodes over the range are loaded; as the depth grows the root's node moves under a new id.
pub fn write_range<S: Blocks>(
    alloc: Global,
    tx: &mut Tx<S>,
    root: &BlockId,
    from: u64,
    bytes: &[u8],
) -> Result<(), Fail>
    requires intact { intact_in S.meanings S.holdings tx.old }
    requires small { from + length bytes.now ≤ 2 ^ 40 }
    ensures outcome { Outcome (tx_meanings S.meanings S.holdings) (IsRoot (tx_holdings S.holdings) tx.old root.now.0) tx.old tx.new result
        (λ n _. IsNewRoot (tx_holdings S.holdings) tx.old tx.new root.now.0 n.ids (written n.bytes from bytes.now)) }
    ensures shallow { S.meanings.sound tx.old.store → S.meanings.forgeries tx.new.store ≤ S.meanings.forgeries tx.old.store
        → 0 < length bytes.now → OnOk result (IsTooDeep (tx_holdings S.holdings) tx.old root.now.0 → ⊥) }
    ensures empty { length bytes.now ≡ 0 → tx.new ≡ tx.old }
    // Inside the length only leaves that hold a place of the range change, whatever is answered.
    ensures inside { (n : IsInside (tx_holdings S.holdings) tx.old root.now.0 from (length bytes.now))
        → S.meanings.sound tx.old.store → S.meanings.forgeries tx.new.store ≤ S.meanings.forgeries tx.old.store
        → WroteInside (S.holdings.payload tx.old.store) (content_of S.holdings tx.old) (content_of S.holdings tx.new)
        n.tree.depth root.now.0 from (length bytes.now) tx.old.overlay tx.new.overlay }
    // Past the end no id goes, and of those that were there only the right border and the leaves of the range change, whatever is answered.
    ensures grown { (n : ReachesPast (tx_holdings S.holdings) tx.old root.now.0 from (length bytes.now)) → S.meanings.sound tx.old.store → S.meanings.forgeries tx.new.store ≤ S.meanings.forgeries tx.old.store
        → Grew (S.holdings.payload tx.old.store) (content_of S.holdings tx.old) (content_of S.holdings tx.new) n.tree.depth root.now.0 from (length n.tree.bytes) tx.old.overlay tx.new.overlay }
    ensures below { Stays S.holdings tx.old.store tx.new.store }
{
    if bytes.is_empty() {
        return Ok(());
    }
    let (node, level, len) = match open_root(alloc, tx, root) {
        Ok(found) => found,
        Err(fail) => return Err(fail),
    };
    if from + bytes.len() as u64 <= len {
        return write_in(alloc, tx, root, &node, level, from, bytes);
    }
    write_over(alloc, tx, root, level, len, from, bytes)
}

/// Cuts the tree to this length, or appends zeros up to it. Loaded are the right border and, as it is cut, the inner nodes
/// that go, the new right border and the way down to the node that the root takes.
pub fn resize<S: Blocks>(alloc: Global, tx: &mut Tx<S>, root: &BlockId, n: u64) -> Result<(), Fail>
    requires intact { intact_in S.meanings S.holdings tx.old }
    requires small { n ≤ 2 ^ 40 }
    ensures outcome { Outcome (tx_meanings S.meanings S.holdings) (IsRoot (tx_holdings S.holdings) tx.old root.now.0) tx.old tx.new result
        (λ old _. IsNewRoot (tx_holdings S.holdings) tx.old tx.new root.now.0 old.ids (resized old.bytes n)) }
    ensures shallow { S.meanings.sound tx.old.store → S.meanings.forgeries tx.new.store ≤ S.meanings.forgeries tx.old.store
        → OnOk result (IsTooDeep (tx_holdings S.holdings) tx.old root.now.0 → ⊥) }
    // As it grows no id goes, and of those that were there only the right border changes, whatever is answered.
    ensures grown { (old : ReachesPast (tx_holdings S.holdings) tx.old root.now.0 n 0) → S.meanings.sound tx.old.store → S.meanings.forgeries tx.new.store ≤ S.meanings.forgeries tx.old.store
        → Grew (S.holdings.payload tx.old.store) (content_of S.holdings tx.old) (content_of S.holdings tx.new) old.tree.depth root.now.0 n (length old.tree.bytes) tx.old.overlay tx.new.overlay }
    // As it is cut no id is new, whatever is answered, and of those that stay only the new right border changes.
    ensures fewer { HasAtLeast (tx_holdings S.holdings) tx.old root.now.0 n → S.meanings.sound tx.old.store → S.meanings.forgeries tx.new.store ≤ S.meanings.forgeries tx.old.store
        → (q : Id) → is_some (content_of S.holdings tx.new q) ≡ true → is_some (content_of S.holdings tx.old q) ≡ true }
    ensures shrank { HasAtLeast (tx_holdings S.holdings) tx.old root.now.0 n → S.meanings.sound tx.old.store → S.meanings.forgeries tx.new.store ≤ S.meanings.forgeries tx.old.store
        → OnOk result ((depth : ℕ) × (IsDepth (S.holdings.payload tx.new.store) depth n × Shrank (content_of S.holdings tx.old) (content_of S.holdings tx.new) depth root.now.0 tx.old.overlay tx.new.overlay)) }
    ensures below { Stays S.holdings tx.old.store tx.new.store }
{
    let (node, level, len) = match open_root(alloc, tx, root) {
        Ok(found) => found,
        Err(fail) => return Err(fail),
    };
    if n == len {
        return Ok(());
    }
    if n < len {
        let depth = level_for(tx.payload(), n).depth;
        return cut_root(alloc, tx, root, &node, level, depth, n);
    }
    let tail = match after_zeros(alloc, (n - len) as usize, &[]) {
        Ok(tail) => tail,
        Err(_) => return Err(Fail::Memory),
    };
    append(alloc, tx, root, n, &tail)
}
