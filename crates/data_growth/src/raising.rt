// A tree whose depth rises: its node moves under a new id, and new trees stand beside it.
ghost use Rattle.std.specs.Prelude.{◌≡◌, ◌≤◌, ◌<◌, ◌+◌, ◌*◌, ◌++◌, ◌^◌, length, IfOk};
ghost use Rattle.block_id.specs.declared.sizes.TheConstants.{MIN_PAYLOAD, MAX_BLOCK};
ghost use Rattle.data_tree.specs.store_api.Txs.{intact_in, tx_holdings};
ghost use Rattle.data_tree.specs.data_nodes.Layout.{fan_out, node_of, FitsPayload};
ghost use Rattle.data_tree.specs.Leaving.{AddsBlocks};
ghost use Rattle.data_tree.specs.Trees.{span};
ghost use Rattle.data_growth.specs.Growing.{MayGrow, Raised, TakesBytes};

use crate::growing::grown_children;
use block_id::{BlockId, Memory};
use data_tree::data_nodes::Node;
use data_tree::store_api::{Blocks, Tx};
use data_tree::{Level, put_new};
use std::alloc::Global;

/// The level above, where blocks have payloads of this length.
fn above(level: Level, payload: usize) -> Level
    requires least { MIN_PAYLOAD ≤ payload }
    requires most { payload ≤ MAX_BLOCK }
    requires small { level.room < 2 ^ 40 }
    requires room { level.room ≡ span payload level.depth }
    ensures depth { result.depth ≡ level.depth + 1 }
    ensures room { result.room ≡ span payload result.depth }
    ensures all { result.room ≡ fan_out payload * level.room }
    ensures more { level.room < result.room }
{
    Level {
        depth: level.depth + 1,
        room: level.room * ((payload as u64 - 8) / 16),
    }
}

/// A node that has room for n bytes in place of a full one, and how many of the bytes it took. What stands below it is put.
pub fn raised<S: Blocks>(
    alloc: Global,
    tx: &mut Tx<S>,
    node: Node,
    level: Level,
    n: u64,
    rest: &[u8],
) -> Result<(Node, usize), Memory>
    requires intact { intact_in S.meanings S.holdings tx.old }
    requires level { level.room ≡ span (S.holdings.payload tx.old.store) level.depth }
    requires fits { FitsPayload (S.holdings.payload tx.old.store) (node_of node) }
    requires small { n ≤ 2 ^ 40 }
    ensures intact { intact_in S.meanings S.holdings tx.new }
    ensures adds { AddsBlocks S.holdings tx.old tx.new }
    ensures raised { IfOk result (λ up. (m : MayGrow (tx_holdings S.holdings) tx.old level.depth (node_of node) n (length rest.now))
        → Raised (tx_holdings S.holdings) tx.old tx.new (node_of up.0) (m.bytes ++ rest.now) m.ids × (up.1 ≡ length rest.now)) }
    ensures took { IfOk result (λ up. TakesBytes (S.holdings.payload tx.old.store) (node_of up.0) up.1 (length rest.now)) }
{
    if level.room >= n {
        return Ok((node, 0));
    }
    let first = put_new(alloc, tx, &node)?;
    let places = (tx.payload() as u64 - 8) / 16 - 1;
    let (children, used) = grown_children(alloc, tx, &[first], level, places, rest)?;
    let level = above(level, tx.payload());
    let node = Node::Inner {
        depth: level.depth,
        children,
    };
    let (node, more) = raised(alloc, tx, node, level, n, &rest[used..])?;
    Ok((node, used + more))
}
