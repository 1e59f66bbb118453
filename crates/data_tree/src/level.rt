// Depths of a tree with their room.
ghost use Rattle.std.specs.Prelude.{◌≡◌, ◌+◌, ◌*◌, ◌≤◌, ◌<◌, ◌^◌, ℕ, IfSome, IfNone};
ghost use Rattle.block_id.specs.declared.sizes.TheConstants.{MIN_PAYLOAD, MAX_BLOCK};
ghost use Rattle.data_nodes.specs.Layout.{fan_out, node_of};
ghost use Rattle.data_tree.specs.Trees.{span, depth_in, IsDepth};

use data_nodes::Node;

/// A depth, and for how many bytes a tree of it has room.
#[derive(Clone, Copy)]
pub struct Level {
    pub depth: u8,
    pub room: u64,
}

impl Level {
    /// The level below, where blocks have payloads of this length.
    pub fn below(self, payload: usize) -> Level
        requires deep { 0 < self.depth }
        requires payload { MIN_PAYLOAD ≤ payload }
        requires room { self.room ≡ span payload self.depth }
        ensures depth { result.depth + 1 ≡ self.depth }
        ensures room { result.room ≡ span payload result.depth }
        ensures all { fan_out payload * result.room ≡ self.room }
    {
        Level {
            depth: self.depth - 1,
            room: self.room / ((payload as u64 - 8) / 16),
        }
    }
}

/// The depth of a node: 0 for a leaf.
pub fn depth_of(node: &Node) -> u8
    ensures { result ≡ depth_in (node_of node.now) }
{
    match node {
        Node::Leaf(_) => 0,
        Node::Inner { depth, .. } => *depth,
    }
}

/// A tree has at most so many bytes.
pub const MOST_BYTES: u64 = 1 << 40;

/// The level of this depth, or None where the depth is above that of a tree of the most bytes.
pub fn level_of(payload: usize, depth: u8) -> Option<Level>
    requires least { MIN_PAYLOAD ≤ payload }
    requires most { payload ≤ MAX_BLOCK }
    ensures depth { IfSome result (λ level. level.depth ≡ depth) }
    ensures room { IfSome result (λ level. level.room ≡ span payload depth) }
    ensures fits { IfSome result (λ level. level.room < 2 ^ 63) }
    ensures some { IfSome result (λ level. (n : ℕ) × ((n ≤ 2 ^ 40) × IsDepth payload level.depth n)) }
    ensures none { IfNone result ((n : ℕ) → n ≤ 2 ^ 40 → IsDepth payload depth n → ⊥) }
{
    let mut room = payload as u64 - 8;
    for i in 0..depth {
        if room >= MOST_BYTES {
            return None;
        }
        room *= (payload as u64 - 8) / 16;
    }
    Some(Level { depth, room })
}

/// The level of the tree of so many bytes.
pub fn level_for(payload: usize, len: u64) -> Level
    requires least { MIN_PAYLOAD ≤ payload }
    requires most { payload ≤ MAX_BLOCK }
    requires len { len ≤ 2 ^ 40 }
    ensures deep { IsDepth payload result.depth len }
    ensures room { result.room ≡ span payload result.depth }
{
    let mut level = Level {
        depth: 0,
        room: payload as u64 - 8,
    };
    while level.room < len {
        level = Level {
            depth: level.depth + 1,
            room: level.room * ((payload as u64 - 8) / 16),
        };
    }
    level
}
