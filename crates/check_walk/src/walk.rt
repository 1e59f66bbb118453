// A walk over the blocks of one tree.
ghost use Rattle.std.specs.Prelude.{◌≡◌, ◌<◌, [], length, IfOk, IfErr};
ghost use Rattle.data_tree.specs.store_outcome.Meanings.{IsOfBlocks};
ghost use Rattle.data_tree.specs.store_outcome.Outcome.{Outcome};
ghost use Rattle.data_tree.specs.store_api.Holdings.{Stays};
ghost use Rattle.data_tree.specs.data_nodes.Layout.{node_of, ids_of, FitsPayload};
ghost use Rattle.data_tree.specs.Trees.{IsTree, Holds, Forest, span};
ghost use Rattle.data_tree.specs.Stored.{BlobTree};
ghost use Rattle.check_walk.specs.Fronts.{FrontState};
ghost use Rattle.check_walk.specs.Given.{fail_of, IsLoad};
ghost use Rattle.check_walk.specs.Needs.{NodeNeed, WalksNode, WalksTree, WalksTrees, top, under, Leads, LeadsAmong};
ghost use Rattle.check_walk.specs.Halts.{Halted, HaltedAt, FlawIn};
ghost use Rattle.check_walk.specs.Walks.{Walked, IsNodeAt, FillsTree, FillsTrees};

use crate::flaw::{Flaw, Halt};
use crate::front::Front;
use crate::marks::{Marks, Reaching};
use block_id::{BlockId, Fail, Memory};
use data_tree::data_nodes::{Node, read_node};
use data_tree::store_api::Blocks;
use data_tree::{Level, depth_of, level_of};
use std::alloc::Global;

/// What a node below a blob's root has to be.
#[derive(Clone, Copy)]
struct Need {
    /// The number of the place that the blob has.
    owner: u32,
    level: Level,
    /// Whether no byte may be missing below it.
    full: bool,
}

/// The node of a live block that is reached for the first time.
fn load_node<B: Blocks>(
    alloc: Global,
    store: &mut B,
    marks: &mut Marks,
    owner: u32,
    id: &BlockId,
) -> Result<Node, Halt>
    requires intact { B.meanings.intact store.old }
    requires owner { 0 < owner }
    ensures outcome { Outcome B.meanings Unit store.old store.new (fail_of result) (λ _ _. Unit {0}) }
    ensures stays { Stays B.holdings store.old store.new }
    ensures of_blocks { IfErr (fail_of result) IsOfBlocks }
    ensures fits { IfOk result (λ node. FitsPayload (B.holdings.payload store.old) (node_of node)) }
    ensures walked { IfOk result (λ node. (f : FrontState) → Walked (IsLoad B.meanings B.holdings B.loads) owner store.old store.new marks.old marks.new f f
        (IsNodeAt (B.holdings.payload store.old) id.now.0 (node_of node)) (λ w. w ≡ [])) }
    ensures halted { (need : NodeNeed) → IfErr result (HaltedAt B.holdings (IsLoad B.meanings B.holdings B.loads) owner store.old store.new marks.old marks.new (λ C. Leads C id.now.0 need)) }
{
    match marks.reach(id, owner) {
        Reaching::First => {}
        Reaching::Twice => return Err(Halt::Found(Flaw::Twice(*id))),
        Reaching::NotLive => return Err(Halt::Found(Flaw::NotLive(*id))),
    }
    let payload = match store.load(alloc, id) {
        Ok(Some(payload)) => payload,
        Ok(None) => return Err(Halt::Found(Flaw::NotLive(*id))),
        Err(fail) => return Err(Halt::Failing(fail)),
    };
    match read_node(alloc, &payload) {
        Ok(Some(node)) => Ok(node),
        Ok(None) => Err(Halt::Found(Flaw::BadNode(*id))),
        Err(Memory) => Err(Halt::Failing(Fail::Memory)),
    }
}

/// Walks a tree of this level, which has to be full where that is said.
#[cycle(walk)]
fn walk_below<B: Blocks>(
    alloc: Global,
    store: &mut B,
    marks: &mut Marks,
    front: &mut Front,
    id: &BlockId,
    need: Need,
) -> Result<u64, Halt>
    requires intact { B.meanings.intact store.old }
    requires tree { WalksTree (B.holdings.payload store.old) need.owner need.level }
    ensures outcome { Outcome B.meanings Unit store.old store.new (fail_of result) (λ _ _. Unit {0}) }
    ensures stays { Stays B.holdings store.old store.new }
    ensures of_blocks { IfErr (fail_of result) IsOfBlocks }
    ensures walked { IfOk result (λ len. Walked (IsLoad B.meanings B.holdings B.loads) need.owner store.old store.new marks.old marks.new front.old front.new
        (λ C w ids. IsTree (B.holdings.payload store.old) C need.level.depth id.now.0 w ids) (FillsTree len need.level.room need.full)) }
    ensures halted { IfErr result (HaltedAt B.holdings (IsLoad B.meanings B.holdings B.loads) need.owner store.old store.new marks.old marks.new (λ C. Leads C id.now.0 (under need.level.depth need.full))) }
{
    let node = match load_node(alloc, store, marks, need.owner, id) {
        Ok(node) => node,
        Err(halt) => return Err(halt),
    };
    if depth_of(&node) != need.level.depth {
        return Err(Halt::Found(Flaw::BadNode(*id)));
    }
    walk_in(alloc, store, marks, front, id, &node, need)
}

/// Walks what stands below a node that isn't a root.
#[cycle(walk)]
fn walk_in<B: Blocks>(
    alloc: Global,
    store: &mut B,
    marks: &mut Marks,
    front: &mut Front,
    id: &BlockId,
    node: &Node,
    need: Need,
) -> Result<u64, Halt>
    requires intact { B.meanings.intact store.old }
    requires node { WalksNode (B.holdings.payload store.old) need.owner need.level (node_of node.now) }
    ensures outcome { Outcome B.meanings Unit store.old store.new (fail_of result) (λ _ _. Unit {0}) }
    ensures stays { Stays B.holdings store.old store.new }
    ensures of_blocks { IfErr (fail_of result) IsOfBlocks }
    ensures walked { IfOk result (λ len. Walked (IsLoad B.meanings B.holdings B.loads) need.owner store.old store.new marks.old marks.new front.old front.new
        (λ C w ids. Holds (B.holdings.payload store.old) C need.level.depth (node_of node.now) w ids) (FillsTree len need.level.room need.full)) }
    ensures halted { IfErr result (λ halt. Halted (IsLoad B.meanings B.holdings B.loads) need.owner store.old store.new marks.old marks.new halt
        (λ C flaw. FlawIn (B.holdings.payload store.old) C marks.old (B.holdings.content store.old) id.now.0 (node_of node.now) (under need.level.depth need.full) flaw)) }
{
    let level = need.level;
    let full = need.full;
    match node {
        Node::Leaf(bytes) => {
            let len = bytes.len() as u64;
            if len == 0 || full && len < level.room {
                return Err(Halt::Found(Flaw::BadNode(*id)));
            }
            match front.push(bytes) {
                Ok(()) => Ok(len),
                Err(Memory) => Err(Halt::Failing(Fail::Memory)),
            }
        }
        Node::Inner { depth: _, children } => {
            if full && children.len() < (store.payload() - 8) / 16 {
                return Err(Halt::Found(Flaw::BadNode(*id)));
            }
            let below = level.below(store.payload());
            let need = Need {
                level: below,
                ..need
            };
            walk_children(alloc, store, marks, front, children, need)
        }
    }
}

/// Walks the trees that stand side by side, of which all but the last have to be full.
#[cycle(walk)]
fn walk_children<B: Blocks>(
    alloc: Global,
    store: &mut B,
    marks: &mut Marks,
    front: &mut Front,
    children: &[BlockId],
    need: Need,
) -> Result<u64, Halt>
    requires intact { B.meanings.intact store.old }
    requires trees { WalksTrees (B.holdings.payload store.old) need.owner need.level (length children.now) }
    ensures outcome { Outcome B.meanings Unit store.old store.new (fail_of result) (λ _ _. Unit {0}) }
    ensures stays { Stays B.holdings store.old store.new }
    ensures of_blocks { IfErr (fail_of result) IsOfBlocks }
    ensures walked { IfOk result (λ len. Walked (IsLoad B.meanings B.holdings B.loads) need.owner store.old store.new marks.old marks.new front.old front.new
        (λ C w ids. Forest (IsTree (B.holdings.payload store.old) C need.level.depth) (span (B.holdings.payload store.old) need.level.depth) (ids_of children.now) w ids)
        (FillsTrees len (length children.now) need.level.room need.full)) }
    ensures halted { IfErr result (HaltedAt B.holdings (IsLoad B.meanings B.holdings B.loads) need.owner store.old store.new marks.old marks.new (λ C. LeadsAmong C need.level.depth need.full (ids_of children.now))) }
{
    let last = children.len() - 1;
    let whole = Need { full: true, ..need };
    let mut len = 0;
    for child in &children[..last] {
        match walk_below(alloc, store, marks, front, child, whole) {
            Ok(own) => len += own,
            Err(halt) => return Err(halt),
        }
    }
    match walk_below(alloc, store, marks, front, &children[last], need) {
        Ok(own) => Ok(len + own),
        Err(halt) => Err(halt),
    }
}

/// Walks the tree of a blob. The length of the blob.
pub fn walk_root<B: Blocks>(
    alloc: Global,
    store: &mut B,
    marks: &mut Marks,
    front: &mut Front,
    owner: u32,
    root: &BlockId,
) -> Result<u64, Halt>
    requires intact { B.meanings.intact store.old }
    requires owner { 0 < owner }
    ensures outcome { Outcome B.meanings Unit store.old store.new (fail_of result) (λ _ _. Unit {0}) }
    ensures stays { Stays B.holdings store.old store.new }
    ensures of_blocks { IfErr (fail_of result) IsOfBlocks }
    ensures walked { IfOk result (λ len. Walked (IsLoad B.meanings B.holdings B.loads) owner store.old store.new marks.old marks.new front.old front.new
        (λ C w ids. BlobTree (B.holdings.payload store.old) C root.now.0 w ids) (λ w. len ≡ length w)) }
    ensures halted { IfErr result (HaltedAt B.holdings (IsLoad B.meanings B.holdings B.loads) owner store.old store.new marks.old marks.new (λ C. Leads C root.now.0 top)) }
{
    let node = match load_node(alloc, store, marks, owner, root) {
        Ok(node) => node,
        Err(halt) => return Err(halt),
    };
    let level = match level_of(store.payload(), depth_of(&node)) {
        Some(level) => level,
        None => return Err(Halt::Found(Flaw::BadNode(*root))),
    };
    match &node {
        Node::Leaf(bytes) => match front.push(bytes) {
            Ok(()) => Ok(bytes.len() as u64),
            Err(Memory) => Err(Halt::Failing(Fail::Memory)),
        },
        Node::Inner { depth: _, children } => {
            if children.len() < 2 {
                return Err(Halt::Found(Flaw::BadNode(*root)));
            }
            let below = level.below(store.payload());
            let need = Need {
                owner,
                level: below,
                full: false,
            };
            walk_children(alloc, store, marks, front, children, need)
        }
    }
}
