// Which blocks that aren't given a blob has.
ghost use Rattle.std.specs.Prelude.{◌≡◌, map, IfOk};
ghost use Rattle.check_refused.specs.Surveys.{Surveys, ungiven_of};

use crate::survey::{Ungiven, is_among};
use block_id::{BlockId, Fail, Memory};
use check_walk::data_nodes::{Node, read_node};
use check_walk::store_api::Blocks;
use check_walk::{Marks, Reaching};
use fs_model::Path;
use std::alloc::Global;

/// Gives those of the blocks that aren't given which the blob with this root has its path, where they have none. Of the blob its
/// inner nodes are loaded alone, and those that have a mark aren't. What is below a node that isn't given isn't known.
pub fn explore_blob<B: Blocks>(
    alloc: Global,
    store: &mut B,
    marks: &mut Marks,
    ungiven: &mut Vec<Ungiven>,
    root: &BlockId,
    path: &Path,
) -> Result<(), Memory>
    requires intact { B.meanings.intact store.old }
    ensures surveys { Surveys B.meanings B.holdings store.old store.new }
    ensures same { map ungiven_of ungiven.new.items ≡ map ungiven_of ungiven.old.items }
{
    name_block(alloc, ungiven, root, path)?;
    let mut open = Vec::new(alloc);
    open.push(BlockId(root.0))?;
    for _turn in 0..4294967295u32 {
        let Some(id) = open.pop() else {
            return Ok(());
        };
        explore_node(alloc, store, marks, ungiven, &mut open, &id, path)?;
    }
    Err(Memory)
}

/// Gives the blocks below a node that aren't given the path, and puts its inner nodes behind the open ones.
fn explore_node<B: Blocks>(
    alloc: Global,
    store: &mut B,
    marks: &mut Marks,
    ungiven: &mut Vec<Ungiven>,
    open: &mut Vec<BlockId>,
    id: &BlockId,
    path: &Path,
) -> Result<(), Memory>
    requires intact { B.meanings.intact store.old }
    ensures surveys { Surveys B.meanings B.holdings store.old store.new }
    ensures same { map ungiven_of ungiven.new.items ≡ map ungiven_of ungiven.old.items }
{
    if is_among(ungiven, id) {
        return Ok(());
    }
    match load_once(alloc, store, marks, id)? {
        Some(Node::Inner { depth, children }) => {
            name_below(alloc, ungiven, open, depth, &children, path)
        }
        Some(Node::Leaf(_)) | None => Ok(()),
    }
}

/// The node of a block that is reached for the first time, where its payload comes and holds one.
fn load_once<B: Blocks>(
    alloc: Global,
    store: &mut B,
    marks: &mut Marks,
    id: &BlockId,
) -> Result<Option<Node>, Memory>
    requires intact { B.meanings.intact store.old }
    ensures surveys { Surveys B.meanings B.holdings store.old store.new }
{
    match marks.reach(id, 1) {
        Reaching::First => {}
        Reaching::Twice | Reaching::NotLive => return Ok(None),
    }
    let payload = match store.load(alloc, id) {
        Ok(Some(payload)) => payload,
        Ok(None) | Err(Fail::Violation(_) | Fail::Fault) => return Ok(None),
        Err(Fail::Memory) => return Err(Memory),
    };
    read_node(alloc, &payload)
}

/// Gives the children of a node of this depth that aren't given the path, and puts those that are inner nodes behind the open ones.
fn name_below(
    alloc: Global,
    ungiven: &mut Vec<Ungiven>,
    open: &mut Vec<BlockId>,
    depth: u8,
    children: &[BlockId],
    path: &Path,
) -> Result<(), Memory>
    ensures same { map ungiven_of ungiven.new.items ≡ map ungiven_of ungiven.old.items }
{
    for child in children {
        name_block(alloc, ungiven, child, path)?;
        if depth > 1 {
            open.push(*child)?;
        }
    }
    Ok(())
}

/// Gives the block the path, where it isn't given and has none.
fn name_block(
    alloc: Global,
    ungiven: &mut Vec<Ungiven>,
    id: &BlockId,
    path: &Path,
) -> Result<(), Memory>
    ensures same { map ungiven_of ungiven.new.items ≡ map ungiven_of ungiven.old.items }
{
    match ungiven.binary_search_by(|block| block.id.cmp(id)) {
        Ok(i) => {
            if ungiven[i].path.is_none() {
                let names = copy_of(alloc, path)?;
                ungiven[i].path = Some(names);
            }
            Ok(())
        }
        Err(_) => Ok(()),
    }
}

/// The same path.
fn copy_of(alloc: Global, path: &Path) -> Result<Path, Memory>
    ensures { IfOk result (λ copy. copy ≡ path.now) }
{
    let mut copy = Path::root(alloc);
    for name in path.names() {
        copy.push(name.try_clone()?)?;
    }
    Ok(copy)
}
