// The nodes that the kernel knows: for each its directory, its name there, and its children that have numbers. A directory's number
// stays where it is moved, so whatever stands below moves with it.

use block_id::Memory;
use fs_model::{Name, Path};
use fuse_messages::ErrorNumber;
use std::alloc::Global;
use std::collections::HashMap;
use std::mem;

/// The number of the root.
pub(crate) const ROOT: u64 = 1;

/// The number of the directory of files that were removed while they are open. The kernel isn't told of it.
pub(crate) const REMOVED: u64 = 2;

/// Its name, in the root.
pub(crate) const REMOVED_NAME: &[u8; 14] = b".sergunad-open";

/// The parent of a node that is nowhere any more.
const NOWHERE: u64 = 0;

/// Names of a path.
const MAX_DEPTH: u32 = 4_096;

/// Where a node is, how often the kernel was told of it, and how often it is open.
#[derive(Drop)]
struct Place {
    parent: u64,
    name: Vec<u8>,
    children: HashMap<Vec<u8>, u64>,
    told: u64,
    open: u64,
}

impl Place {
    fn new(alloc: Global, parent: u64, name: &[u8]) -> Result<Place, Memory> {
        Ok(Place {
            parent,
            name: Vec::from_slice(alloc, name)?,
            children: HashMap::new(alloc),
            told: 0,
            open: 0,
        })
    }
}

/// A name twice: for the node, and for its directory.
#[derive(Drop)]
pub(crate) struct NameCopies {
    own: Vec<u8>,
    key: Vec<u8>,
}

/// The nodes by number.
#[derive(Drop)]
pub(crate) struct Nodes {
    places: HashMap<u64, Place>,
    last: u64,
}

impl Nodes {
    /// The root, and the directory of removed files.
    pub fn new(alloc: Global) -> Result<Nodes, Memory> {
        let mut places = HashMap::new(alloc);
        let _none = places.insert(ROOT, Place::new(alloc, NOWHERE, b"")?)?;
        let _none = places.insert(REMOVED, Place::new(alloc, ROOT, REMOVED_NAME)?)?;
        Ok(Nodes {
            places,
            last: REMOVED,
        })
    }

    /// Whether the kernel may ask for this node.
    pub fn has(&self, node: u64) -> bool {
        self.places.contains_key(&node)
    }

    /// The number of this name of this directory, if it has one.
    pub fn number(&self, parent: u64, name: &[u8]) -> Option<u64> {
        self.places.get(&parent)?.children.get(name).copied()
    }

    pub fn is_open(&self, node: u64) -> bool {
        match self.places.get(&node) {
            Some(place) => place.open > 0,
            None => false,
        }
    }

    /// Whether it was removed, and nobody has it open any more.
    pub fn is_left(&self, node: u64) -> bool {
        match self.places.get(&node) {
            Some(place) => place.parent == REMOVED && place.open == 0,
            None => false,
        }
    }

    /// The path of a node. Stale where it is nowhere.
    pub fn path(&self, alloc: Global, node: u64) -> Result<Path, ErrorNumber> {
        let mut names: Vec<&[u8]> = Vec::new(alloc);
        let mut at = node;
        for _ in 0..MAX_DEPTH {
            if at == ROOT {
                return path_upward(alloc, &names);
            }
            let Some(place) = self.places.get(&at) else {
                return Err(ErrorNumber::Stale);
            };
            if names.push(place.name.as_slice()).is_err() {
                return Err(ErrorNumber::NoMemory);
            }
            at = place.parent;
        }
        Err(ErrorNumber::NameTooLong)
    }

    /// Tells the kernel of a name once more: its number.
    pub fn tell(&mut self, alloc: Global, parent: u64, name: &[u8]) -> Result<u64, Memory> {
        let node = match self.number(parent, name) {
            Some(node) => node,
            None => self.add(alloc, parent, name)?,
        };
        if let Some(place) = self.places.get_mut(&node) {
            place.told = place.told.saturating_add(1);
        }
        Ok(node)
    }

    /// A number for a name that has none.
    fn add(&mut self, alloc: Global, parent: u64, name: &[u8]) -> Result<u64, Memory> {
        let node = self.last.saturating_add(1);
        let copies = self.copies(alloc, parent, name)?;
        let place = Place::new(alloc, NOWHERE, b"")?;
        let _none = self.places.insert(node, place)?;
        self.last = node;
        self.put(node, parent, copies);
        Ok(node)
    }

    /// The kernel forgets so many tellings.
    pub fn forget(&mut self, node: u64, count: u64) {
        if let Some(place) = self.places.get_mut(&node) {
            place.told = place.told.saturating_sub(count);
        }
        self.drop_unused(node);
    }

    /// A node is opened. False where there is none of this number.
    pub fn open(&mut self, node: u64) -> bool {
        match self.places.get_mut(&node) {
            Some(place) => {
                place.open = place.open.saturating_add(1);
                true
            }
            None => false,
        }
    }

    /// One opening less.
    pub fn close(&mut self, node: u64) {
        if let Some(place) = self.places.get_mut(&node) {
            place.open = place.open.saturating_sub(1);
        }
    }

    /// Drops a node that the kernel doesn't know, that isn't open and that has no child here; and then its directory, where it was kept for that alone.
    pub fn drop_unused(&mut self, node: u64) {
        let mut at = node;
        for _ in 0..MAX_DEPTH {
            if !self.is_unused(at) {
                return;
            }
            let Some(place) = self.places.remove(&at) else {
                return;
            };
            self.unlink(place.parent, place.name.as_slice());
            at = place.parent;
        }
    }

    fn is_unused(&self, node: u64) -> bool {
        if node <= REMOVED {
            return false;
        }
        match self.places.get(&node) {
            Some(place) => place.told == 0 && place.open == 0 && place.children.is_empty(),
            None => false,
        }
    }

    /// The name is of no node any more, and its node, if it had one, is nowhere.
    pub fn lose(&mut self, parent: u64, name: &[u8]) {
        if let Some(node) = self.unlink(parent, name) {
            if let Some(place) = self.places.get_mut(&node) {
                place.parent = NOWHERE;
            }
            self.drop_unused(node);
            self.drop_unused(parent);
        }
    }

    /// The node is nowhere, and goes where the kernel doesn't know it.
    pub fn lose_node(&mut self, alloc: Global, node: u64) {
        let Some(place) = self.places.get_mut(&node) else {
            return;
        };
        let parent = place.parent;
        let name = mem::replace(&mut place.name, Vec::new(alloc));
        self.lose(parent, name.as_slice());
    }

    /// Takes a name from its directory: the number that it had.
    fn unlink(&mut self, parent: u64, name: &[u8]) -> Option<u64> {
        self.places.get_mut(&parent)?.children.remove(name)
    }

    /// A name for a node of this directory, with room for it there.
    pub fn copies(
        &mut self,
        alloc: Global,
        parent: u64,
        name: &[u8],
    ) -> Result<NameCopies, Memory> {
        if let Some(place) = self.places.get_mut(&parent) {
            place.children.reserve(1)?;
        }
        Ok(NameCopies {
            own: Vec::from_slice(alloc, name)?,
            key: Vec::from_slice(alloc, name)?,
        })
    }

    /// The node of this name gets another one, in another directory perhaps. Whatever had that is nowhere.
    pub fn rename(&mut self, parent: u64, name: &[u8], other: u64, new_name: NameCopies) {
        self.lose(other, new_name.own.as_slice());
        if let Some(node) = self.unlink(parent, name) {
            self.put(node, other, new_name);
            self.drop_unused(parent);
        }
    }

    /// Gives a node this place. It is nowhere where there is no such directory, or no room.
    fn put(&mut self, node: u64, parent: u64, name: NameCopies) {
        let NameCopies { own, key } = name;
        let is_there = match self.places.get_mut(&parent) {
            Some(place) => place.children.insert(key, node).is_ok(),
            None => false,
        };
        if let Some(place) = self.places.get_mut(&node) {
            place.parent = if is_there { parent } else { NOWHERE };
            place.name = own;
        }
    }
}

/// The path of these names, the last one first.
fn path_upward(alloc: Global, names: &[&[u8]]) -> Result<Path, ErrorNumber> {
    let mut path = Path::root(alloc);
    for name in names.iter().rev() {
        let Ok(copy) = Vec::from_slice(alloc, *name) else {
            return Err(ErrorNumber::NoMemory);
        };
        match Name::new(copy) {
            Some(name) => path.push(name)?,
            None => return Err(ErrorNumber::Stale),
        }
    }
    Ok(path)
}
