// Which path owns each block.
ghost use Rattle.std.specs.Prelude.{◌≡◌, length, get_or, [], reverse, IfOk};
ghost use Rattle.std.specs.List.{slice_get};
ghost use Rattle.std.specs.Option.{option_map};
ghost use Rattle.cryfs_check.specs.Places.{owners_of, places_text, paths_of, AreBehind};

use crate::place::Place;
use block_id::{BlockId, Memory};
use check_rules::check_walk::Marks;
use fs_model::{Name, Path};
use std::alloc::Global;
use std::marker::Model;

/// The live blocks, by increasing ids, each with the path that owns it.
#[derive(Drop)]
pub struct Owners {
    marks: Marks,
    places: Vec<Place>,
}

impl Model for Owners {
    ghost use Rattle.std.specs.Prelude.{List};
    ghost use Rattle.cryfs_check.specs.Places.{owners_of, places_text, AreBehind};
    ghost use Rattle.fs_model.specs.Tree.{Path as TreePath};
    ghost use Rattle.check_rules.specs.store_api.Content.{Id};

    ghost Value = { List (Id × TreePath) };

    ghost view = { λ o. owners_of o.marks (places_text o.places.items) };

    ghost invariant = { λ o. AreBehind (places_text o.places.items) };
}

/// The names on the way from the path of this number up to the root.
fn names_up(alloc: Global, places: &[Place], number: u32) -> Result<Vec<Name>, Memory>
    requires { AreBehind (places_text places.now) }
    ensures { IfOk result (λ names. names.items ≡ get_or (paths_of (places_text places.now)) number []) }
{
    let mut names = Vec::new(alloc);
    let mut at = number;
    while at > 0 {
        match places.get(at as usize - 1) {
            Some(place) => {
                names.push(place.entry.name.try_clone()?)?;
                at = place.parent;
            }
            None => return Ok(names),
        }
    }
    Ok(names)
}

/// The path of this number, with its names from the root on.
pub fn path_at(alloc: Global, places: &[Place], number: u32) -> Result<Path, Memory>
    requires { AreBehind (places_text places.now) }
    ensures { IfOk result (λ path. path ≡ reverse (get_or (paths_of (places_text places.now)) number [])) }
{
    let mut names = names_up(alloc, places, number)?;
    let mut path = Path::root(alloc);
    while let Some(name) = names.pop() {
        path.push(name)?;
    }
    Ok(path)
}

impl Owners {
    /// The owners that these marks name among these places.
    pub(crate) fn new(marks: Marks, places: Vec<Place>) -> Owners
        requires { AreBehind (places_text places.items) }
        ensures { result ≡ owners_of marks (places_text places.items) }
    {
        Owners { marks, places }
    }

    /// How many blocks there are.
    pub fn len(&self) -> usize
        ensures { result ≡ length self.now }
    {
        self.marks.len()
    }

    /// The block of this number, counted from 0.
    pub fn id(&self, i: usize) -> Option<BlockId>
        ensures { option_map (λ id. id.0) result ≡ option_map (λ o. o.0) (slice_get self.now i) }
    {
        match self.marks.get(i) {
            Some(mark) => Some(mark.id),
            None => None,
        }
    }

    /// The path that owns the block of this number, with its names from the root on.
    pub fn path(&self, alloc: Global, i: usize) -> Result<Option<Path>, Memory>
        ensures { IfOk result (λ path. path ≡ option_map (λ o. reverse o.1) (slice_get self.now i)) }
    {
        let mark = match self.marks.get(i) {
            Some(mark) => mark,
            None => return Ok(None),
        };
        let path = path_at(alloc, &self.places, mark.owner.saturating_sub(1))?;
        Ok(Some(path))
    }
}
