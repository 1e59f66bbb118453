// The table of places, and what is to be visited.
ghost use Rattle.std.specs.Prelude.{◌≡◌, ◌++◌, OnOk, get_or};
ghost use Rattle.std.specs.List.{slice_get};
ghost use Rattle.std.specs.Option.{option_map};
ghost use Rattle.check_rules.specs.dir_entries.Layout.{listing_of};
ghost use Rattle.cryfs_check.specs.Places.{places_text, placed, sites_of, AreBehind, site_needs, visit_needs};
ghost use Rattle.cryfs_check.specs.Seats.{root_site};

use block_id::{BlockId, Memory};
use check_rules::dir_entries::Entry;
use fs_model::Kind;

/// A path below the root: the number of its directory (0 is the root, n the n-th place), and its entry there.
#[derive(Drop)]
pub struct Place {
    pub parent: u32,
    pub entry: Entry,
}

/// What is to be visited: a blob, the kind that its entry names, and the blob of its directory.
#[derive(Clone, Copy)]
pub struct Visit {
    pub id: BlockId,
    pub kind: Kind,
    pub parent: BlockId,
}

/// Puts the entries of the directory of this number behind the places.
pub fn place_entries(
    places: &mut Vec<Place>,
    number: u32,
    entries: Vec<Entry>,
) -> Result<(), Memory>
    ensures { OnOk result (places_text places.new.items ≡ places_text places.old.items ++ placed number (listing_of entries.items)) }
{
    for entry in entries {
        places.push(Place {
            parent: number,
            entry,
        })?;
    }
    Ok(())
}

/// The blob of the path of this number.
fn blob_at(places: &[Place], root: &BlockId, number: u32) -> BlockId
    ensures { result.0 ≡ (get_or (sites_of root.now.0 (places_text places.now)) number (root_site root.now.0)).id }
{
    if number == 0 {
        return *root;
    }
    match places.get(number as usize - 1) {
        Some(place) => place.entry.blob,
        None => *root,
    }
}

/// What is to be visited at this number, or None where the table ends.
pub fn visit_at(places: &[Place], root: &BlockId, number: u32) -> Option<Visit>
    requires { AreBehind (places_text places.now) }
    ensures { option_map visit_needs result ≡ option_map site_needs (slice_get (sites_of root.now.0 (places_text places.now)) number) }
{
    if number == 0 {
        return Some(Visit {
            id: *root,
            kind: Kind::Directory,
            parent: BlockId([0; 16]),
        });
    }
    match places.get(number as usize - 1) {
        Some(place) => Some(Visit {
            id: place.entry.blob,
            kind: place.entry.attr.kind,
            parent: blob_at(places, root, place.parent),
        }),
        None => None,
    }
}
