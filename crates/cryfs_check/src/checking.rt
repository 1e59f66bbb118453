// The check of a whole file system.
ghost use Rattle.std.specs.Prelude.{◌≡◌, ◌<◌, ◌+◌, ℕ, [], T, map, OnOk, IfOk, IfErr, Some, is_some, length};
ghost use Rattle.std.specs.FinMap.{is_sorted};
ghost use Rattle.check_rules.specs.store_outcome.Meanings.{IsOfBlocks};
ghost use Rattle.check_rules.specs.store_outcome.Outcome.{Outcome};
ghost use Rattle.check_rules.specs.store_api.Content.{Id, id_cmp};
ghost use Rattle.check_rules.specs.store_api.Holdings.{Stays, has_id};
ghost use Rattle.check_rules.specs.data_nodes.Layout.{ids_of};
ghost use Rattle.check_rules.specs.check_walk.Given.{fail_of, IsLoad};
ghost use Rattle.check_rules.specs.check_walk.Marks.{unmarked, owner_of};
ghost use Rattle.cryfs_check.specs.Checks.{answer_to, ListsLive, ShowsSome, IsYes, OnYes, OnNo, AsksOnce, IsCertified, IsRefuted};
ghost use Rattle.cryfs_check.specs.Halts.{IsHalted, IsStopped};
ghost use Rattle.cryfs_check.specs.Places.{places_text};
ghost use Rattle.cryfs_check.specs.Visits.{IsVisited, VisitedAll};

use crate::owners::Owners;
use crate::place::{Place, Visit, place_entries, visit_at};
use crate::visiting::visit;
use block_id::{BlockId, Fail, Memory};
use check_rules::check_walk::{Flaw, Halt, Marks};
use check_rules::store_api::Blocks;
use std::alloc::Global;

/// What a check found.
#[derive(Drop)]
pub enum Checked {
    /// Each live block has its owner.
    Yes(Owners),
    /// The blocks are no file system.
    No(Flaw),
}

/// What a check answers where a visit stopped.
fn answer(halt: Halt) -> Result<Checked, Fail>
    ensures { result ≡ answer_to halt }
{
    match halt {
        Halt::Found(flaw) => Ok(Checked::No(flaw)),
        Halt::Failing(fail) => Err(fail),
    }
}

/// The same id, of 16 bytes.
fn copied(id: &BlockId) -> BlockId
    ensures same { result ≡ id.now }
    ensures wide { length result.0 ≡ 16 }
{
    BlockId(id.0)
}

/// Visits the place of this number, and puts its entries behind the others.
fn visit_place<B: Blocks>(
    alloc: Global,
    store: &mut B,
    marks: &mut Marks,
    places: &mut Vec<Place>,
    number: u32,
    what: &Visit,
) -> Result<(), Halt>
    requires intact { B.meanings.intact store.old }
    requires small { number < 4294967295 }
    ensures outcome { Outcome B.meanings Unit store.old store.new (fail_of result) (λ _ _. Unit {0}) }
    ensures stays { Stays B.holdings store.old store.new }
    ensures of_blocks { IfErr (fail_of result) IsOfBlocks }
    ensures halted { IfErr result (IsHalted B.meanings B.holdings B.loads (number + 1) what.now store.old store.new marks.old marks.new) }
    ensures visited { OnOk result (IsVisited (IsLoad B.meanings B.holdings B.loads) (B.holdings.payload store.old) number what.now.id.0 what.now.kind what.now.parent.0 store.old store.new marks.old marks.new
        (places_text places.old.items) (places_text places.new.items)) }
{
    let entries = match visit(alloc, store, marks, number + 1, what) {
        Ok(entries) => entries,
        Err(halt) => return Err(halt),
    };
    match place_entries(places, number, entries) {
        Ok(()) => Ok(()),
        Err(Memory) => Err(Halt::Failing(Fail::Memory)),
    }
}

/// Visits the root and each place in turn, also those that are put behind the others meanwhile.
fn visit_all<B: Blocks>(
    alloc: Global,
    store: &mut B,
    marks: &mut Marks,
    places: &mut Vec<Place>,
    root: &BlockId,
) -> Result<(), Halt>
    requires intact { B.meanings.intact store.old }
    requires none { places.old.items ≡ [] }
    requires unowned { (q : Id) (n : ℕ) → owner_of marks.old q ≡ Some n → n ≡ 0 }
    ensures outcome { Outcome B.meanings Unit store.old store.new (fail_of result) (λ _ _. Unit {0}) }
    ensures stays { Stays B.holdings store.old store.new }
    ensures of_blocks { IfErr (fail_of result) IsOfBlocks }
    ensures stopped { IfErr result (IsStopped (IsLoad B.meanings B.holdings B.loads) (B.holdings.payload store.old) root.now.0 (B.holdings.content store.old) store.old store.new marks.old) }
    ensures visited { OnOk result (VisitedAll (IsLoad B.meanings B.holdings B.loads) (B.holdings.payload store.old) root.now.0 store.old store.new marks.old marks.new (places_text places.new.items)) }
{
    for number in 0..4294967295 {
        let what = match visit_at(places, root, number) {
            Some(what) => what,
            None => return Ok(()),
        };
        match visit_place(alloc, store, marks, places, number, &what) {
            Ok(()) => {}
            Err(halt) => return Err(halt),
        }
    }
    Err(Halt::Failing(Fail::Memory))
}

/// Checks the file system whose live blocks these are, by increasing ids, from its root on. Each block is loaded at
/// most once.
pub fn check<B: Blocks>(
    alloc: Global,
    store: &mut B,
    live: &[BlockId],
    root: &BlockId,
) -> Result<Checked, Fail>
    requires intact { B.meanings.intact store.old }
    requires lists { ListsLive (B.holdings.content store.old) live.now }
    ensures outcome { Outcome B.meanings (ShowsSome (B.holdings.payload store.old) root.now.0 (B.holdings.content store.old)) store.old store.new result (λ n checked. IsYes checked) }
    ensures stays { Stays B.holdings store.old store.new }
    ensures of_blocks { IfErr result IsOfBlocks }
    ensures asked { AsksOnce B.loads (ids_of live.now) store.old store.new }
    ensures yes { IfOk result (λ checked. OnYes checked (IsCertified B.loads (B.holdings.payload store.old) root.now.0 (ids_of live.now) store.old store.new)) }
    ensures no { IfOk result (λ checked. OnNo checked (IsRefuted B.loads (B.holdings.payload store.old) root.now.0 (ids_of live.now) store.old store.new)) }
{
    let mut marks = match Marks::new(alloc, live) {
        Ok(marks) => marks,
        Err(Memory) => return Err(Fail::Memory),
    };
    let mut places = Vec::new(alloc);
    let top = copied(root);
    match visit_all(alloc, store, &mut marks, &mut places, &top) {
        Ok(()) => match marks.unowned() {
            Some(id) => Ok(Checked::No(Flaw::Unowned(id))),
            None => Ok(Checked::Yes(Owners::new(marks, places))),
        },
        Err(halt) => answer(halt),
    }
}
