// What a local record promises, over any keeper.
ghost use Rattle.std.specs.Prelude.{◌≡◌, ◌↔◌, ◌≤◌, length, IsTrue, IfOk, OnOk, option_map};
ghost use Rattle.std.specs.Option.{option_copied};
ghost use Rattle.outside.specs.View.{bytes_of};

use crate::expected::{LENGTHS, expect, generated, is_same};
use outside::{Keeper, WholeKeeper};
use rand_core::Rng;
use rand_pcg::Pcg32;
use std::alloc::Global;
use std::test::Fail;

/// How many generated records are saved, one after another.
const SAVES: usize = 100;

/// Whether a load answers this record.
fn has<K: Keeper>(alloc: Global, keeper: &mut K, want: Option<&Vec<u8>>) -> Result<bool, Fail>
    ensures same { IfOk result (λ same. IsTrue same ↔ (K.kept keeper.old ≡ bytes_of (option_copied want.entry))) }
    ensures kept { K.kept keeper.new ≡ K.kept keeper.old }
    ensures room { K.room keeper.old ≤ K.room keeper.new }
    ensures quiet { OnOk result (K.faults keeper.new ≡ K.faults keeper.old) }
{
    let came = keeper.load(alloc)?;
    Ok(is_same(&came, want))
}

/// Takes the memory for a record, and saves it.
fn save<K: WholeKeeper>(alloc: Global, keeper: &mut K, bytes: &[u8]) -> Result<(), Fail>
    ensures { OnOk result (K.kept keeper.new ≡ Some bytes.now) }
{
    keeper.prepare(alloc, bytes.len())?;
    keeper.save(bytes)?;
    Ok(())
}

/// Where nothing was saved yet, a load answers so, each time, and memory alone makes no record.
pub fn loads_nothing_at_first<K: Keeper>(alloc: Global, keeper: &mut K) -> Result<(), Fail> {
    for len in LENGTHS {
        let before = has(alloc, keeper, None)?;
        expect(alloc, before, "loads nothing at first", len)?;
        keeper.prepare(alloc, len)?;
        let after = has(alloc, keeper, None)?;
        expect(alloc, after, "memory makes no record", len)?;
    }
    Ok(())
}

/// What was saved is loaded, whole, as often as it is asked for.
pub fn loads_what_was_saved<K: WholeKeeper>(alloc: Global, keeper: &mut K) -> Result<(), Fail> {
    for len in LENGTHS {
        let bytes = generated(alloc, 1, len)?;
        save(alloc, keeper, &bytes)?;
        for _ in 0..2 {
            let whole = has(alloc, keeper, Some(&bytes))?;
            expect(alloc, whole, "loads what was saved", len)?;
        }
    }
    Ok(())
}

/// A second save replaces all that was kept, whether it is shorter, longer or as long.
pub fn replaces_by_a_second_save<K: WholeKeeper>(
    alloc: Global,
    keeper: &mut K,
) -> Result<(), Fail> {
    for (before, after) in [(9000, 10), (10, 9000), (10, 10), (10, 0), (0, 10)] {
        save(alloc, keeper, &generated(alloc, 1, before)?)?;
        let bytes = generated(alloc, 2, after)?;
        save(alloc, keeper, &bytes)?;
        let replaced = has(alloc, keeper, Some(&bytes))?;
        expect(alloc, replaced, "replaces by a second save", after)?;
    }
    Ok(())
}

/// While memory is taken, for more or less than the record has, the record stays.
pub fn keeps_its_record_while_it_takes_memory<K: WholeKeeper>(
    alloc: Global,
    keeper: &mut K,
) -> Result<(), Fail> {
    let bytes = generated(alloc, 1, 100)?;
    save(alloc, keeper, &bytes)?;
    for len in [0, 99, 100, 101, 50000] {
        keeper.prepare(alloc, len)?;
        let stays = has(alloc, keeper, Some(&bytes))?;
        expect(alloc, stays, "keeps its record while it takes memory", len)?;
    }
    Ok(())
}

/// Saves a record for which there is room, and loads it.
fn save_within<K: WholeKeeper>(alloc: Global, keeper: &mut K, len: usize) -> Result<(), Fail>
    requires { len ≤ K.room keeper.old }
    ensures saved { OnOk result (option_map length (K.kept keeper.new) ≡ Some len) }
    ensures room { K.room keeper.old ≤ K.room keeper.new }
{
    let bytes = generated(alloc, 3, len)?;
    keeper.save(&bytes)?;
    let saved = has(alloc, keeper, Some(&bytes))?;
    expect(alloc, saved, "keeps room for its longest record", len)
}

/// Room stays: after memory was taken for a long record, records of its length and shorter ones are saved in any order, and
/// no more is taken. A record that is longer than the room can't be saved at all: the proof refuses such a call.
pub fn keeps_room_for_its_longest_record<K: WholeKeeper>(
    alloc: Global,
    keeper: &mut K,
) -> Result<(), Fail> {
    for longest in [100, 30000] {
        keeper.prepare(alloc, longest)?;
        save_within(alloc, keeper, longest)?;
        keeper.prepare(alloc, 0)?;
        save_within(alloc, keeper, 0)?;
        save_within(alloc, keeper, longest - 1)?;
        save_within(alloc, keeper, longest)?;
    }
    Ok(())
}

/// After each of a hundred saves the record is the one that was saved last.
pub fn follows_generated_saves<K: WholeKeeper>(alloc: Global, keeper: &mut K) -> Result<(), Fail> {
    let mut chance = Pcg32::new(1, 2);
    for number in 0..SAVES {
        let len = (chance.next_u32() % 3000) as usize;
        let bytes = generated(alloc, chance.next_u64(), len)?;
        save(alloc, keeper, &bytes)?;
        let last = has(alloc, keeper, Some(&bytes))?;
        expect(alloc, last, "keeps what was saved last", number)?;
    }
    Ok(())
}

/// Each promise in turn, over a keeper of nothing.
pub fn keeps_all_of_a_record<K: WholeKeeper>(alloc: Global, keeper: &mut K) -> Result<(), Fail> {
    loads_nothing_at_first(alloc, keeper)?;
    loads_what_was_saved(alloc, keeper)?;
    replaces_by_a_second_save(alloc, keeper)?;
    keeps_its_record_while_it_takes_memory(alloc, keeper)?;
    keeps_room_for_its_longest_record(alloc, keeper)?;
    follows_generated_saves(alloc, keeper)
}
