// What a record in memory keeps, and how its loads and saves are made to fail.
use crate::calls::on_keeper;
use crate::copies::parts_of;
use crate::stories::{Order, tell};
use memory_outside::MemoryKeeper;
use std::alloc::Global;
use std::test::Fail;

/// A number, and whether `keeps` stands behind it.
fn number(text: &str) -> Option<(u64, bool)> {
    match text.strip_suffix(" keeps") {
        Some(number) => Some((number.parse().ok()?, true)),
        None => Some((text.parse().ok()?, false)),
    }
}

/// Nothing is kept, and the saves of these numbers fail, of which some keep their record.
fn failing(alloc: Global, text: &str) -> Option<MemoryKeeper> {
    let mut fails = Vec::new(alloc);
    for part in &parts_of(alloc, text, '|')? {
        fails.push(number(part)?).ok()?;
    }
    Some(MemoryKeeper::new(alloc, None, fails))
}

/// This record is kept.
fn keeping(alloc: Global, text: &str) -> Option<MemoryKeeper> {
    let kept = text.as_bytes().to_vec(alloc).ok()?;
    Some(MemoryKeeper::new(alloc, Some(kept), Vec::new(alloc)))
}

/// Has the loads of two numbers fail, counted from here on.
fn fail_loads(alloc: Global, keeper: &mut MemoryKeeper, text: &str) -> Option<()> {
    let (first, second) = text.split_once('|')?;
    let numbers = [first.parse().ok()?, second.parse().ok()?];
    keeper.fail_loads(numbers.to_vec(alloc).ok()?);
    Some(())
}

/// Has each save from this one on fail, counted from here on.
fn fail_from(keeper: &mut MemoryKeeper, text: &str) -> Option<()> {
    let (first, keeps) = number(text)?;
    keeper.fail_from(first, keeps);
    Some(())
}

fn keeps(keeper: &MemoryKeeper, want: &str) -> bool {
    match keeper.kept() {
        Some(bytes) => bytes == want.as_bytes(),
        None => false,
    }
}

/// Whether an order on a record in memory comes out, where it is one. Beside calls (`calls`) these are:
///
/// | Order | Does or sees |
/// |---|---|
/// | `saves-fail: 2\|3 keeps` | from here on nothing is kept, and these saves fail, of which the third keeps its record |
/// | `begins-with: text` | from here on this is kept |
/// | `loads-fail: 1\|3` | the loads of these two numbers fail, counted from here on |
/// | `saves-fail-from: 2 keeps` | each save from this one on fails, counted from here on, but keeps its record |
/// | `keeps: text` | this is kept |
pub fn on_record(alloc: Global, keeper: &mut MemoryKeeper, order: &Order<'_>) -> Option<bool> {
    match order.name {
        "saves-fail" => *keeper = failing(alloc, order.text)?,
        "begins-with" => *keeper = keeping(alloc, order.text)?,
        "loads-fail" => fail_loads(alloc, keeper, order.text)?,
        "saves-fail-from" => fail_from(keeper, order.text)?,
        "keeps" => return Some(keeps(keeper, order.text)),
        _ => return on_keeper(alloc, keeper, order),
    }
    Some(true)
}

const STORIES: &str = "# keeps what is saved, and fails as listed
saves-fail: 2|3 keeps
loads: (none)
takes-memory 3
saves: \x01\x02
fails-to-save: \x03
keeps: \x01\x02
fails-to-save: \x04\x05\x06
loads: \x04\x05\x06
# fails in the listed loads, and in no save
begins-with: \x01
loads: \x01
loads-fail: 1|3
saves: \x02
loads: (fails)
saves: \x02
loads: \x02
saves: \x02
loads: (fails)
saves: \x02
loads: \x02
# fails in all saves from one on
saves-fail: 2
takes-memory 1
saves-fail-from: 2 keeps
saves: \x01
loads: \x01
fails-to-save: \x02
keeps: \x01
loads: \x01
fails-to-save: \x03
keeps: \x03
loads: \x03
fails-to-save: \x04
keeps: \x04
saves-fail-from: 1
fails-to-save: \x05
keeps: \x04
";

#[test]
fn records_in_memory(rt: HostRuntime) -> Result<(), Fail> {
    tell(&rt, "memory", STORIES)
}
