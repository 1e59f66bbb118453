// A file system with each damage of each block, with two damages, and with each third byte changed.
use crate::blocks::Disk;
use crate::comparing::compare;
use crate::damages::{DAMAGES, damage_block};
use crate::stories::play;
use rand_core::Rng;
use rand_pcg::Pcg32;
use std::alloc::Global;
use std::test::Fail;

/// A root with a directory that is filled, files of 100 bytes and of none, and a link.
const SAMPLE: &str =
    "put /: header directory -, entry directory a a, entry file b b, entry link c c, entry file d d
put b: header file /, filling 100
put c: header link /, text a/e
put d: header file /
put a: header directory /, entry file e e, entry directory f f, entry link g g
put e: header file a, filling 150
put f: header directory a
put g: header link a, text ../b
";

/// More blocks than the sample has.
const MOST: usize = 1_000_000;

/// The flaws, each of which is met.
const FLAWS: &str = "bad-node bad-blob parent twice not-live unowned";

/// How many pairs of damages are tried.
const TRIES: u32 = 200;

/// The sample in blocks with payloads of this length.
fn sample(alloc: Global, payload: usize) -> Result<Disk, Fail> {
    let mut disk = Disk::new(alloc);
    disk.payload = payload;
    play(alloc, &mut disk, SAMPLE)?;
    Ok(disk)
}

/// Notes what both the judge and a check find.
fn note(alloc: Global, disk: &Disk, found: &mut Vec<&'static str>) -> Result<(), Fail> {
    let (word, _) = compare(alloc, disk)?;
    found.push(word)?;
    Ok(())
}

/// How often this was found.
fn count(found: &[&str], word: &str) -> usize {
    let mut count = 0usize;
    for known in found {
        if *known == word {
            count = count.saturating_add(1);
        }
    }
    count
}

/// At least so many disks were flawed, and each flaw was found at least so often.
fn are_found(found: &[&str], flawed: usize, least: usize) -> Result<(), Fail> {
    for flaw in FLAWS.split(' ') {
        if count(found, flaw) < least {
            return Err(Fail::new(format_args!("too few are {flaw}")));
        }
    }
    if found.len().saturating_sub(count(found, "fine")) < flawed {
        return Err(Fail::from("too few are flawed"));
    }
    Ok(())
}

#[test]
fn a_whole_file_system_has_its_owners(rt: HostRuntime) -> Result<(), Fail> {
    let alloc = rt.alloc();
    for payload in [50, 57, 72, 130, 1_000] {
        let (word, _) = compare(alloc, &sample(alloc, payload)?)?;
        assert_eq!(rt; word, "fine", "{payload}");
    }
    Ok(())
}

/// Damages each block so in turn.
fn damage_each(
    alloc: Global,
    payload: usize,
    damage: &str,
    found: &mut Vec<&'static str>,
) -> Result<(), Fail> {
    for at in 0..MOST {
        let mut disk = sample(alloc, payload)?;
        if at >= disk.blocks.len() {
            return Ok(());
        }
        damage_block(alloc, &mut disk, damage, at)?;
        note(alloc, &disk, found)?;
    }
    Err(Fail::from("too many blocks"))
}

/// With each damage of each block at least so many disks are flawed, and each flaw is found at least so often.
fn damage_all(alloc: Global, payload: usize, flawed: usize, least: usize) -> Result<(), Fail> {
    let mut found = Vec::new(alloc);
    for damage in DAMAGES.split(' ') {
        damage_each(alloc, payload, damage, &mut found)?;
    }
    are_found(&found, flawed, least)
}

#[test]
fn each_damage_of_many_small_blocks_is_named(rt: HostRuntime) -> Result<(), Fail> {
    damage_all(rt.alloc(), 50, 500, 10)
}

#[test]
fn each_damage_of_few_blocks_is_named(rt: HostRuntime) -> Result<(), Fail> {
    damage_all(rt.alloc(), 130, 150, 5)
}

/// One of so many numbers.
fn draw(chance: &mut Pcg32, count: usize) -> usize {
    chance.next_u32() as usize % count.max(1)
}

/// Compares the sample with two damages of any blocks.
fn damage_two(
    alloc: Global,
    payload: usize,
    chance: &mut Pcg32,
    found: &mut Vec<&'static str>,
) -> Result<(), Fail> {
    let mut disk = sample(alloc, payload)?;
    for _ in 0..2 {
        let at = draw(chance, disk.blocks.len());
        let number = draw(chance, 16);
        let damage = DAMAGES.split(' ').nth(number).ok_or("a damage")?;
        damage_block(alloc, &mut disk, damage, at)?;
    }
    note(alloc, &disk, found)
}

#[test]
fn of_two_damages_the_first_is_named(rt: HostRuntime) -> Result<(), Fail> {
    let alloc = rt.alloc();
    let mut chance = Pcg32::new(42, 54);
    let mut found = Vec::new(alloc);
    for payload in [50, 72, 130] {
        for _ in 0..TRIES {
            damage_two(alloc, payload, &mut chance, &mut found)?;
        }
    }
    are_found(&found, 500, 5)
}

/// Flips the lowest bit of a byte of a block.
fn flip(disk: &mut Disk, at: usize, place: usize) {
    if let Some(block) = disk.blocks.get_mut(at) {
        if let Some(byte) = block.1.get_mut(place) {
            *byte ^= 1;
        }
    }
}

/// Changes each third byte of a block in turn.
fn flip_each(
    alloc: Global,
    disk: &mut Disk,
    at: usize,
    found: &mut Vec<&'static str>,
) -> Result<(), Fail> {
    for place in 0..disk.payload {
        if place % 3 == at % 3 {
            flip(disk, at, place);
            note(alloc, disk, found)?;
            flip(disk, at, place);
        }
    }
    Ok(())
}

#[test]
fn each_changed_byte_is_named(rt: HostRuntime) -> Result<(), Fail> {
    let alloc = rt.alloc();
    let mut found = Vec::new(alloc);
    let mut disk = sample(alloc, 57)?;
    for at in 0..disk.blocks.len() {
        flip_each(alloc, &mut disk, at, &mut found)?;
    }
    are_found(&found, 400, 0)
}
