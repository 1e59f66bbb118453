// What a block directory promises, over any directory.
ghost use Rattle.std.specs.Prelude.{◌≡◌, ◌<◌, true, take, IsTrue, IfOk, OnOk};
ghost use Rattle.std.specs.Option.{option_copied};
ghost use Rattle.outside.specs.Trace.{put as put_call, removed, adds};
ghost use Rattle.outside.specs.View.{at_of, bytes_of};
ghost use Rattle.outside_suite.specs.Gets.{gave, file_in, after_gets};
ghost use Rattle.outside_suite.specs.Names.{block_of, six_names};

use crate::expected::{LENGTHS, expect, generated, is_front};
use block_id::BlockId;
use outside::{FileName, Vault};
use rand_core::Rng;
use rand_pcg::Pcg32;
use std::alloc::Global;
use std::collections::BTreeMap;
use std::test::Fail;

/// The files that a directory ought to have.
type Files = BTreeMap<FileName, Vec<u8>>;

/// How often a directory is changed at random.
const STEPS: usize = 400;

/// How many names there are.
const COUNT: u32 = 6;

/// The block whose id begins with these two bytes, ends with this one, and is zeros between.
fn block(front: [u8; 2], last: u8) -> FileName
    ensures { result ≡ block_of front last }
{
    let mut id = [0; 16];
    id[15] = last;
    id[..2].copy_from_slice(&front);
    FileName::Block(BlockId(id))
}

/// The configuration, a block, and blocks of which each differs from that one in one place of its name.
pub(crate) fn names() -> [FileName; 6]
    ensures { result ≡ six_names }
{
    [
        FileName::Config,
        block([0xA0, 0x10], 1),
        block([0xA0, 0x10], 2),
        block([0xA0, 0x11], 1),
        block([0xA0, 0x20], 1),
        block([0xB0, 0x10], 1),
    ]
}

/// The configuration and a block.
fn two_names() -> [FileName; 2]
    ensures { result ≡ take 2 six_names }
{
    [FileName::Config, block([0xA0, 0x10], 1)]
}

/// Whether a get of at most so many bytes answers the front of these.
fn gives<V: Vault>(
    alloc: Global,
    vault: &mut V,
    name: &FileName,
    want: Option<&Vec<u8>>,
    max: usize,
) -> Result<bool, Fail>
    ensures { IfOk result (λ same. IsTrue same → V.trace vault.new ≡ adds (V.trace vault.old) (gave name.now max (bytes_of (option_copied want.entry)))) }
{
    let came = vault.get(alloc, name, max)?;
    Ok(is_front(&came, want, max))
}

/// Whether a get answers these bytes whole.
fn has<V: Vault>(
    alloc: Global,
    vault: &mut V,
    name: &FileName,
    want: Option<&Vec<u8>>,
) -> Result<bool, Fail>
    ensures { IfOk result (λ same. IsTrue same → V.trace vault.new ≡ adds (V.trace vault.old) (gave name.now usize.MAX (bytes_of (option_copied want.entry)))) }
{
    gives(alloc, vault, name, want, usize::MAX)
}

/// A name that was never put is no file, and no error.
pub fn gives_none_for_a_missing_name<V: Vault>(alloc: Global, vault: &mut V) -> Result<(), Fail> {
    for name in names() {
        for max in [0, usize::MAX] {
            let none = gives(alloc, vault, &name, None, max)?;
            expect(alloc, none, "gives none for a missing name", max)?;
        }
    }
    Ok(())
}

/// What was put is got, whole, as often as it is asked for.
pub fn gets_what_was_put<V: Vault>(alloc: Global, vault: &mut V) -> Result<(), Fail> {
    for name in two_names() {
        for len in LENGTHS {
            let bytes = generated(alloc, 1, len)?;
            vault.put(alloc, &name, &bytes)?;
            for _ in 0..2 {
                let whole = has(alloc, vault, &name, Some(&bytes))?;
                expect(alloc, whole, "gets what was put", len)?;
            }
        }
    }
    Ok(())
}

/// A second put replaces all that was there, whether it is shorter, longer or as long.
pub fn replaces_by_a_second_put<V: Vault>(alloc: Global, vault: &mut V) -> Result<(), Fail> {
    for name in two_names() {
        for (before, after) in [(9000, 10), (10, 9000), (10, 10), (10, 0), (0, 10)] {
            vault.put(alloc, &name, &generated(alloc, 1, before)?)?;
            let bytes = generated(alloc, 2, after)?;
            vault.put(alloc, &name, &bytes)?;
            let replaced = has(alloc, vault, &name, Some(&bytes))?;
            expect(alloc, replaced, "replaces by a second put", after)?;
        }
    }
    Ok(())
}

/// A removed name is no file. To remove it again, or one that isn't there, is no error, and it can be put anew.
pub fn removes_a_name_once_or_more<V: Vault>(alloc: Global, vault: &mut V) -> Result<(), Fail> {
    let bytes = generated(alloc, 1, 100)?;
    for name in names() {
        vault.remove(alloc, &name)?;
        vault.put(alloc, &name, &bytes)?;
        for time in 0..2 {
            vault.remove(alloc, &name)?;
            let gone = has(alloc, vault, &name, None)?;
            expect(alloc, gone, "removes a name once or more", time)?;
        }
        vault.put(alloc, &name, &bytes)?;
        let there = has(alloc, vault, &name, Some(&bytes))?;
        expect(alloc, there, "puts a removed name anew", 0)?;
    }
    Ok(())
}

/// A get gives at most as many bytes as it asks for, from the front of the file, and the file stays whole.
pub fn gives_at_most_what_is_asked_for<V: Vault>(alloc: Global, vault: &mut V) -> Result<(), Fail> {
    let bytes = generated(alloc, 1, 9000)?;
    for name in two_names() {
        vault.put(alloc, &name, &bytes)?;
        for max in [0, 1, 8191, 8192, 8193, 8999, 9000, 9001, usize::MAX] {
            let front = gives(alloc, vault, &name, Some(&bytes), max)?;
            expect(alloc, front, "gives at most what is asked for", max)?;
            let whole = has(alloc, vault, &name, Some(&bytes))?;
            expect(alloc, whole, "a get cuts nothing off", max)?;
        }
    }
    Ok(())
}

/// Whether each name is the file that it ought to be, of which at most so many bytes are asked for.
fn has_all<V: Vault>(alloc: Global, vault: &mut V, files: &Files, max: usize) -> Result<bool, Fail>
    ensures { IfOk result (λ same. IsTrue same → V.trace vault.new ≡ after_gets (file_in files.now) max six_names (V.trace vault.old)) }
{
    for name in names() {
        if !gives(alloc, vault, &name, files.get(&name), max)? {
            return Ok(false);
        }
    }
    Ok(true)
}

fn put<V: Vault>(
    alloc: Global,
    vault: &mut V,
    files: &mut Files,
    name: FileName,
    bytes: Vec<u8>,
) -> Result<(), Fail>
    ensures { OnOk result (V.trace vault.new ≡ adds (V.trace vault.old) (put_call (at_of name) bytes.items true)) }
{
    vault.put(alloc, &name, &bytes)?;
    files.insert(name, bytes)?;
    Ok(())
}

fn remove<V: Vault>(
    alloc: Global,
    vault: &mut V,
    files: &mut Files,
    name: &FileName,
) -> Result<(), Fail>
    ensures { OnOk result (V.trace vault.new ≡ adds (V.trace vault.old) (removed (at_of name.now) true)) }
{
    vault.remove(alloc, name)?;
    files.remove(name);
    Ok(())
}

/// Leaves no file.
fn remove_all<V: Vault>(alloc: Global, vault: &mut V) -> Result<Files, Fail> {
    for name in names() {
        vault.remove(alloc, &name)?;
    }
    Ok(BTreeMap::new(alloc))
}

/// No name stands for another one's file, nor the configuration's for a block's: what is put or removed under one name changes
/// none of the others.
pub fn keeps_names_apart<V: Vault>(alloc: Global, vault: &mut V) -> Result<(), Fail> {
    let mut files = remove_all(alloc, vault)?;
    for name in names() {
        let number = files.len();
        let bytes = generated(alloc, number as u64, 100)?;
        put(alloc, vault, &mut files, name, bytes)?;
        let apart = has_all(alloc, vault, &files, usize::MAX)?;
        expect(alloc, apart, "keeps names apart as they are put", number)?;
    }
    for name in names() {
        remove(alloc, vault, &mut files, &name)?;
        let apart = has_all(alloc, vault, &files, usize::MAX)?;
        expect(
            alloc,
            apart,
            "keeps names apart as they are removed",
            files.len(),
        )?;
    }
    Ok(())
}

/// A number below the limit.
fn drawn(chance: &mut Pcg32, limit: u32) -> usize
    requires { 0 < limit }
    ensures { result < limit }
{
    (chance.next_u32() % limit) as usize
}

/// Puts or removes a file, each at random.
fn change<V: Vault>(
    alloc: Global,
    vault: &mut V,
    files: &mut Files,
    chance: &mut Pcg32,
) -> Result<(), Fail> {
    let name = names()[drawn(chance, COUNT)];
    if drawn(chance, 3) == 0 {
        return remove(alloc, vault, files, &name);
    }
    let len = drawn(chance, 300);
    let bytes = generated(alloc, chance.next_u64(), len)?;
    put(alloc, vault, files, name, bytes)
}

/// After each of some hundreds of puts and removals the directory has those files, of the names in use, that a map in memory has.
pub fn follows_a_map<V: Vault>(alloc: Global, vault: &mut V) -> Result<(), Fail> {
    let mut files = remove_all(alloc, vault)?;
    let mut chance = Pcg32::new(1, 2);
    for step in 0..STEPS {
        change(alloc, vault, &mut files, &mut chance)?;
        let same = has_all(alloc, vault, &files, usize::MAX)?;
        expect(alloc, same, "follows a map", step)?;
        let front = has_all(alloc, vault, &files, drawn(&mut chance, 300))?;
        expect(alloc, front, "follows a map with its fronts", step)?;
    }
    Ok(())
}

/// Each promise in turn, over a directory without files.
pub fn keeps_all_of_a_directory<V: Vault>(alloc: Global, vault: &mut V) -> Result<(), Fail> {
    gives_none_for_a_missing_name(alloc, vault)?;
    gets_what_was_put(alloc, vault)?;
    replaces_by_a_second_put(alloc, vault)?;
    removes_a_name_once_or_more(alloc, vault)?;
    gives_at_most_what_is_asked_for(alloc, vault)?;
    keeps_names_apart(alloc, vault)?;
    follows_a_map(alloc, vault)
}
