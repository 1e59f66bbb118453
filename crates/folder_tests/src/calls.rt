// The calls on any block directory and any record, and whether they answer as an order says.
use crate::stories::Order;
use block_id::BlockId;
use outside::{FileName, GetFail, Keeper, Vault};
use std::alloc::Global;

/// The file that a story names: the configuration, the block 1, or one of sixteen equal bytes.
pub fn file_of(name: &str) -> Option<FileName> {
    let id = match name {
        "config" => return Some(FileName::Config),
        "one" => [0, 0, 0, 0, 0, 0, 0, 0, 0, 0, 0, 0, 0, 0, 0, 1],
        "zeros" => [0; 16],
        "sevens" => [7; 16],
        "tens" => [0x10; 16],
        _ => return None,
    };
    Some(FileName::Block(BlockId(id)))
}

/// How many bytes a get asks for, 9 where it isn't said, and of which file: `4 one`.
fn asked(subject: &str) -> Option<(usize, FileName)> {
    match subject.split_once(' ') {
        Some((max, name)) => Some((max.parse().ok()?, file_of(name)?)),
        None => Some((9, file_of(subject)?)),
    }
}

/// What a get or a load answers.
fn shown(came: &Result<Option<Vec<u8>>, GetFail>) -> &[u8] {
    match came {
        Ok(Some(bytes)) => bytes.as_slice(),
        Ok(None) => b"(none)",
        Err(GetFail::Failed) => b"(fails)",
        Err(GetFail::Memory) => b"(no memory)",
    }
}

/// Whether a put or a removal goes well, or fails where the order says that.
fn is_change(came: Result<(), GetFail>, order: &Order<'_>) -> bool {
    match came {
        Ok(()) => !order.name.starts_with("fails"),
        Err(GetFail::Failed) => order.name.starts_with("fails"),
        Err(GetFail::Memory) => false,
    }
}

fn get<V: Vault>(
    alloc: Global,
    vault: &mut V,
    name: &FileName,
    max: usize,
) -> Result<Option<Vec<u8>>, GetFail> {
    vault.get(alloc, name, max)
}

fn put<V: Vault>(
    alloc: Global,
    vault: &mut V,
    name: &FileName,
    bytes: &str,
) -> Result<(), GetFail> {
    vault.put(alloc, name, bytes.as_bytes())
}

fn remove<V: Vault>(alloc: Global, vault: &mut V, name: &FileName) -> Result<(), GetFail> {
    vault.remove(alloc, name)
}

/// Whether every call on this file fails.
fn fails<V: Vault>(alloc: Global, vault: &mut V, name: &FileName, order: &Order<'_>) -> bool {
    shown(&get(alloc, vault, name, 9)) == b"(fails)".as_slice()
        && is_change(put(alloc, vault, name, "bytes"), order)
        && is_change(remove(alloc, vault, name), order)
}

/// Whether an order on a block directory comes out, where it is one: `gets 4 one: shor`, `gets one: (none)` where there is
/// no such file, `gets one: (fails)`; `puts one: short`, `fails-to-put one: short`; `deletes one`, also where there is no such
/// file, `fails-to-delete one`; or `fails one`, all three.
pub fn on_vault<V: Vault>(alloc: Global, vault: &mut V, order: &Order<'_>) -> Option<bool> {
    let (max, name) = asked(order.subject)?;
    match order.name {
        "gets" => Some(shown(&get(alloc, vault, &name, max)) == order.text.as_bytes()),
        "puts" | "fails-to-put" => Some(is_change(put(alloc, vault, &name, order.text), order)),
        "deletes" | "fails-to-delete" => Some(is_change(remove(alloc, vault, &name), order)),
        "fails" => Some(fails(alloc, vault, &name, order)),
        _ => None,
    }
}

fn load<K: Keeper>(alloc: Global, keeper: &mut K) -> Result<Option<Vec<u8>>, GetFail> {
    keeper.load(alloc)
}

/// Whether there is memory for a record of so many bytes.
fn takes_memory<K: Keeper>(alloc: Global, keeper: &mut K, len: usize) -> bool {
    keeper.prepare(alloc, len).is_ok()
}

/// Whether a record is saved, where there is memory for it.
fn save<K: Keeper>(alloc: Global, keeper: &mut K, text: &str) -> Option<bool> {
    keeper.prepare(alloc, text.len()).ok()?;
    Some(keeper.save(text.as_bytes()).is_ok())
}

/// Whether an order on a record comes out, where it is one: `loads: record`, `loads: (none)` where nothing is kept,
/// `loads: (fails)`; `saves: record`, `fails-to-save: record`, for which there is memory; `takes-memory 3`.
pub fn on_keeper<K: Keeper>(alloc: Global, keeper: &mut K, order: &Order<'_>) -> Option<bool> {
    match order.name {
        "loads" => Some(shown(&load(alloc, keeper)) == order.text.as_bytes()),
        "saves" => save(alloc, keeper, order.text),
        "fails-to-save" => Some(!save(alloc, keeper, order.text)?),
        "takes-memory" => Some(takes_memory(alloc, keeper, order.subject.parse().ok()?)),
        _ => None,
    }
}
