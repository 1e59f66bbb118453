// The three steps of a sync.
ghost use Rattle.std.specs.Prelude.{◌≡◌, ◌≤◌, ◌<◌, false, length, IfOk};
ghost use Rattle.outside.specs.Plain.{IsPlain};
ghost use Rattle.store_api.specs.Durables.{mark_place, with_mark};
ghost use Rattle.record_saver.specs.Saving.{world, CanKeepShort, CanSync, IsLongKept, Leaves, Marks, Moves, Finishes, ShortSaved, Syncs};

use block_id::{Failed, Memory};
use local_state::MARK_PLACE;
use outside::{GetFail, Keeper};
use std::alloc::Global;
use store_api::Durable;

/// Why a sync isn't whole.
#[derive(Clone, Copy, PartialEq, Eq)]
pub enum SyncError {
    /// Want of the program's memory.
    Memory,
    /// A call on the block directory failed.
    FaultDirectory,
    /// A save of the record failed.
    FaultState,
}

/// A keeper, the record whose save last answered Ok, and whether the store changed since the last whole sync.
pub struct Saver<K> {
    pub keeper: K,
    pub last: Vec<u8>,
    pub changed: bool,
}

/// The record with the unwritten list or with an empty one, once the keeper has memory for its save.
fn record_to_save<K: Keeper, S: Durable>(
    alloc: Global,
    keeper: &mut K,
    store: &mut S,
    with_list: bool,
) -> Result<Vec<u8>, Memory>
    requires { S.meanings.intact store.old }
    ensures record_ { IfOk result (λ bytes. bytes.items ≡ S.durables.local_record_of store.old with_list) }
    ensures same { store.new ≡ store.old }
    ensures fits { IfOk result (λ bytes. length bytes.items ≤ K.room keeper.new) }
    ensures kept { K.kept keeper.new ≡ K.kept keeper.old }
    ensures room { K.room keeper.old ≤ K.room keeper.new }
    ensures faults { K.faults keeper.new ≡ K.faults keeper.old }
{
    let bytes = store.state_bytes(alloc, with_list)?;
    keeper.prepare(alloc, bytes.len())?;
    Ok(bytes)
}

impl<K: Keeper> Saver<K> {
    /// Puts the unwritten list, and keeps a record with an empty one, which is handed in. A record with the list is kept.
    pub fn finish<S: Durable>(
        &mut self,
        alloc: Global,
        store: &mut S,
        short: Vec<u8>,
    ) -> Result<(), SyncError>
        requires long { IsLongKept (world S.meanings S.holdings S.durables S.records K.Keeper) self.old store.old }
        requires room { length short.items ≤ K.room self.old.keeper }
        requires short { S.durables.is_record store.old false short.items }
        ensures moves { Moves (world S.meanings S.holdings S.durables S.records K.Keeper)
            self.old store.old self.new store.new result }
        ensures finishes { Finishes (world S.meanings S.holdings S.durables S.records K.Keeper)
            self.old store.old self.new store.new result }
    {
        // While files are put and removed the record that lists them all is kept: a later start does the rest.
        match store.write_out(alloc) {
            Ok(()) => {}
            Err(GetFail::Failed) => return Err(SyncError::FaultDirectory),
            Err(GetFail::Memory) => return Err(SyncError::Memory),
        }
        // Only now does nothing wait, so that the record may have an empty list.
        match self.keeper.save(&short) {
            Ok(()) => {}
            Err(Failed) => return Err(SyncError::FaultState),
        }
        self.last = short;
        self.changed = false;
        Ok(())
    }

    /// Puts the unwritten list, where a record with the list is kept, and keeps the record with an empty list.
    pub fn write_waiting<S: Durable>(
        &mut self,
        alloc: Global,
        store: &mut S,
    ) -> Result<(), SyncError>
        requires { IsLongKept (world S.meanings S.holdings S.durables S.records K.Keeper) self.old store.old }
        ensures moves { Moves (world S.meanings S.holdings S.durables S.records K.Keeper)
            self.old store.old self.new store.new result }
        ensures finishes { Finishes (world S.meanings S.holdings S.durables S.records K.Keeper)
            self.old store.old self.new store.new result }
    {
        // Memory is taken before the first call on the outside, so that its want leaves all as it was.
        let short = match record_to_save(alloc, &mut self.keeper, store, false) {
            Ok(bytes) => bytes,
            Err(Memory) => return Err(SyncError::Memory),
        };
        self.finish(alloc, store, short)
    }

    /// Keeps the record with the unwritten list, puts the list, and keeps the record with an empty list. Where nothing changed
    /// since the last whole sync it makes no call. After a violation it would keep a record without the mark: whoever
    /// marks a record syncs no more.
    pub fn sync<S: Durable>(&mut self, alloc: Global, store: &mut S) -> Result<(), SyncError>
        requires { CanSync (world S.meanings S.holdings S.durables S.records K.Keeper) self.old store.old }
        ensures moves { Moves (world S.meanings S.holdings S.durables S.records K.Keeper)
            self.old store.old self.new store.new result }
        ensures syncs { Syncs (world S.meanings S.holdings S.durables S.records K.Keeper)
            self.old store.old self.new store.new result }
    {
        // Where nothing changed the short record is kept already.
        if !self.changed {
            return Ok(());
        }
        // Memory is taken before the first call on the outside, so that its want leaves all as it was.
        let full = match record_to_save(alloc, &mut self.keeper, store, true) {
            Ok(bytes) => bytes,
            Err(Memory) => return Err(SyncError::Memory),
        };
        let short = match record_to_save(alloc, &mut self.keeper, store, false) {
            Ok(bytes) => bytes,
            Err(Memory) => return Err(SyncError::Memory),
        };
        // The versions and the bytes of what is to be put are kept before the first put, so that no later start takes a file for older than it is.
        match self.keeper.save(&full) {
            Ok(()) => {}
            Err(Failed) => return Err(SyncError::FaultState),
        }
        self.last = full;
        self.finish(alloc, store, short)
    }

    /// Keeps the record with an empty list, where nothing waits and nothing changed since the last whole sync. After a failed
    /// save either record may be kept, so that the next sync saves again.
    pub fn keep_short<S: Durable>(&mut self, alloc: Global, store: &mut S) -> Result<(), SyncError>
        requires { CanKeepShort (world S.meanings S.holdings S.durables S.records K.Keeper) self.old store.old }
        ensures leaves { Leaves (world S.meanings S.holdings S.durables S.records K.Keeper)
            store.old self.old.keeper store.new self.new.keeper result }
        ensures saves { ShortSaved S.durables K.Keeper store.old self.old self.new result }
        ensures same { store.new ≡ store.old }
        ensures room { length self.new.last.items ≤ K.room self.new.keeper }
    {
        let short = match record_to_save(alloc, &mut self.keeper, store, false) {
            Ok(bytes) => bytes,
            Err(Memory) => return Err(SyncError::Memory),
        };
        if self.keeper.save(&short).is_err() {
            self.changed = true;
            return Err(SyncError::FaultState);
        }
        self.last = short;
        Ok(())
    }

    /// Marks the last record, and has it kept.
    pub fn mark(&mut self)
        requires long { mark_place < length self.old.last.items }
        requires plain { IsPlain (with_mark self.old.last.items) }
        requires room { length self.old.last.items ≤ K.room self.old.keeper }
        ensures marks { Marks K.Keeper self.old self.new }
    {
        self.last[MARK_PLACE] = 1;
        self.changed = true;
        match self.keeper.save(&self.last) {
            Ok(()) => {}
            Err(Failed) => {}
        }
    }
}
