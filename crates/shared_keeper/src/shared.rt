// The keeper over a keeper.
ghost use Rattle.std.specs.Prelude.{◌≡◌, ◌⊎◌, ◌≤◌, ◌+◌, List, Option, Err, [], ℕ, map, true, false, None, length, vec_capacity, IfOk, IfErr, OnOk, OnErr};
ghost use Rattle.std.specs.declared.option.Option.TheVariants.{Some};
ghost use Rattle.std.specs.Global.{Vec};
ghost use Rattle.outside.specs.Causes.{GetHasCause, RoseBy};
ghost use Rattle.outside.specs.View.{bytes_of};
ghost use Rattle.local_state.specs.Reading.{Gives};
ghost use Rattle.local_state.specs.Versions.{version_of};
ghost use Rattle.shared_keeper.specs.Shown.{shows, is_split, behind, is_shared_kept, entries_kept, joined, with_entries, may_join, digit_place, plain_splits, FoundFirst, StaysBut};
ghost use Rattle.shared_records.specs.Scan.{split_at, versions_in};
ghost use Rattle.shared_records.specs.Shared.{others_bytes};

use block_id::{Failed, Memory};
use local_state::{MAGIC_NEWER, StateError, Triple};
use outside::{GetFail, Keeper, WholeKeeper};
use shared_records::{decode_others, encode_others, split_shared};
use std::alloc::Global;
use std::marker::Model;

/// Where the digit stands that is the form's number.
const DIGIT_PLACE: usize = 17;

/// A local record that may be one of several clients.
#[derive(Drop)]
pub struct SharedKeeper<K: WholeKeeper + Drop> {
    keeper: K,
    /// Whether the record is one of several clients.
    shared: bool,
    /// Whether the versions of others are those of the record that was there, or of a new one.
    loaded: bool,
    /// Whether what was loaded first is what is kept.
    fresh: bool,
    opened: Option<Vec<u8>>,
    /// The versions of others, as they stand in the record.
    entries: Vec<u8>,
    /// Memory for a record with its entries.
    whole: Vec<u8>,
    room: usize,
}

impl<K: WholeKeeper + Drop> Model for SharedKeeper<K> {
    ghost use Rattle.std.specs.Prelude.{◌≡◌, ◌<◌, ◌≤◌, ◌+◌, true, length, vec_capacity};
    ghost use Rattle.outside.specs.View.{bytes_of};
    ghost use Rattle.shared_keeper.specs.Shown.{SharedView, shows};

    ghost Value = { SharedView K };

    ghost view = { λ s. record { keeper = s.keeper; shared = s.shared; loaded = s.loaded; entries = s.entries.items; room = s.room } };

    ghost invariant = { λ s. (s.loaded ≡ true → s.fresh ≡ true → bytes_of s.opened ≡ shows (K.kept s.keeper)) × (0 < s.room → s.room + length s.entries.items ≤ vec_capacity s.whole) × (0 < s.room → s.room + length s.entries.items ≤ K.room s.keeper) };
}

/// What was loaded as it is shown.
fn show(loaded: Option<Vec<u8>>) -> Option<Vec<u8>>
    ensures { bytes_of result ≡ shows (bytes_of loaded) }
{
    let mut bytes = loaded?;
    if let Some(end) = split_shared(&bytes) {
        bytes[DIGIT_PLACE] = b'2';
        bytes.truncate(end);
    }
    Some(bytes)
}

/// The bytes with the entries behind them, as a record of several clients, in memory that was taken before.
fn join(whole: &mut Vec<u8>, bytes: &[u8], entries: &[u8])
    requires long { digit_place + 1 ≤ length bytes.now }
    requires room { length bytes.now + length entries.now ≤ vec_capacity whole.old }
    ensures joined { whole.new.items ≡ with_entries entries.now bytes.now }
    ensures capacity { vec_capacity whole.old ≤ vec_capacity whole.new }
{
    whole.clear();
    match whole.extend_from_slice(bytes) {
        Ok(()) => {}
        Err(_) => unreachable!(),
    }
    whole[DIGIT_PLACE] = b'3';
    match whole.extend_from_slice(entries) {
        Ok(()) => {}
        Err(_) => unreachable!(),
    }
}

/// Whether the record is one of a client alone, which the entries make one of several; then that one stands in the memory.
fn joins(whole: &mut Vec<u8>, bytes: &[u8], entries: &[u8]) -> bool
    requires room { length bytes.now + length entries.now ≤ vec_capacity whole.old }
    ensures may { result ≡ may_join entries.now bytes.now }
    ensures joined { result ≡ true → whole.new.items ≡ with_entries entries.now bytes.now }
    ensures capacity { vec_capacity whole.old ≤ vec_capacity whole.new }
{
    if !bytes.starts_with(&MAGIC_NEWER) {
        return false;
    }
    join(whole, bytes, entries);
    split_shared(whole) == Some(bytes.len())
}

fn copy(alloc: Global, opened: &Option<Vec<u8>>) -> Result<Option<Vec<u8>>, Memory>
    ensures { IfOk result (λ copied. bytes_of copied ≡ bytes_of opened.now) }
{
    match opened {
        Some(bytes) => Ok(Some(bytes.to_vec(alloc)?)),
        None => Ok(None),
    }
}

/// Whether a record is one of several clients, and the versions of others in it, as they stand there.
fn split(alloc: Global, bytes: &[u8]) -> Result<(bool, Vec<u8>), Memory>
    ensures shared { IfOk result (λ found. found.0 ≡ is_split (split_at bytes.now)) }
    ensures entries { IfOk result (λ found. found.1.items ≡ behind (split_at bytes.now) bytes.now) }
{
    match split_shared(bytes) {
        Some(end) => Ok((true, Vec::from_slice(alloc, &bytes[end..])?)),
        None => Ok((false, Vec::new(alloc))),
    }
}

/// The same of what was loaded.
fn entries_of(alloc: Global, loaded: &Option<Vec<u8>>) -> Result<(bool, Vec<u8>), Memory>
    ensures shared { IfOk result (λ found. found.0 ≡ is_shared_kept (bytes_of loaded.now)) }
    ensures entries { IfOk result (λ found. found.1.items ≡ entries_kept (bytes_of loaded.now)) }
{
    match loaded {
        Some(bytes) => split(alloc, bytes),
        None => Ok((false, Vec::new(alloc))),
    }
}

impl<K: WholeKeeper + Drop> SharedKeeper<K> {
    /// Over a keeper whose record isn't loaded yet.
    pub fn over(alloc: Global, keeper: K) -> SharedKeeper<K>
        ensures keeper { result.keeper ≡ keeper }
        ensures shared { result.shared ≡ false }
        ensures loaded { result.loaded ≡ false }
    {
        SharedKeeper {
            keeper,
            shared: false,
            loaded: false,
            fresh: false,
            opened: None,
            entries: Vec::new(alloc),
            whole: Vec::new(alloc),
            room: 0,
        }
    }

    /// Over a keeper whose record is loaded now. After an error the keeper is handed back.
    pub fn open(alloc: Global, keeper: K) -> Result<SharedKeeper<K>, (GetFail, K)>
        ensures found { IfOk result (λ s. FoundFirst (K.kept keeper) s) }
        ensures kept { IfOk result (λ s. K.kept s.keeper ≡ K.kept keeper) }
        ensures quiet { IfOk result (λ s. K.faults s.keeper ≡ K.faults keeper) }
        ensures err { IfErr result (λ e. K.kept e.1 ≡ K.kept keeper) }
        ensures cause { IfErr result (λ e. GetHasCause {T = Option (Vec ℕ)} (K.faults keeper) (K.faults e.1) (Err e.0)) }
    {
        let mut shared = SharedKeeper::over(alloc, keeper);
        match shared.load(alloc) {
            Ok(_) => Ok(shared),
            Err(fail) => Err((fail, shared.into_keeper())),
        }
    }

    /// For a record that is to be one of several clients, without others so far.
    pub fn new_shared(alloc: Global, keeper: K) -> Result<SharedKeeper<K>, K>
        ensures keeper { IfOk result (λ s. s.keeper ≡ keeper) }
        ensures shared { IfOk result (λ s. s.shared ≡ true) }
        ensures entries { IfOk result (λ s. s.entries ≡ others_bytes []) }
        ensures err { IfErr result (λ k. k ≡ keeper) }
    {
        let mut entries = Vec::new(alloc);
        match entries.extend_from_slice(&[0; 8]) {
            Ok(()) => {}
            Err(_) => return Err(keeper),
        }
        Ok(SharedKeeper {
            keeper,
            shared: true,
            loaded: true,
            fresh: false,
            opened: None,
            entries,
            whole: Vec::new(alloc),
            room: 0,
        })
    }

    /// Whether the record is one of several clients.
    pub fn is_shared(&self) -> bool
        ensures { result ≡ self.now.shared }
    {
        self.shared
    }

    /// The keeper below.
    pub fn into_keeper(self) -> K
        ensures { result ≡ self.keeper }
    {
        let SharedKeeper { keeper, .. } = self;
        keeper
    }

    /// These are the versions of others from now on.
    pub fn set_others(&mut self, alloc: Global, others: &[Triple]) -> Result<(), Memory>
        ensures keeper { self.new.keeper ≡ self.old.keeper }
        ensures shared { self.new.shared ≡ self.old.shared }
        ensures loaded { self.new.loaded ≡ self.old.loaded }
        ensures ok { OnOk result (self.new.entries ≡ others_bytes (map version_of others.now)) }
        ensures err { OnErr result (self.new ≡ self.old) }
    {
        let entries = encode_others(alloc, others)?;
        self.entries = entries;
        self.room = 0;
        Ok(())
    }

    /// The versions of others. BadState where the entries are none, as before the first load.
    pub fn others(&self, alloc: Global) -> Result<Vec<Triple>, StateError>
        ensures { Gives (λ vs. map version_of vs.items) result (versions_in self.now.entries) }
    {
        decode_others(alloc, &self.entries)
    }
}

/// Takes the memory for records of up to `len` bytes with so many bytes of entries behind them.
fn take_memory<K: WholeKeeper + Drop>(
    alloc: Global,
    keeper: &mut K,
    whole: &mut Vec<u8>,
    len: usize,
    entries: usize,
) -> Result<(), Memory>
    ensures memory { OnOk result (len + entries ≤ vec_capacity whole.new) }
    ensures room { OnOk result (len + entries ≤ K.room keeper.new) }
    ensures more { vec_capacity whole.old ≤ vec_capacity whole.new }
    ensures kept { K.kept keeper.new ≡ K.kept keeper.old }
    ensures grows { K.room keeper.old ≤ K.room keeper.new }
    ensures faults { K.faults keeper.new ≡ K.faults keeper.old }
{
    let total = len.saturating_add(entries);
    keeper.prepare(alloc, total)?;
    let more = total.saturating_sub(whole.len());
    whole.reserve(more)?;
    Ok(())
}

impl<K: WholeKeeper + Drop> SharedKeeper<K> {
    /// Notes what was loaded first.
    fn note(&mut self, alloc: Global, kept: &Option<Vec<u8>>) -> Result<(), Memory>
        requires { bytes_of kept.now ≡ K.kept self.old.keeper }
        ensures kept { K.kept self.new.keeper ≡ K.kept self.old.keeper }
        ensures faults { K.faults self.new.keeper ≡ K.faults self.old.keeper }
        ensures room { self.new.room ≡ self.old.room }
        ensures ok { OnOk result (FoundFirst (bytes_of kept.now) self.new) }
    {
        let (shared, entries) = entries_of(alloc, kept)?;
        let opened = show(copy(alloc, kept)?);
        take_memory(
            alloc,
            &mut self.keeper,
            &mut self.whole,
            self.room,
            entries.len(),
        )?;
        self.shared = shared;
        self.loaded = true;
        self.fresh = true;
        self.opened = opened;
        self.entries = entries;
        Ok(())
    }
}

impl<K: WholeKeeper + Drop> Keeper for SharedKeeper<K> {
    ghost kept = { λ s. shows (K.kept s.keeper) };

    ghost room = { λ s. s.room };

    ghost faults = { λ s. K.faults s.keeper };

    ghost takes = { λ bytes. split_at bytes ≡ None };

    fn load(&mut self, alloc: Global) -> Result<Option<Vec<u8>>, GetFail>
        ensures ok { IfOk result (λ answer. bytes_of answer ≡ shows (K.kept self.old.keeper)) }
        ensures kept { shows (K.kept self.new.keeper) ≡ shows (K.kept self.old.keeper) }
        ensures room { self.old.room ≤ self.new.room }
        ensures cause { GetHasCause (K.faults self.old.keeper) (K.faults self.new.keeper) result }
        // What is kept below is the same, and the first load finds out what it is.
        ensures below { K.kept self.new.keeper ≡ K.kept self.old.keeper }
        ensures first { self.old.loaded ≡ false → OnOk result (FoundFirst (K.kept self.old.keeper) self.new) }
        ensures later { self.old.loaded ≡ true → StaysBut self.old self.new }
    {
        if self.loaded && self.fresh {
            return match copy(alloc, &self.opened) {
                Ok(copied) => Ok(copied),
                Err(Memory) => Err(GetFail::Memory),
            };
        }
        let kept = self.keeper.load(alloc)?;
        if !self.loaded {
            match self.note(alloc, &kept) {
                Ok(()) => {}
                Err(Memory) => return Err(GetFail::Memory),
            }
        }
        Ok(show(kept))
    }

    fn prepare(&mut self, alloc: Global, len: usize) -> Result<(), Memory>
        ensures ok { OnOk result (len ≤ self.new.room) }
        ensures kept { shows (K.kept self.new.keeper) ≡ shows (K.kept self.old.keeper) }
        ensures room { self.old.room ≤ self.new.room }
        ensures faults { K.faults self.new.keeper ≡ K.faults self.old.keeper }
        ensures below { K.kept self.new.keeper ≡ K.kept self.old.keeper }
        ensures stays { StaysBut self.old self.new }
    {
        if len <= self.room {
            return Ok(());
        }
        take_memory(
            alloc,
            &mut self.keeper,
            &mut self.whole,
            len,
            self.entries.len(),
        )?;
        self.room = len;
        Ok(())
    }

    fn save(&mut self, bytes: &[u8]) -> Result<(), Failed>
        requires { length bytes.now ≤ self.old.room }
        ensures ok { OnOk result (split_at bytes.now ≡ None → shows (K.kept self.new.keeper) ≡ Some bytes.now) }
        ensures err { OnErr result (split_at bytes.now ≡ None → (shows (K.kept self.new.keeper) ≡ shows (K.kept self.old.keeper)) ⊎ (shows (K.kept self.new.keeper) ≡ Some bytes.now)) }
        ensures room { self.old.room ≤ self.new.room }
        ensures grows { K.faults self.old.keeper ≤ K.faults self.new.keeper }
        ensures cause { OnErr result (RoseBy 1 (K.faults self.old.keeper) (K.faults self.new.keeper)) }
        ensures quiet { OnOk result (K.faults self.new.keeper ≡ K.faults self.old.keeper) }
        // Of a shared record the versions of others are kept with it.
        ensures joined { OnOk result (self.old.shared ≡ true → K.kept self.new.keeper ≡ Some (joined self.old.entries bytes.now)) }
        ensures stays { StaysBut self.old self.new }
    {
        self.fresh = false;
        if self.shared && !bytes.is_empty() && joins(&mut self.whole, bytes, &self.entries) {
            return self.keeper.save(&self.whole);
        }
        self.keeper.save(bytes)
    }

    ghost takes_plain = { plain_splits };
}
