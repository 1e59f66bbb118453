// A directory in memory, which tells its trace.
ghost use Rattle.std.specs.Prelude.{◌≡◌, ◌⊎◌, ◌≤◌, ℕ, List, [], map, reverse, length, vec_len, true, false, IfOk, IfSome, IfNone, OnOk, OnErr, IsErrOf};
ghost use Rattle.std.specs.declared.option.Option.{Option};
ghost use Rattle.std.specs.declared.option.Option.TheVariants.{None, Some};
ghost use Rattle.outside.specs.Causes.{GetHasCause, one_more};
ghost use Rattle.outside.specs.Trace.{got, put as put_call, removed, adds};
ghost use Rattle.outside.specs.Changes.{change_at, set_change, cut};
ghost use Rattle.outside.specs.Honest.{lies};
ghost use Rattle.memory_outside.specs.Vaults.{is_listed, is_from, answer_at, change_fails, given, without, after_get, after_change, after_failed_change, restarted, names_in, after_failed_list, GetsAsSet, ListsAsSet, IsUntampered};
ghost use Rattle.outside.specs.View.{at_of, bytes_of, list_of};
ghost use Rattle.memory_outside.specs.View.{call_of, answers_of};

use crate::Event;
use crate::file_names::names;
use outside::{ByteLine, Change, FileName, GetFail, Listing, MAX_NAMES, Memory, Pending, Vault};
use std::alloc::{AllocError, Global};
use std::marker::Model;

/// A directory in memory, which keeps its whole trace. Calls can be made to fail, and answers and files be replaced.
#[derive(Drop)]
pub struct MemoryVault {
    trace: Vec<Event>,
    files: Vec<Pending>,
    faults: u64,
    calls: u64,
    gets: u64,
    changes: u64,
    failing: Vec<u64>,
    failing_from: Option<u64>,
    answers: Vec<(u64, Option<Vec<u8>>)>,
    strange: Vec<ByteLine>,
}

impl Model for MemoryVault {
    ghost use Rattle.std.specs.Prelude.{map, reverse};
    ghost use Rattle.memory_outside.specs.Vaults.{VaultState};
    ghost use Rattle.outside.specs.View.{list_of};
    ghost use Rattle.memory_outside.specs.View.{call_of, answers_of};

    ghost Value = { VaultState };

    ghost view = { λ v. record {
      trace = reverse (map call_of v.trace.items);
      files = list_of v.files.items;
      faults = v.faults;
      calls = v.calls;
      gets = v.gets;
      changes = v.changes;
      failing = v.failing.items;
      failing_from = v.failing_from;
      answers = answers_of v.answers.items;
      strange = v.strange.items;
    } };
}

/// Whether the number is one of these.
pub(crate) fn contains(numbers: &[u64], number: u64) -> bool
    ensures { result ≡ is_listed numbers.now number }
{
    numbers.contains(&number)
}

fn is_reached(first: Option<u64>, number: u64) -> bool
    ensures { result ≡ is_from first number }
{
    match first {
        Some(first) => first <= number,
        None => false,
    }
}

/// The answer that replaces that of the get of this number.
fn replacement(answers: &[(u64, Option<Vec<u8>>)], number: u64) -> Option<&Option<Vec<u8>>>
    ensures some { IfSome result (λ answer. answer_at (answers_of answers.now) number ≡ Some (bytes_of answer.now)) }
    ensures none { IfNone result (answer_at (answers_of answers.now) number ≡ None) }
{
    for answer in answers {
        if answer.0 == number {
            return Some(&answer.1);
        }
    }
    None
}

fn copy(alloc: Global, bytes: &Option<Vec<u8>>) -> Result<Option<Vec<u8>>, AllocError>
    ensures { IfOk result (λ copied. bytes_of copied ≡ bytes_of bytes.now) }
{
    match bytes {
        Some(bytes) => Ok(Some(bytes.as_slice().to_vec(alloc)?)),
        None => Ok(None),
    }
}

/// Drops the file, if it is there.
fn drop_file(files: &mut Vec<Pending>, name: &FileName)
    ensures { list_of files.new.items ≡ without (at_of name.now) (list_of files.old.items) }
{
    files.retain(|file| !pending_list::is_same(name, &file.name));
}

impl MemoryVault {
    /// An empty directory.
    pub fn new(alloc: Global) -> MemoryVault
        ensures trace { result.trace ≡ [] }
        ensures files { result.files ≡ [] }
        ensures faults { result.faults ≡ 0 }
        ensures counts { (result.calls ≡ 0) × (result.gets ≡ 0) × (result.changes ≡ 0) }
        ensures settings { (result.failing ≡ []) × (result.failing_from ≡ None) × (result.answers ≡ []) }
        ensures strange { result.strange ≡ [] }
        ensures plain { IsUntampered result }
    {
        MemoryVault {
            trace: Vec::new(alloc),
            files: Vec::new(alloc),
            faults: 0,
            calls: 0,
            gets: 0,
            changes: 0,
            failing: Vec::new(alloc),
            failing_from: None,
            answers: Vec::new(alloc),
            strange: Vec::new(alloc),
        }
    }

    fn restart(&mut self)
        ensures { self.new ≡ restarted self.old }
    {
        self.calls = 0;
        self.gets = 0;
        self.changes = 0;
    }

    /// Makes the calls of these numbers fail, counted from 1 from here on.
    pub fn fail_calls(&mut self, list: Vec<u64>)
        ensures set { self.new ≡ record (restarted self.old) { failing = list.items } }
        ensures plain { IsUntampered self.old → IsUntampered self.new }
    {
        self.failing = list;
        self.restart();
    }

    /// Makes every put and removal from the n-th one on fail, counted from 1 from here on.
    pub fn fail_from(&mut self, n: u64)
        ensures set { self.new ≡ record (restarted self.old) { failing_from = Some n } }
        ensures plain { IsUntampered self.old → IsUntampered self.new }
    {
        self.failing_from = Some(n);
        self.restart();
    }

    /// Gives these answers, cut at what is asked for, in the gets of these numbers, counted from 1 from here on.
    pub fn replace(&mut self, answers: Vec<(u64, Option<Vec<u8>>)>)
        ensures { self.new ≡ record (restarted self.old) { answers = answers_of answers.items } }
    {
        self.answers = answers;
        self.restart();
    }

    /// Replaces the stored files without a call. Of changes of one name the first counts, and a removal is no file.
    pub fn set_files(&mut self, files: Vec<Pending>)
        ensures { self.new ≡ record (restarted self.old) { files = list_of files.items } }
    {
        self.files = files;
        self.restart();
    }

    /// Puts names of strange files beside those of its own, in place of the strange ones that it had.
    pub fn set_strangers(&mut self, names: Vec<ByteLine>)
        ensures set { self.new ≡ record (restarted self.old) { strange = names.items } }
        ensures plain { IsUntampered self.old → IsUntampered self.new }
    {
        self.strange = names;
        self.restart();
    }

    /// The calls that were made, the oldest first.
    pub fn trace(&self) -> &[Event]
        ensures { self.now.trace ≡ reverse (map call_of result.now) }
    {
        &self.trace
    }

    /// The stored files.
    pub fn files(&self) -> &[Pending]
        ensures { list_of result.now ≡ self.now.files }
    {
        &self.files
    }

    /// A copy of what the next get gives.
    fn answer(
        &self,
        alloc: Global,
        name: &FileName,
        max: usize,
    ) -> Result<Option<Vec<u8>>, AllocError>
        ensures { IfOk result (λ answer. bytes_of answer ≡ cut max (given self.now (at_of name.now))) }
    {
        if let Some(answer) = replacement(&self.answers, self.gets.saturating_add(1)) {
            return pending_list::cut(alloc, answer, max);
        }
        match pending_list::lookup(&self.files, name) {
            Some(change) => pending_list::cut_change(alloc, change, max),
            None => Ok(None),
        }
    }

    /// Tells a get that gave this.
    fn tell_get(
        &mut self,
        alloc: Global,
        name: &FileName,
        max: usize,
        answer: &Option<Vec<u8>>,
    ) -> Result<(), Memory>
        ensures ok { OnOk result (self.new ≡ after_get self.old (got (at_of name.now) max (bytes_of answer.now))) }
        ensures err { OnErr result (self.new ≡ self.old) }
    {
        let answer = copy(alloc, answer)?;
        self.trace.push(Event::Got {
            name: *name,
            max,
            answer,
        })?;
        self.calls = self.calls.saturating_add(1);
        self.gets = self.gets.saturating_add(1);
        Ok(())
    }

    /// Whether the next put or removal is made to fail.
    fn change_fails(&self) -> bool
        ensures { result ≡ change_fails self.now }
    {
        contains(&self.failing, self.calls.saturating_add(1))
            || is_reached(self.failing_from, self.changes.saturating_add(1))
    }

    /// Tells a put or a removal.
    fn tell_change(&mut self, event: Event) -> Result<(), Memory>
        ensures ok { OnOk result (self.new ≡ after_change self.old (call_of event) self.old.files) }
        ensures err { OnErr result (self.new ≡ self.old) }
    {
        self.trace.push(event)?;
        self.calls = self.calls.saturating_add(1);
        self.changes = self.changes.saturating_add(1);
        Ok(())
    }

    /// A listing that fails.
    fn fail_list(&mut self) -> GetFail
        ensures failed { result ≡ GetFail.Failed }
        ensures after { self.new ≡ after_failed_list self.old }
        ensures grows { self.old.faults ≤ self.new.faults }
    {
        self.faults = self.faults.saturating_add(1);
        self.calls = self.calls.saturating_add(1);
        GetFail::Failed
    }

    /// Tells a put or a removal that is made to fail, and says how it fails.
    fn fail_change(&mut self, event: Event) -> GetFail
        ensures failed { result ≡ GetFail.Failed → self.new ≡ after_failed_change self.old (call_of event) }
        ensures memory { result ≡ GetFail.Memory → self.new ≡ self.old }
        ensures grows { self.old.faults ≤ self.new.faults }
    {
        if self.tell_change(event).is_err() {
            return GetFail::Memory;
        }
        self.faults = self.faults.saturating_add(1);
        GetFail::Failed
    }
}

impl Vault for MemoryVault {
    ghost trace = { λ v. Some v.trace };

    ghost faults = { λ v. v.faults };

    fn get(
        &mut self,
        alloc: Global,
        name: &FileName,
        max: usize,
    ) -> Result<Option<Vec<u8>>, GetFail>
        ensures bound { IfOk result (λ answer. IfSome answer (λ bytes. length bytes.items ≤ max)) }
        ensures ok { IfOk result (λ answer. Some self.new.trace ≡ adds (Some self.old.trace) (got (at_of name.now) max (bytes_of answer))) }
        ensures err { OnErr result (Some self.new.trace ≡ Some self.old.trace) }
        ensures cause { GetHasCause self.old.faults self.new.faults result }

        ensures as_set { GetsAsSet self.old self.new (at_of name.now) max result }
        ensures honest { IsUntampered self.old → lies self.new.trace ≡ lies self.old.trace }
        ensures plain { IsUntampered self.old → IsUntampered self.new }
    {
        if contains(&self.failing, self.calls.saturating_add(1)) {
            self.faults = self.faults.saturating_add(1);
            self.calls = self.calls.saturating_add(1);
            self.gets = self.gets.saturating_add(1);
            return Err(GetFail::Failed);
        }
        let answer = self.answer(alloc, name, max)?;
        match self.tell_get(alloc, name, max, &answer) {
            Ok(()) => Ok(answer),
            Err(_) => Err(GetFail::Memory),
        }
    }

    fn put(&mut self, alloc: Global, name: &FileName, bytes: &[u8]) -> Result<(), GetFail>
        ensures ok { OnOk result (Some self.new.trace ≡ adds (Some self.old.trace) (put_call (at_of name.now) bytes.now true)) }
        ensures err { OnErr result ((Some self.new.trace ≡ Some self.old.trace)
            ⊎ (Some self.new.trace ≡ adds (Some self.old.trace) (put_call (at_of name.now) bytes.now false))) }
        ensures cause { GetHasCause self.old.faults self.new.faults result }

        ensures after { OnOk result (self.new
            ≡ after_change self.old (put_call (at_of name.now) bytes.now true) (set_change (at_of name.now) (Some bytes.now) self.old.files)) }
        ensures ok_where_not_listed { OnOk result (change_fails self.old ≡ false) }
        ensures failed_where_listed { IsErrOf result GetFail.Failed → (change_fails self.old ≡ true)
            × (self.new ≡ after_failed_change self.old (put_call (at_of name.now) bytes.now false)) }
        ensures memory { IsErrOf result GetFail.Memory → self.new ≡ self.old }
        ensures plain { IsUntampered self.old → IsUntampered self.new }
    {
        let told = bytes.to_vec(alloc)?;
        let file = bytes.to_vec(alloc)?;
        if self.change_fails() {
            return Err(self.fail_change(Event::Put {
                name: *name,
                bytes: told,
                ok: false,
            }));
        }
        self.files.reserve(1)?;
        self.trace.push(Event::Put {
            name: *name,
            bytes: told,
            ok: true,
        })?;
        pending_list::set(
            &mut self.files,
            Pending {
                name: *name,
                change: Change::Bytes(file),
            },
        );
        self.calls = self.calls.saturating_add(1);
        self.changes = self.changes.saturating_add(1);
        Ok(())
    }

    fn remove(&mut self, alloc: Global, name: &FileName) -> Result<(), GetFail>
        ensures ok { OnOk result (Some self.new.trace ≡ adds (Some self.old.trace) (removed (at_of name.now) true)) }
        ensures err { OnErr result ((Some self.new.trace ≡ Some self.old.trace)
            ⊎ (Some self.new.trace ≡ adds (Some self.old.trace) (removed (at_of name.now) false))) }
        ensures cause { GetHasCause self.old.faults self.new.faults result }

        ensures after { OnOk result (self.new
            ≡ after_change self.old (removed (at_of name.now) true) (without (at_of name.now) self.old.files)) }
        ensures ok_where_not_listed { OnOk result (change_fails self.old ≡ false) }
        ensures failed_where_listed { IsErrOf result GetFail.Failed → (change_fails self.old ≡ true)
            × (self.new ≡ after_failed_change self.old (removed (at_of name.now) false)) }
        ensures memory { IsErrOf result GetFail.Memory → self.new ≡ self.old }
        ensures plain { IsUntampered self.old → IsUntampered self.new }
    {
        let _ = alloc;
        if self.change_fails() {
            return Err(self.fail_change(Event::Removed {
                name: *name,
                ok: false,
            }));
        }
        let event = Event::Removed {
            name: *name,
            ok: true,
        };
        match self.tell_change(event) {
            Ok(()) => {
                drop_file(&mut self.files, name);
                Ok(())
            }
            Err(_) => Err(GetFail::Memory),
        }
    }
}

impl Listing for MemoryVault {
    ghost names = { λ v. Some (names_in v) };

    fn list(&mut self, alloc: Global) -> Result<Vec<ByteLine>, GetFail>
        ensures ok { IfOk result (λ lines. lines.items ≡ names_in self.old) }
        ensures few { IfOk result (λ lines. vec_len lines ≤ MAX_NAMES) }
        ensures names { Some (names_in self.new) ≡ Some (names_in self.old) }
        ensures trace { Some self.new.trace ≡ Some self.old.trace }
        ensures cause { GetHasCause self.old.faults self.new.faults result }

        ensures as_set { ListsAsSet self.old self.new result }
        ensures plain { IsUntampered self.old → IsUntampered self.new }
    {
        if contains(&self.failing, self.calls.saturating_add(1)) {
            return Err(self.fail_list());
        }
        let lines = names(alloc, &self.files, &self.strange)?;
        if lines.len() > MAX_NAMES {
            return Err(self.fail_list());
        }
        self.calls = self.calls.saturating_add(1);
        Ok(lines)
    }
}
