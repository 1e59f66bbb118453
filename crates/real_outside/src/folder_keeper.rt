// A file of a real folder as the local record.
ghost use Rattle.std.specs.Prelude.{◌≡◌, ◌⊎◌, ◌≤◌, ◌∷◌, length, is_ok, IfOk, OnOk, OnErr, IsTrue, if◌then◌else◌};
ghost use Rattle.std.specs.declared.option.Option.TheVariants.{None, Some};
ghost use Rattle.std.specs.Option.{option_map};
ghost use Rattle.outside.specs.Causes.{GetHasCause};
ghost use Rattle.outside.specs.View.{bytes_of};
ghost use Rattle.real_outside.specs.Adapters.{counted, kept_in};
ghost use Rattle.real_outside.specs.Faults.{CountsErrors};
ghost use Rattle.real_outside.specs.Saves.{save_of};

use crate::error::{FolderError, count};
use crate::flush_helper::FlushHelper;
use crate::folder_log::note_save;
use crate::folder_run::FolderRun;
use crate::lock::Lock;
use crate::record_file::RecordFile;
use call_log::CallLog;
use outside::{Failed, GetFail, Keeper, KeptRecord, Memory, WholeKeeper};
use std::alloc::Global;
use std::fs::Files;
use std::io;
use std::marker::Model;

/// The record in a file of a real folder. What is kept is what the file held as this was made, where it was read then, or what
/// was saved last since; a load finds out whether the file still holds that. A save that failed may have replaced it: the choices
/// say whether it did, and each load after it fails. From the first load or save on no other run can load or save.
/// A save first flushes the names of the blocks' files that this run wrote or removed, and has a helper flush what is left to it, unless
/// the record is marked.
#[derive(Drop)]
pub struct FolderKeeper<'a, R: Files> {
    run: &'a FolderRun,
    file: RecordFile<R>,
    /// What was read or saved last.
    known: KeptRecord,
    /// Whether that is what is kept.
    is_known: bool,
    saves: CallLog,
    choices: CallLog,
    faults: u64,
}

impl<'a, R: Files> Model for FolderKeeper<'a, R> {
    ghost use Rattle.std.specs.Prelude.{◌≡◌, true};
    ghost use Rattle.real_outside.specs.Adapters.{FolderKeeperState};
    ghost use Rattle.real_outside.specs.Saves.{kept_by};

    ghost Value = { FolderKeeperState };

    ghost view = { λ k. record { saves = k.saves.events; choices = k.choices.events; room = k.known.room; faults = k.faults } };

    ghost invariant = { λ k. k.is_known ≡ true → k.known.kept ≡ kept_by k.saves.events k.choices.events };
}

impl<'a, R: Files + Drop> FolderKeeper<'a, R>
where
    R::File: Lock,
{
    /// The record in the folder at this path, which needs not be there yet. Its file is read, and nothing is made. Which of the
    /// saves that will fail are kept these choices say: choice n, from 0, speaks of the save behind n others, among which the
    /// record that is found counts, and has 1 as its first number where that save is kept. No fault so far.
    pub fn new(
        alloc: Global,
        files: R,
        folder: &str,
        run: &'a FolderRun,
        choices: CallLog,
    ) -> Result<FolderKeeper<'a, R>, Memory>
        ensures faults { IfOk result (λ keeper. keeper.faults ≡ 0) }
        ensures choices { IfOk result (λ keeper. keeper.choices ≡ choices.events) }
    {
        let file = RecordFile::new(alloc, files, folder, run.ending())?;
        let found = unless_failed(file.read(alloc))?;
        Ok(FolderKeeper::holding(alloc, run, file, found, choices))
    }

    /// The same for a run that doesn't use the record: its file isn't looked at, and counts as not there. So a load fails
    /// where it is. No fault so far.
    pub fn unread(
        alloc: Global,
        files: R,
        folder: &str,
        run: &'a FolderRun,
        choices: CallLog,
    ) -> Result<FolderKeeper<'a, R>, Memory>
        ensures kept { IfOk result (λ keeper. kept_in keeper ≡ None) }
        ensures faults { IfOk result (λ keeper. keeper.faults ≡ 0) }
        ensures choices { IfOk result (λ keeper. keeper.choices ≡ choices.events) }
    {
        let file = RecordFile::new(alloc, files, folder, run.ending())?;
        Ok(FolderKeeper::holding(alloc, run, file, None, choices))
    }

    /// Takes a helper. Where its folder is the block folder that the run holds, blocks' files aren't flushed one by one: a save that isn't
    /// of a marked record asks the helper first, and fails where that doesn't answer that it flushed them.
    pub fn lend(&mut self, helper: FlushHelper<R::File>)
        ensures { self.new ≡ self.old }
    {
        self.file.lend(self.run, helper);
    }

    /// The record of this file, in which this was found.
    fn holding(
        alloc: Global,
        run: &'a FolderRun,
        file: RecordFile<R>,
        found: Option<Vec<u8>>,
        choices: CallLog,
    ) -> FolderKeeper<'a, R>
        ensures kept { kept_in result ≡ bytes_of found }
        ensures faults { result.faults ≡ 0 }
        ensures choices { result.choices ≡ choices.events }
    {
        let mut saves = CallLog::new();
        if let Some(bytes) = &found {
            note_save(&mut saves, bytes, true);
        }
        FolderKeeper {
            run,
            file,
            known: KeptRecord::new(alloc, found),
            is_known: true,
            saves,
            choices,
            faults: 0,
        }
    }
}

/// What was read, or nothing where the system failed.
fn unless_failed(answer: Result<Option<Vec<u8>>, FolderError>) -> Result<Option<Vec<u8>>, Memory> {
    match answer {
        Ok(found) => Ok(found),
        Err(FolderError::Memory(_)) => Err(Memory),
        Err(FolderError::Io(_)) => Ok(None),
    }
}

/// What was loaded, where that is what is kept.
fn if_kept(
    loaded: Result<Option<Vec<u8>>, FolderError>,
    kept: Option<&[u8]>,
) -> Result<Option<Vec<u8>>, FolderError>
    ensures { IfOk result (λ answer. bytes_of answer ≡ option_map (λ bytes. bytes.now) kept.entry) }
{
    match loaded {
        Ok(found) if is_same(&found, kept) => Ok(found),
        Ok(_) => Err(FolderError::Io(io::Error::other("another run changed the record"))),
        Err(error) => Err(error),
    }
}

fn is_same(found: &Option<Vec<u8>>, kept: Option<&[u8]>) -> bool
    ensures { IsTrue result → bytes_of found.now ≡ option_map (λ bytes. bytes.now) kept.entry }
{
    match (found, kept) {
        (Some(found), Some(kept)) => found.as_slice() == kept,
        (None, None) => true,
        _ => false,
    }
}

impl<'a, R: Files + Drop> Keeper for FolderKeeper<'a, R>
where
    R::File: Lock,
{
    ghost kept = { λ k. kept_in k };

    ghost room = { λ k. k.room };

    ghost faults = { λ k. k.faults };

    ghost takes = { λ bytes. Unit {0} };

    fn load(&mut self, alloc: Global) -> Result<Option<Vec<u8>>, GetFail>
        ensures ok { IfOk result (λ answer. bytes_of answer ≡ kept_in self.old) }
        ensures kept { kept_in self.new ≡ kept_in self.old }
        ensures room { self.old.room ≤ self.new.room }
        ensures cause { GetHasCause self.old.faults self.new.faults result }

        ensures counts { self.new ≡ record self.old { faults = counted result self.old.faults } }
    {
        let loaded = self.file.load(alloc);
        if let Ok(Some(record)) = &loaded {
            self.run.know(record);
        }
        let answer = if self.is_known {
            if_kept(loaded, self.known.get())
        } else {
            Err(FolderError::Io(io::Error::other("a save failed, so that the record isn't known")))
        };
        count(&mut self.faults, answer)
    }

    fn prepare(&mut self, alloc: Global, len: usize) -> Result<(), Memory> {
        let _ = alloc;
        self.known.prepare(len)
    }

    fn save(&mut self, bytes: &[u8]) -> Result<(), Failed>
        requires { length bytes.now ≤ self.old.room }
        ensures ok { OnOk result (Unit {0} → kept_in self.new ≡ Some bytes.now) }
        ensures err { OnErr result (Unit {0} → (kept_in self.new ≡ kept_in self.old) ⊎ (kept_in self.new ≡ Some bytes.now)) }
        ensures room { self.old.room ≤ self.new.room }
        ensures faults { CountsErrors self.old.faults self.new.faults result }

        ensures noted { self.new.saves ≡ save_of (if is_ok result then 1 else 0) bytes.now ∷ self.old.saves }
        ensures choices { self.new.choices ≡ self.old.choices }
    {
        self.is_known = self.file.write(self.run, bytes).is_ok();
        note_save(&mut self.saves, bytes, self.is_known);
        if !self.is_known {
            self.faults = self.faults.saturating_add(1);
            return Err(Failed);
        }
        self.known.keep(bytes);
        Ok(())
    }

    ghost takes_plain = { λ bytes plain. tt };
}

impl<'a, R: Files + Drop> WholeKeeper for FolderKeeper<'a, R>
where
    R::File: Lock,
{
    ghost takes_all = { λ bytes. tt };
}
