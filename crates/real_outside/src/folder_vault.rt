// A real folder as the block directory.
ghost use Rattle.std.specs.Prelude.{◌≡◌, ◌⊎◌, ◌≤◌, List, ◌∷◌, true, false, length, vec_len, is_ok, IfOk, IfSome, OnOk, OnErr};
ghost use Rattle.std.specs.declared.option.Option.{Option};
ghost use Rattle.std.specs.declared.option.Option.TheVariants.{None, Some};
ghost use Rattle.outside.specs.Causes.{GetHasCause};
ghost use Rattle.outside.specs.Trace.{Call, got, put, removed, adds};
ghost use Rattle.outside.specs.View.{at_of, bytes_of};
ghost use Rattle.real_outside.specs.Adapters.{counted};
ghost use Rattle.real_outside.specs.FolderLog.{calls_of};

use crate::error::count;
use crate::folder_log::{note_get, note_put, note_removal};
use crate::folder_run::FolderRun;
use crate::held_folder::HeldFolder;
use crate::lock::Lock;
use call_log::CallLog;
use outside::{ByteLine, FileName, GetFail, Listing, MAX_NAMES, Vault};
use std::alloc::Global;
use std::fs::Files;
use std::marker::Model;

/// A real folder, with a log of the calls on it that no memory holds. The configuration is flushed as it is put, with the names of its file and its folder.
/// Files of blocks are written in place: their bytes are flushed as they are put, their names before a record is saved by the
/// keeper of the same run. From the first call on that finds the folder no other run can use it. When another folder or none
/// lies at its path later, calls fail: no file is answered as missing, and none is put or removed.
#[derive(Drop)]
pub struct FolderVault<'a, R: Files> {
    directory: &'a str,
    folder: HeldFolder<'a, R>,
    log: CallLog,
    faults: u64,
}

impl<'a, R: Files> Model for FolderVault<'a, R> {
    ghost use Rattle.real_outside.specs.Adapters.{FolderVaultState};
    ghost use Rattle.real_outside.specs.FolderLog.{calls_of};

    ghost Value = { FolderVaultState };

    ghost view = { λ v. record { directory = v.directory.now; calls = calls_of v.log.events; faults = v.faults } };
}

impl<'a, R: Files> FolderVault<'a, R>
where
    R::File: Lock,
{
    /// The folder at this path, which needs not be there yet, after the calls of this log. No fault so far.
    pub fn new(files: R, directory: &'a str, run: &'a FolderRun, log: CallLog) -> FolderVault<'a, R>
        ensures { result ≡ record { directory = directory.now; calls = calls_of log.events; faults = 0 } }
    {
        FolderVault {
            directory,
            folder: HeldFolder::new(files, run),
            log,
            faults: 0,
        }
    }

    /// Has it told how many blocks were read, of those that the record knows, where standard error is a terminal.
    pub fn watch(&mut self, rt: HostRuntime)
        ensures { self.new ≡ self.old }
    {
        self.folder.watch(rt);
    }
}

impl<'a, R: Files> Vault for FolderVault<'a, R>
where
    R::File: Lock,
{
    ghost trace = { λ v. Some v.calls };

    ghost faults = { λ v. v.faults };

    fn get(
        &mut self,
        alloc: Global,
        name: &FileName,
        max: usize,
    ) -> Result<Option<Vec<u8>>, GetFail>
        ensures bound { IfOk result (λ answer. IfSome answer (λ bytes. length bytes.items ≤ max)) }
        ensures ok { IfOk result (λ answer. Some self.new.calls ≡ adds (Some self.old.calls) (got (at_of name.now) max (bytes_of answer))) }
        ensures err { OnErr result (Some self.new.calls ≡ Some self.old.calls) }
        ensures cause { GetHasCause self.old.faults self.new.faults result }

        ensures counts { self.new.faults ≡ counted result self.old.faults }
        ensures path { self.new.directory ≡ self.old.directory }
    {
        let answer = self.folder.read(alloc, self.directory, name, max);
        let answer = count(&mut self.faults, answer);
        note_get(&mut self.log, name, max, &answer);
        answer
    }

    fn put(&mut self, alloc: Global, name: &FileName, bytes: &[u8]) -> Result<(), GetFail>
        ensures ok { OnOk result (Some self.new.calls ≡ adds (Some self.old.calls) (put (at_of name.now) bytes.now true)) }
        ensures err { OnErr result ((Some self.new.calls ≡ Some self.old.calls)
            ⊎ (Some self.new.calls ≡ adds (Some self.old.calls) (put (at_of name.now) bytes.now false))) }
        ensures cause { GetHasCause self.old.faults self.new.faults result }

        ensures noted { self.new.calls ≡ put (at_of name.now) bytes.now (is_ok result) ∷ self.old.calls }
        ensures counts { self.new.faults ≡ counted result self.old.faults }
        ensures path { self.new.directory ≡ self.old.directory }
    {
        let answer = self.folder.write(alloc, self.directory, name, bytes);
        let answer = count(&mut self.faults, answer);
        note_put(&mut self.log, name, bytes, answer.is_ok());
        answer
    }

    fn remove(&mut self, alloc: Global, name: &FileName) -> Result<(), GetFail>
        ensures ok { OnOk result (Some self.new.calls ≡ adds (Some self.old.calls) (removed (at_of name.now) true)) }
        ensures err { OnErr result ((Some self.new.calls ≡ Some self.old.calls)
            ⊎ (Some self.new.calls ≡ adds (Some self.old.calls) (removed (at_of name.now) false))) }
        ensures cause { GetHasCause self.old.faults self.new.faults result }

        ensures noted { self.new.calls ≡ removed (at_of name.now) (is_ok result) ∷ self.old.calls }
        ensures counts { self.new.faults ≡ counted result self.old.faults }
        ensures path { self.new.directory ≡ self.old.directory }
    {
        let answer = self.folder.delete(alloc, self.directory, name);
        let answer = count(&mut self.faults, answer);
        note_removal(&mut self.log, name, answer.is_ok());
        answer
    }
}

impl<'a, R: Files + Alloc + Clone + Eprint + Drop> Listing for FolderVault<'a, R>
where
    R::File: Lock,
{
    ghost names = { λ _. None };

    fn list(&mut self, alloc: Global) -> Result<Vec<ByteLine>, GetFail>
        ensures ok { IfOk result (λ lines. IfSome None (λ told. lines.items ≡ told)) }
        ensures few { IfOk result (λ lines. vec_len lines ≤ MAX_NAMES) }
        ensures trace { Some self.new.calls ≡ Some self.old.calls }
        ensures cause { GetHasCause self.old.faults self.new.faults result }

        ensures counts { self.new.faults ≡ counted result self.old.faults }
        ensures path { self.new.directory ≡ self.old.directory }
    {
        let answer = self.folder.names(alloc, self.directory);
        count(&mut self.faults, answer)
    }
}
