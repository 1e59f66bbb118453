// What a check found, told.
ghost use Rattle.std.specs.Prelude.{◌≡◌, ◌≤◌, []};
ghost use Rattle.copy_sessions.specs.line_io.Streams.{stream_of};
ghost use Rattle.check_texts.specs.Telling.{AreOwnersTold, IsTold, Lists, ListsAfter, status_of};

use crate::error::PrintError;
use crate::flaws::{print_flaw, print_violation};
use crate::owners::print_owners;
use crate::page::Page;
use crate::strangers::print_strangers;
use block_id::Fail;
use cryfs_check::{Checked, Owners};
use outside::{GetFail, Listing, Sink, Vault};
use run_status::Status;
use std::alloc::Global;

/// Prints what a check found, and gives its status: each block with its owner, and behind them the strangers among the names
/// that the directory then lists; or the line of a flaw or a violation; or nothing where the check failed.
pub fn tell_verdict<O: Sink, V: Vault + Listing>(
    alloc: Global,
    verdict: &Result<Checked, Fail>,
    page: &mut Page,
    output: &mut O,
    vault: &mut V,
) -> Status
    requires { page.old ≡ [] }
    ensures told { IsTold (V.names vault.old) verdict.now (stream_of O.written O.faults output.old output.new) result }
    ensures lists { ListsAfter V.trace V.faults V.names verdict.now vault.old vault.new result }
    ensures grows { O.faults output.old ≤ O.faults output.new }
{
    match verdict {
        Ok(Checked::Yes(owners)) => tell_owners(alloc, owners, page, output, vault),
        Ok(Checked::No(flaw)) => {
            print_flaw(flaw, page, output);
            Status::Violation
        }
        Err(Fail::Violation(why)) => {
            print_violation(why, page, output);
            Status::Violation
        }
        Err(Fail::Fault) => Status::DirectoryFault,
        Err(Fail::Memory) => Status::Memory,
    }
}

/// Prints each block with its owner, and then the strangers among the names that the directory lists.
fn tell_owners<O: Sink, V: Vault + Listing>(
    alloc: Global,
    owners: &Owners,
    page: &mut Page,
    output: &mut O,
    vault: &mut V,
) -> Status
    requires { page.old ≡ [] }
    ensures told { AreOwnersTold (V.names vault.old) owners.now (stream_of O.written O.faults output.old output.new) result }
    ensures lists { Lists V.trace V.faults V.names vault.old vault.new result }
    ensures grows { O.faults output.old ≤ O.faults output.new }
{
    if let Err(error) = print_owners(alloc, owners, page, output) {
        return status_of(error);
    }
    match vault.list(alloc) {
        Ok(names) => match print_strangers(alloc, owners, names, page, output) {
            Ok(()) => Status::Done,
            Err(error) => status_of(error),
        },
        Err(GetFail::Failed) => Status::DirectoryFault,
        Err(GetFail::Memory) => Status::Memory,
    }
}

/// The status of a text that wasn't printed whole.
fn status_of(error: PrintError) -> Status
    ensures { result ≡ status_of error }
{
    match error {
        PrintError::Memory => Status::Memory,
        PrintError::Failed => Status::OutputFault,
    }
}
