// What a survey found, told.
ghost use Rattle.std.specs.Prelude.{◌≡◌, ◌≤◌, []};
ghost use Rattle.copy_sessions.specs.line_io.Streams.{stream_of};
ghost use Rattle.check_texts.specs.Surveys.{AreUngivenTold, IsSurveyTold, status_found};
ghost use Rattle.check_texts.specs.Telling.{ListsAfter};

use crate::counting::count_refused;
use crate::error::PrintError;
use crate::page::Page;
use crate::refused::{print_first, print_ungiven};
use crate::telling::tell_verdict;
use block_id::{Fail, Memory};
use check_refused::Ungiven;
use cryfs_check::Checked;
use outside::{Listing, Sink, Vault};
use run_status::Status;
use std::alloc::Global;

/// Prints what a check found, and gives its status: after a flaw, a violation or a fault its line, each block that isn't given,
/// and how many they are; else what a check tells alone. Where a block is refused it is a violation, whatever failed besides.
pub fn tell_survey<O: Sink, V: Vault + Listing>(
    alloc: Global,
    verdict: &Result<Checked, Fail>,
    ungiven: &[Ungiven],
    end: &Result<(), Memory>,
    page: &mut Page,
    output: &mut O,
    vault: &mut V,
) -> Status
    requires { page.old ≡ [] }
    ensures told { IsSurveyTold (V.names vault.old) verdict.now ungiven.now end.now (stream_of O.written O.faults output.old output.new) result }
    ensures lists { ListsAfter V.trace V.faults V.names verdict.now vault.old vault.new result }
    ensures grows { O.faults output.old ≤ O.faults output.new }
{
    match verdict {
        Ok(Checked::No(_)) | Err(Fail::Violation(_) | Fail::Fault) => {
            tell_ungiven(verdict, ungiven, end, page, output)
        }
        Ok(Checked::Yes(_)) | Err(Fail::Memory) => {
            tell_verdict(alloc, verdict, page, output, vault)
        }
    }
}

/// Prints what was found, and the blocks that aren't given.
fn tell_ungiven<O: Sink>(
    verdict: &Result<Checked, Fail>,
    ungiven: &[Ungiven],
    end: &Result<(), Memory>,
    page: &mut Page,
    output: &mut O,
) -> Status
    requires { page.old ≡ [] }
    ensures told { AreUngivenTold verdict.now ungiven.now end.now (stream_of O.written O.faults output.old output.new) result }
    ensures grows { O.faults output.old ≤ O.faults output.new }
{
    match print_first(verdict, page, output) {
        Ok(()) => {}
        Err(_failed) => return Status::OutputFault,
    }
    match print_ungiven(ungiven, end, page, output) {
        Ok(()) => match end {
            Ok(()) => status_found(verdict, count_refused(ungiven)),
            Err(Memory) => Status::Memory,
        },
        Err(PrintError::Memory) => Status::Memory,
        Err(PrintError::Failed) => Status::OutputFault,
    }
}

/// The status of what was found, of which so many blocks are refused.
fn status_found(verdict: &Result<Checked, Fail>, refused: usize) -> Status
    ensures { result ≡ status_found verdict.now refused }
{
    match verdict {
        Err(Fail::Fault) => {
            if refused == 0 {
                Status::DirectoryFault
            } else {
                Status::Violation
            }
        }
        Ok(_) | Err(Fail::Memory | Fail::Violation(_)) => Status::Violation,
    }
}
