// The blocks that aren't given, as lines.
ghost use Rattle.std.specs.Prelude.{◌≡◌, ◌≤◌, ◌<◌, ◌+◌, [], length, map, vec_capacity, OnErr, IfErr};
ghost use Rattle.std.specs.List.{flat_map};
ghost use Rattle.check_refused.specs.Surveys.{ungiven_of};
ghost use Rattle.copy_sessions.specs.line_io.Streams.{stream_of};
ghost use Rattle.copy_sessions.specs.script_text.Appending.{Appends};
ghost use Rattle.check_texts.specs.Printing.{Prints, IsPrinted};
ghost use Rattle.check_texts.specs.Refusals.{first_text, loss_text, place_text, rest_text, total_text, totals_text, ungiven_line, where_text};
ghost use Rattle.check_texts.specs.Texts.{violation_text};
ghost use Rattle.check_texts.specs.declared.error.PrintError.TheVariants.{Failed};

use crate::counting::count_refused;
use crate::error::PrintError;
use crate::flaws::push_flaw;
use crate::page::Page;
use block_id::{BlockId, Fail, Memory, Why};
use check_refused::Ungiven;
use copy_sessions::answers::{Answer, print_answer};
use copy_sessions::push_path;
use copy_sessions::script_text::{push_bytes, push_decimal};
use cryfs_check::Checked;
use fs_model::Path;
use outside::Sink;

/// Prints the line of a flaw, a violation or a fault, for which there is room.
pub fn print_first<O: Sink>(
    verdict: &Result<Checked, Fail>,
    page: &mut Page,
    output: &mut O,
) -> Result<(), PrintError>
    requires { page.old ≡ [] }
    ensures printed { IsPrinted (stream_of O.written O.faults output.old output.new) (first_text verdict.now) page.new result }
    ensures failed { IfErr result (λ error. error ≡ Failed) }
    ensures grows { O.faults output.old ≤ O.faults output.new }
{
    match push_first(&mut page.bytes, verdict) {
        Ok(()) => page.write(output),
        Err(Memory) => unreachable!(),
    }
}

/// Prints each block that isn't given with its path, and then how many they are, where all blocks were asked for.
pub fn print_ungiven<O: Sink>(
    ungiven: &[Ungiven],
    end: &Result<(), Memory>,
    page: &mut Page,
    output: &mut O,
) -> Result<(), PrintError>
    requires { page.old ≡ [] }
    ensures printed { IsPrinted (stream_of O.written O.faults output.old output.new) (rest_text ungiven.now end.now) page.new result }
    ensures grows { O.faults output.old ≤ O.faults output.new }
{
    print_each(ungiven, page, output)?;
    print_totals(ungiven, end, page, output)?;
    page.write(output)
}

/// Prints each block with its path, and why it isn't given.
fn print_each<O: Sink>(
    ungiven: &[Ungiven],
    page: &mut Page,
    output: &mut O,
) -> Result<(), PrintError>
    ensures printed { Prints (stream_of O.written O.faults output.old output.new) page.old (flat_map ungiven_line ungiven.now) page.new result }
    ensures grows { O.faults output.old ≤ O.faults output.new }
{
    for block in ungiven {
        print_one(block, page, output)?;
    }
    Ok(())
}

/// Prints a block with its path, and why it isn't given.
fn print_one<O: Sink>(block: &Ungiven, page: &mut Page, output: &mut O) -> Result<(), PrintError>
    ensures printed { Prints (stream_of O.written O.faults output.old output.new) page.old (ungiven_line block.now) page.new result }
    ensures grows { O.faults output.old ≤ O.faults output.new }
{
    push_ungiven(&mut page.bytes, block)?;
    page.turn(output)
}

/// Prints how many blocks are refused, and of how many the call failed.
fn print_totals<O: Sink>(
    ungiven: &[Ungiven],
    end: &Result<(), Memory>,
    page: &mut Page,
    output: &mut O,
) -> Result<(), PrintError>
    ensures printed { Prints (stream_of O.written O.faults output.old output.new) page.old (totals_text (map ungiven_of ungiven.now) end.now) page.new result }
    ensures grows { O.faults output.old ≤ O.faults output.new }
{
    push_totals(&mut page.bytes, ungiven, end)?;
    page.turn(output)
}

/// Appends the line of a flaw, a violation or a fault.
fn push_first(out: &mut Vec<u8>, verdict: &Result<Checked, Fail>) -> Result<(), Memory>
    ensures text { Appends out.old out.new result (first_text verdict.now) }
    ensures short { OnErr result (vec_capacity out.old < length out.old.items + 256) }
{
    match verdict {
        Ok(Checked::No(flaw)) => push_flaw(out, flaw),
        Err(Fail::Violation(why)) => push_violation(out, why),
        Err(Fail::Fault) => push_bytes(out, b"fault directory\n"),
        Ok(Checked::Yes(_)) | Err(Fail::Memory) => Ok(()),
    }
}

/// Appends the line of a block with its path, and why it isn't given.
fn push_ungiven(out: &mut Vec<u8>, block: &Ungiven) -> Result<(), Memory>
    ensures { Appends out.old out.new result (ungiven_line block.now) }
{
    push_place(out, &block.id, &block.path)?;
    push_bytes(out, b" ")?;
    push_loss(out, &block.why)
}

/// Appends a block and its path.
fn push_place(out: &mut Vec<u8>, id: &BlockId, path: &Option<Path>) -> Result<(), Memory>
    ensures { Appends out.old out.new result (place_text id.now.0 path.now) }
{
    push_bytes(out, b"block ")?;
    push_bytes(out, &id.to_name())?;
    push_bytes(out, b" ")?;
    push_where(out, path)
}

/// Appends the text of a path, or a question mark where it isn't known.
fn push_where(out: &mut Vec<u8>, path: &Option<Path>) -> Result<(), Memory>
    ensures { Appends out.old out.new result (where_text path.now) }
{
    match path {
        Some(path) => push_path(out, path.names()),
        None => push_bytes(out, b"?"),
    }
}

/// Appends the end of a line: the verdict, or that the call failed.
fn push_loss(out: &mut Vec<u8>, why: &Option<Why>) -> Result<(), Memory>
    ensures { Appends out.old out.new result (loss_text why.now) }
{
    match why {
        Some(why) => push_violation(out, why),
        None => push_bytes(out, b"fault\n"),
    }
}

/// Appends the line of a violation, as sessions answer it.
fn push_violation(out: &mut Vec<u8>, why: &Why) -> Result<(), Memory>
    ensures text { Appends out.old out.new result (violation_text why.now) }
    ensures short { OnErr result (vec_capacity out.old < length out.old.items + 256) }
{
    print_answer(&Answer::Violation(*why), out)
}

/// Appends how many blocks are refused and of how many the call failed, where all were asked for.
fn push_totals(
    out: &mut Vec<u8>,
    ungiven: &[Ungiven],
    end: &Result<(), Memory>,
) -> Result<(), Memory>
    ensures { Appends out.old out.new result (totals_text (map ungiven_of ungiven.now) end.now) }
{
    if end.is_err() {
        return Ok(());
    }
    let refused = count_refused(ungiven);
    push_total(out, b"refused", refused as u64)?;
    push_total(out, b"failed", (ungiven.len() - refused) as u64)
}

/// Appends the line of a count.
fn push_total(out: &mut Vec<u8>, name: &[u8], count: u64) -> Result<(), Memory>
    ensures { Appends out.old out.new result (total_text name.now count) }
{
    push_bytes(out, name)?;
    push_decimal(out, count)?;
    push_bytes(out, b"\n")
}
