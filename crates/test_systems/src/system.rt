// A directory and a record in memory, and runs over them.
ghost use Rattle.std.specs.Prelude.{◌≡◌, ◌&&◌, ◌∷◌, ◌++◌, [], max, codes, IfOk};
ghost use Rattle.std.specs.Str.{bytes_eq};
ghost use Rattle.std.specs.String.{string_bytes};
ghost use Rattle.outside.specs.View.{bytes_of};
ghost use Rattle.memory_outside.specs.Vaults.{restarted};
ghost use Rattle.test_systems.specs.Runs.{same_status};

use crate::random::ZEROS;
use cryfs_shell::{Ended, Request, Status, Storage, run};
use fs_model::Moment;
use memory_host_folder::MemoryFolder;
use memory_host_folder::host_attributes::Attributed;
use memory_outside::{MemoryKeeper, MemorySink, MemorySource, MemoryVault};
use rand_core::Rng;
use std::alloc::{AllocError, Global};
use std::test::Fail;

/// What a run is given and gives back.
#[derive(Drop)]
pub struct System {
    pub vault: MemoryVault,
    pub keeper: MemoryKeeper,
}

/// A run: its words, its input in pieces of so many bytes, the moment, and the numbers of the calls that fail, of the
/// source and of the sink.
#[derive(Clone, Copy)]
pub struct Run<'a> {
    pub words: &'a [&'a str],
    pub input: &'a [u8],
    pub piece: usize,
    pub secs: u64,
    pub nanos: u32,
    pub reads: &'a [u64],
    pub writes: &'a [u64],
}

/// A run at 100.000000005 whose streams don't fail.
pub fn plain<'a>(words: &'a [&'a str], input: &'a str) -> Run<'a>
    ensures given { (result.words.now ≡ words.now) × (result.input.now ≡ input.now) }
    ensures piece { result.piece ≡ 7 }
    ensures moment { (result.secs ≡ 100) × (result.nanos ≡ 5) }
    ensures fails { (result.reads.now ≡ []) × (result.writes.now ≡ []) }
{
    Run {
        words,
        input: input.as_bytes(),
        piece: 7,
        secs: 100,
        nanos: 5,
        reads: &[],
        writes: &[],
    }
}

/// Nothing is kept, and the directory is empty.
pub fn nothing(alloc: Global) -> System
    ensures { (result.vault.files ≡ []) × (result.keeper.kept ≡ None) }
{
    System {
        vault: MemoryVault::new(alloc),
        keeper: MemoryKeeper::new(alloc, None, Vec::new(alloc)),
    }
}

/// A run's input.
fn source(alloc: Global, case: &Run<'_>) -> Result<MemorySource, AllocError>
    ensures { IfOk result (λ source. source ≡ record { rest = case.now.input.now; piece = max case.now.piece 1; fails = case.now.reads.now; calls = 0; faults = 0 }) }
{
    let piece = case.piece.max(1);
    Ok(MemorySource::new(case.input.to_vec(alloc)?, piece, case.reads.to_vec(alloc)?))
}

/// Where a run writes.
fn sink(alloc: Global, case: &Run<'_>) -> Result<MemorySink, AllocError>
    ensures piece { IfOk result (λ sink. sink.piece ≡ max case.now.piece 1) }
    ensures fails { IfOk result (λ sink. sink.fails ≡ case.now.writes.now) }
{
    let piece = case.piece.max(1);
    match MemorySink::new(alloc, piece, 1 << 20, case.writes.to_vec(alloc)?) {
        Ok(sink) => Ok(sink),
        Err(_) => Err(AllocError),
    }
}

/// What a run writes, its status, and what it gives back. There is nothing in the host folder.
pub fn outcome<R: Rng>(
    alloc: Global,
    system: System,
    case: &Run<'_>,
    chance: &mut R,
) -> Result<(Vec<u8>, Status, System), AllocError> {
    outcome_beside(alloc, system, case, &mut MemoryFolder::new(alloc), chance)
}

/// The same beside this folder.
pub fn outcome_beside<F: Attributed, R: Rng>(
    alloc: Global,
    system: System,
    case: &Run<'_>,
    host: &mut F,
    chance: &mut R,
) -> Result<(Vec<u8>, Status, System), AllocError> {
    let mut words = Vec::new(alloc);
    for word in case.words {
        words.push(String::from_str(alloc, word)?)?;
    }
    let Some(now) = Moment::new(case.secs, case.nanos) else {
        return Err(AllocError);
    };
    let mut input = source(alloc, case)?;
    let mut output = sink(alloc, case)?;
    let System { vault, keeper } = system;
    let Ended {
        status,
        vault,
        keeper,
    } = run(
        alloc,
        Request { words: &words, now },
        &mut input,
        &mut output,
        Storage { vault, keeper },
        chance,
        host,
    );
    Ok((
        output.written().to_vec(alloc)?,
        status,
        System { vault, keeper },
    ))
}

/// Whether a run wrote this text and ended with this status.
fn is_as_wanted(written: &[u8], ended: Status, text: &str, status: Status) -> bool
    ensures { result ≡ (same_status ended status && bytes_eq written.now text.now) }
{
    ended == status && written == text.as_bytes()
}

/// A run with zeros for random bytes, which has to write this text and end with this status.
pub fn expect(
    alloc: Global,
    system: System,
    case: &Run<'_>,
    text: &str,
    status: Status,
) -> Result<System, Fail> {
    expect_beside(
        alloc,
        system,
        case,
        &mut MemoryFolder::new(alloc),
        text,
        status,
    )
}

/// The same beside this folder.
pub fn expect_beside<F: Attributed>(
    alloc: Global,
    system: System,
    case: &Run<'_>,
    host: &mut F,
    text: &str,
    status: Status,
) -> Result<System, Fail> {
    let mut zeros = ZEROS;
    let (written, ended, after) = outcome_beside(alloc, system, case, host, &mut zeros)?;
    if !is_as_wanted(&written, ended, text, status) {
        let shown = str::from_utf8(written.as_slice()).unwrap_or("bytes");
        return Err(Fail::new(format_args!(
            "{} after {shown:?} and not {} after {text:?}",
            ended.code(),
            status.code()
        )));
    }
    Ok(after)
}

/// What a new file system writes, where the random bytes are zeros.
pub const CREATED: &str = "created 00000000000000000000000000000000\n";

/// A new file system under the password `pw`.
pub fn new_system(alloc: Global) -> Result<System, Fail> {
    let words = ["create", "--scrypt-n", "16"];
    expect(
        alloc,
        nothing(alloc),
        &plain(&words, "pw"),
        CREATED,
        Status::Done,
    )
}

/// The lines after the password line.
pub fn script(alloc: Global, lines: &str) -> Result<String, AllocError>
    ensures { IfOk result (λ input. string_bytes input ≡ codes "pw" ++ 10 ∷ lines.now) }
{
    format!(in alloc; "pw\n{lines}")
}

/// A session of these lines, which has to write this text and end with this status.
pub fn session(
    alloc: Global,
    system: System,
    lines: &str,
    text: &str,
    status: Status,
) -> Result<System, Fail> {
    let input = script(alloc, lines)?;
    expect(alloc, system, &plain(&["shell"], &input), text, status)
}

/// A copy of what is kept.
fn copy_record(alloc: Global, keeper: &MemoryKeeper) -> Result<Option<Vec<u8>>, AllocError>
    ensures { IfOk result (λ copied. bytes_of copied ≡ keeper.now.kept) }
{
    match keeper.kept() {
        Some(bytes) => Ok(Some(bytes.to_vec(alloc)?)),
        None => Ok(None),
    }
}

/// The same files and record, where the saves of these numbers fail, counted from 1 from here on, and where such a save
/// keeps its record as is said beside its number.
pub fn failing_saves(
    alloc: Global,
    system: System,
    fails: Vec<(u64, bool)>,
) -> Result<System, AllocError>
    ensures directory { IfOk result (λ after. after.vault ≡ system.vault) }
    ensures kept { IfOk result (λ after. after.keeper.kept ≡ system.keeper.kept) }
    ensures listed { IfOk result (λ after. after.keeper.failing ≡ fails.items) }
{
    let System { vault, keeper } = system;
    let kept = copy_record(alloc, &keeper)?;
    Ok(System {
        vault,
        keeper: MemoryKeeper::new(alloc, kept, fails),
    })
}

/// The same files and record, where nothing fails any more.
pub fn mended(alloc: Global, system: System) -> Result<System, AllocError>
    ensures directory { IfOk result (λ after. after.vault ≡ record (restarted system.vault) { failing = []; failing_from = Some u64.MAX }) }
    ensures kept { IfOk result (λ after. after.keeper.kept ≡ system.keeper.kept) }
    ensures none_listed { IfOk result (λ after. after.keeper.failing ≡ []) }
{
    let mut system = failing_saves(alloc, system, Vec::new(alloc))?;
    system.vault.fail_calls(Vec::new(alloc));
    system.vault.fail_from(u64::MAX);
    Ok(system)
}
