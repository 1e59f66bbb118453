// A file system that is made in memory, and one session over it.
ghost use Rattle.std.specs.Prelude.{◌≡◌, ◌≢◌, true, false, ◌<◌, ◌^◌, ◌++◌, ◌∷◌, List, [], map, length, IfOk, IfErr, codes};
ghost use Rattle.std.specs.String.{string_bytes};
ghost use Rattle.program_laws.specs.Honest.{IsHonestSource};
ghost use Rattle.program_laws.specs.Made.{password, HoldsEmptyTree, IsWantOfMemory};
ghost use Rattle.program_laws.specs.Transcript.{IsTranscript};

use crate::{
    HonestKeeper, HonestSink, HonestSource, HonestVault, sessions_complete, setups_complete,
};
use cryfs_shell::{Ended, Request, Status, Storage, run};
use fs_model::Moment;
use memory_host_folder::MemoryFolder;
use rand_core::Rng;
use session_laws::honest_runs_are_unforged;
use std::alloc::{AllocError, Global};

const PASSWORD: &str = "password";

/// The password's line, and these bytes behind it.
fn input_of(alloc: Global, script: &[u8]) -> Result<HonestSource, AllocError>
    ensures rest { IfOk result (λ source. source.rest ≡ password ++ 10 ∷ script.now) }
    ensures few { IfOk result (λ source. length source.rest < 2 ^ 63) }
    ensures honest { IfOk result IsHonestSource }
{
    let mut bytes = PASSWORD.as_bytes().to_vec(alloc)?;
    bytes.push(b'\n')?;
    bytes.extend_from_slice(script)?;
    Ok(HonestSource::new(alloc, bytes))
}

/// A list of this word.
fn only_word(alloc: Global, word: &str) -> Result<Vec<String>, AllocError>
    ensures { IfOk result (λ words. map string_bytes words.items ≡ word.now ∷ []) }
{
    let mut words = Vec::new(alloc);
    words.push(String::from_str(alloc, word)?)?;
    Ok(words)
}

fn is_done(status: Status) -> bool
    ensures yes { result ≡ true → status ≡ Status.Done }
    ensures no { result ≡ false → status ≢ Status.Done }
{
    matches!(status, Status::Done)
}

/// A new file system with the empty tree.
fn make<R: Rng>(
    alloc: Global,
    now: Moment,
    chance: &mut R,
) -> Result<Ended<HonestVault, HonestKeeper>, Status>
    ensures made { IfOk result (λ ended. HoldsEmptyTree ended.vault ended.keeper) }
    ensures want { IfErr result IsWantOfMemory }
{
    let (Ok(words), Ok(mut input)) = (only_word(alloc, "create"), input_of(alloc, &[])) else {
        return Err(Status::Memory);
    };
    let mut output = HonestSink::new(alloc);
    let ended = run(
        alloc,
        Request { words: &words, now },
        &mut input,
        &mut output,
        Storage {
            vault: HonestVault::new(alloc),
            keeper: HonestKeeper::new(alloc),
        },
        chance,
        &mut MemoryFolder::new(alloc),
    );
    setups_complete::<HonestVault, HonestKeeper>();
    ended.vault.attest();
    ended.keeper.attest();
    input.attest();
    if is_done(ended.status) {
        Ok(ended)
    } else {
        Err(ended.status)
    }
}

/// What a session of these lines over such a file system writes.
fn serve<R: Rng>(
    alloc: Global,
    now: Moment,
    script: &[u8],
    made: Ended<HonestVault, HonestKeeper>,
    chance: &mut R,
) -> Result<Vec<u8>, Status>
    requires { HoldsEmptyTree made.vault made.keeper }
    ensures transcript { IfOk result (λ text. IsTranscript now script.now text.items) }
    ensures want { IfErr result IsWantOfMemory }
{
    let (Ok(words), Ok(mut input)) = (only_word(alloc, "shell"), input_of(alloc, script)) else {
        return Err(Status::Memory);
    };
    let mut output = HonestSink::new(alloc);
    made.vault.attest();
    made.keeper.attest();
    let ended = run(
        alloc,
        Request { words: &words, now },
        &mut input,
        &mut output,
        Storage {
            vault: made.vault,
            keeper: made.keeper,
        },
        chance,
        &mut MemoryFolder::new(alloc),
    );
    sessions_complete::<HonestVault, HonestKeeper>();
    honest_runs_are_unforged();
    ended.vault.attest();
    ended.keeper.attest();
    input.attest();
    if is_done(ended.status) {
        Ok(output.into_written())
    } else {
        Err(ended.status)
    }
}

/// Makes a file system in memory, asks it the lines of this script in one session, and gives what that wrote. Nothing is
/// assumed of anything: each line got the plain tree's reply, or memory was refused for it. An error says that memory was
/// refused: to the program, or to the sink for the text.
pub fn run_in_memory<R: Rng>(
    alloc: Global,
    now: Moment,
    script: &[u8],
    chance: &mut R,
) -> Result<Vec<u8>, Status>
    ensures transcript { IfOk result (λ text. IsTranscript now script.now text.items) }
    ensures want { IfErr result IsWantOfMemory }
{
    let made = make(alloc, now, chance)?;
    serve(alloc, now, script, made, chance)
}
