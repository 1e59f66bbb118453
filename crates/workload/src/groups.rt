// The commands that numbers make.
ghost use Rattle.std.specs.Prelude.{◌≡◌, ◌≤◌, ◌<◌, ◌%◌, replicate, IfOk};
ghost use Rattle.fs_model.specs.Fitting.{IsFitting};
ghost use Rattle.workload.specs.Generated.{generated_of, group_of, size_of, directory_of, numbered, folder, child};

use block_id::Memory;
use fs_model::{ByteText, Command, Name, Path};
use std::alloc::Global;

/// The numbers of a group's commands.
const GROUP: u64 = 8;

/// Bytes that a group's write puts.
const WRITTEN: usize = 40;

/// The `i`-th command. Eight in a row make a directory, a file in it, write, rename and cut it, link to
/// it, read it and remove the link.
#[tactic(auto, unfolding(crate::specs::Generated::generated_of))]
pub fn generated(alloc: Global, i: u64) -> Result<Command, Memory>
    ensures command { IfOk result (λ command. command ≡ generated_of i) }
    ensures fits { IfOk result IsFitting }
{
    let k = i / GROUP;
    match i % GROUP {
        0 => Ok(Command::Mkdir(folder(alloc, k)?)),
        1 => Ok(Command::Mkfile(child(alloc, k, b'f')?)),
        2 => write(alloc, k),
        3 => mv(alloc, k),
        4 => Ok(Command::Truncate(child(alloc, k, b'g')?, size_of(k))),
        5 => symlink(alloc, k),
        6 => Ok(Command::Read(child(alloc, k, b'g')?, 0, 1000)),
        _ => Ok(Command::Rm(child(alloc, k, b'l')?)),
    }
}

fn write(alloc: Global, k: u64) -> Result<Command, Memory>
    ensures { IfOk result (λ command. command ≡ Command.Write (child k 102) 0 (replicate 40 (k % 256))) }
{
    let bytes = vec![in alloc; (k % 256) as u8; WRITTEN]?;
    Ok(Command::Write(child(alloc, k, b'f')?, 0, ByteText::new(bytes)))
}

fn mv(alloc: Global, k: u64) -> Result<Command, Memory>
    ensures { IfOk result (λ command. command ≡ Command.Mv (child k 102) (child k 103)) }
{
    Ok(Command::Mv(child(alloc, k, b'f')?, child(alloc, k, b'g')?))
}

fn symlink(alloc: Global, k: u64) -> Result<Command, Memory>
    ensures command { IfOk result (λ command. command ≡ Command.Symlink (numbered 103 k) (child k 108)) }
    ensures fits { IfOk result IsFitting }
{
    let target = ByteText::new(numbered(alloc, b'g', k)?);
    Ok(Command::Symlink(target, child(alloc, k, b'l')?))
}

/// The number of a group's directory.
fn directory_of(k: u64) -> u64
    ensures { result ≡ directory_of k }
{
    ((5 * u128::from(k) + 3) % 16) as u64
}

/// The size that a group's file is cut to.
fn size_of(k: u64) -> u64
    ensures { result ≡ size_of k }
{
    ((37 * u128::from(k) + 11) % 1000) as u64
}

/// `/d` and the number of the group's directory.
fn folder(alloc: Global, k: u64) -> Result<Path, Memory>
    ensures { IfOk result (λ path. path ≡ folder k) }
{
    let mut path = Path::root(alloc);
    path.push(name(alloc, b'd', directory_of(k))?)?;
    Ok(path)
}

/// In that directory, a letter and the number of the group.
fn child(alloc: Global, k: u64, letter: u8) -> Result<Path, Memory>
    requires low { 97 ≤ letter }
    requires high { letter < 123 }
    ensures { IfOk result (λ path. path ≡ child k letter) }
{
    let mut path = folder(alloc, k)?;
    path.push(name(alloc, letter, k)?)?;
    Ok(path)
}

/// The name of a letter and a number.
fn name(alloc: Global, letter: u8, n: u64) -> Result<Name, Memory>
    requires low { 97 ≤ letter }
    requires high { letter < 123 }
    ensures { IfOk result (λ name. name ≡ numbered letter n) }
{
    let bytes = numbered(alloc, letter, n)?;
    Ok(Name::new(bytes).unwrap())
}

/// A letter and a number in decimal digits.
fn numbered(alloc: Global, letter: u8, n: u64) -> Result<Vec<u8>, Memory>
    ensures { IfOk result (λ bytes. bytes.items ≡ numbered letter n) }
{
    let digits = n.to_string(alloc)?;
    let mut bytes = Vec::new(alloc);
    bytes.push(letter)?;
    bytes.extend_from_slice(digits.as_bytes())?;
    Ok(bytes)
}
