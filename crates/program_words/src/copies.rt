// The words of copies.
ghost use Rattle.std.specs.Prelude.{◌≡◌, true, map, IfOk, IfSome, OnErr};
ghost use Rattle.std.specs.String.{string_bytes};
ghost use Rattle.program_words.specs.Forms.{copy_kind, copy_at, copied, copied_to, has_path, path_in, with_times, IsModest};

use crate::form::Form;
use block_id::Memory;
use fs_model::{Command, Path};
use script_text::{LineError, parse_line};
use std::alloc::Global;

/// A copy, less its path.
#[derive(Clone, Copy)]
pub(crate) enum CopyKind {
    Import,
    Export,
    ImportTimes,
    ExportTimes,
    Put,
    Get,
}

impl CopyKind {
    /// Such a copy, to or from this path.
    pub(crate) fn at(self, path: Path) -> Form
        ensures value { result ≡ copy_at self path }
        ensures most { IsModest result }
    {
        match self {
            CopyKind::Import => Form::Import(path),
            CopyKind::Export => Form::Export(path),
            CopyKind::ImportTimes => Form::ImportTimes(path),
            CopyKind::ExportTimes => Form::ExportTimes(path),
            CopyKind::Put => Form::Put(path),
            CopyKind::Get => Form::Get(path),
        }
    }

    /// The same copy that keeps modes and times, of a whole folder.
    fn with_times(self) -> Option<CopyKind>
        ensures { result ≡ with_times self }
    {
        match self {
            CopyKind::Import => Some(CopyKind::ImportTimes),
            CopyKind::Export => Some(CopyKind::ExportTimes),
            _ => None,
        }
    }
}

/// The copy that a word asks for: `import`, `export`, `put` or `get`.
pub(crate) fn copy_kind(word: &str) -> Option<CopyKind>
    ensures { result ≡ copy_kind word.now }
{
    if word == "import" {
        Some(CopyKind::Import)
    } else if word == "export" {
        Some(CopyKind::Export)
    } else if word == "put" {
        Some(CopyKind::Put)
    } else if word == "get" {
        Some(CopyKind::Get)
    } else {
        None
    }
}

/// Such a copy, where the words say its path: behind the first one, or behind `--times`. Memory comes only where there are
/// such words.
pub(crate) fn read_copy(
    alloc: Global,
    kind: CopyKind,
    words: &[String],
) -> Result<Option<Form>, Memory>
    ensures value { IfOk result (λ form. form ≡ copied kind (map string_bytes words.now)) }
    ensures most { IfOk result (λ form. IfSome form (λ form. IsModest form)) }
    ensures memory { OnErr result (has_path (map string_bytes words.now) ≡ true) }
{
    match words {
        [_, word] => copied_to(alloc, kind, word.as_bytes()),
        [_, option, word] => {
            if option.as_str() != "--times" {
                return Ok(None);
            }
            match kind.with_times() {
                Some(timed) => copied_to(alloc, timed, word.as_bytes()),
                None => Ok(None),
            }
        }
        _ => Ok(None),
    }
}

/// Such a copy to or from the path that this word says.
fn copied_to(alloc: Global, kind: CopyKind, word: &[u8]) -> Result<Option<Form>, Memory>
    ensures value { IfOk result (λ form. form ≡ copied_to kind word.now) }
    ensures most { IfOk result (λ form. IfSome form (λ form. IsModest form)) }
{
    match path_in(alloc, word)? {
        Some(path) => Ok(Some(kind.at(path))),
        None => Ok(None),
    }
}

/// The path that a word says as it would behind `ls` in a script.
#[tactic(auto, unfolding(crate::specs::Forms::path_in))]
fn path_in(alloc: Global, word: &[u8]) -> Result<Option<Path>, Memory>
    ensures { IfOk result (λ path. path ≡ path_in word.now) }
{
    let mut line = Vec::new(alloc);
    line.extend_from_slice(b"ls ")?;
    line.extend_from_slice(word)?;
    match parse_line(alloc, &line) {
        Ok(Command::List(path)) => Ok(Some(path)),
        Ok(_) | Err(LineError::Bad(_)) => Ok(None),
        Err(LineError::Memory) => Err(Memory),
    }
}
