// Ends of copies as text.
ghost use Rattle.std.specs.Prelude.{◌≡◌, ◌++◌, ◌∷◌, codes};
ghost use Rattle.std.specs.List.{flat_map};
ghost use Rattle.std.specs.Fmt.{decimal};
ghost use Rattle.session_lines.specs.script_text.Appending.{Appends};
ghost use Rattle.session_lines.specs.script_text.Texts.{line, word, escaped, error_name};
ghost use Rattle.copy_sessions.specs.Texts.{counts_text, copy_text, error_text, kept_text, path_text, name_text, totals_text, verb_of};

use crate::escapes::push_escaped;
use crate::way::Way;
use block_id::Memory;
use copy_laws::{CopyFail, Totals};
use fs_model::{FsError, Name, Path};
use session_lines::answers::{Answer, print_answer};
use session_lines::script_text::{push_bytes, push_decimal};

#[tactic(auto, unfolding(crate::specs::Texts::copy_text))]
/// Appends the line of a copy that ended so, with this answer kept.
pub fn push_copy(
    out: &mut Vec<u8>,
    way: Way,
    copied: &Result<Totals, CopyFail>,
    kept: &Option<Answer>,
) -> Result<(), Memory>
    ensures { Appends out.old out.new result (copy_text way copied.now kept.now) }
{
    match copied {
        Ok(totals) => push_totals(out, way, totals),
        Err(CopyFail::Refused(path, error)) => push_error(out, *error, path),
        Err(CopyFail::LongPath(path)) => push_error(out, FsError::NameTooLong, path),
        Err(CopyFail::Stopped) => push_kept(out, kept),
        Err(CopyFail::Host) => push_bytes(out, b""),
        Err(CopyFail::Memory) => push_bytes(out, b""),
    }
}

fn push_totals(out: &mut Vec<u8>, way: Way, totals: &Totals) -> Result<(), Memory>
    ensures { Appends out.old out.new result (totals_text way totals.now) }
{
    push_bytes(out, verb_of(way))?;
    push_counts(out, totals)?;
    push_bytes(out, b"\n")
}

fn verb_of(way: Way) -> &'static [u8]
    ensures { result.now ≡ verb_of way }
{
    match way {
        Way::In => b"imported",
        Way::Out => b"exported",
    }
}

fn push_counts(out: &mut Vec<u8>, totals: &Totals) -> Result<(), Memory>
    ensures { Appends out.old out.new result (counts_text totals.now) }
{
    push_decimal(out, totals.dirs)?;
    push_decimal(out, totals.files)?;
    push_decimal(out, totals.links)?;
    push_decimal(out, totals.bytes)
}

/// The text of the answer, which is no reply.
fn push_kept(out: &mut Vec<u8>, kept: &Option<Answer>) -> Result<(), Memory>
    ensures { Appends out.old out.new result (kept_text kept.now) }
{
    match kept {
        Some(answer) => print_answer(answer, out),
        None => push_bytes(out, b""),
    }
}

fn push_error(out: &mut Vec<u8>, error: FsError, path: &Path) -> Result<(), Memory>
    ensures { Appends out.old out.new result (error_text error path.now) }
{
    push_bytes(out, b"error ")?;
    push_bytes(out, error_name(error))?;
    push_last_path(out, path)
}

fn error_name(error: FsError) -> &'static [u8]
    ensures { result.now ≡ error_name error }
{
    match error {
        FsError::NoEntry => b"no-entry",
        FsError::Exists => b"exists",
        FsError::NotDirectory => b"not-directory",
        FsError::IsDirectory => b"is-directory",
        FsError::NotEmpty => b"not-empty",
        FsError::Invalid => b"invalid",
        FsError::Busy => b"busy",
        FsError::NameTooLong => b"name-too-long",
        FsError::TooLarge => b"too-large",
        FsError::NotLink => b"not-link",
        FsError::BadLine => b"bad-line",
    }
}

/// The last word of a line: a path.
fn push_last_path(out: &mut Vec<u8>, path: &Path) -> Result<(), Memory>
    ensures { Appends out.old out.new result (line (word (path_text path.now))) }
{
    push_bytes(out, b" ")?;
    push_path(out, path.names())?;
    push_bytes(out, b"\n")
}

/// Appends the text of a path whose names these are, from the root on. The root is a slash alone.
pub fn push_path(out: &mut Vec<u8>, names: &[Name]) -> Result<(), Memory>
    ensures { Appends out.old out.new result (path_text names.now) }
{
    if names.is_empty() {
        return push_bytes(out, b"/");
    }
    push_names(out, names)
}

fn push_names(out: &mut Vec<u8>, names: &[Name]) -> Result<(), Memory>
    ensures { Appends out.old out.new result (flat_map name_text names.now) }
{
    for name in names {
        push_name(out, name)?;
    }
    Ok(())
}

fn push_name(out: &mut Vec<u8>, name: &Name) -> Result<(), Memory>
    ensures { Appends out.old out.new result (name_text name.now) }
{
    push_bytes(out, b"/")?;
    push_escaped(out, name.as_slice())
}
