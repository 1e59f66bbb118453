// The paths that texts say.
ghost use Rattle.std.specs.Prelude.{◌≡◌, ◌⊎◌, false, map, IfOk, IfErr, All, Ok, Err};
ghost use Rattle.std.specs.List.{list_any, slice_split};
ghost use Rattle.fs_model.specs.Names.{IsName, is_dots, is_zero};
ghost use Rattle.script_text.specs.PathTexts.{path_of, path_of_names, is_slash, is_long};
ghost use Rattle.script_text.specs.Words.{is_empty};

use crate::PathError;
use fs_model::{MAX_NAME, MAX_PATH_TEXT, Name, Path, has_dots_alone, has_zero};
use std::alloc::{AllocError, Global};

/// The path that a text says: its names between slashes. `/` alone is the root. The first refusal that
/// holds is answered: `LongPath`, `Form`, `Dot`, `LongName`.
pub fn parse_path(alloc: Global, text: &[u8]) -> Result<Path, PathError>
    ensures ok { IfOk result (λ path. path_of text.now ≡ Ok path) }
    ensures err { IfErr result (λ e. (e ≡ PathError.Memory) ⊎ (path_of text.now ≡ Err e)) }
{
    if text.len() > MAX_PATH_TEXT {
        return Err(PathError::LongPath);
    }
    let Some((first, rest)) = text.split_first() else {
        return Err(PathError::Form);
    };
    if *first != b'/' || has_zero(rest) {
        return Err(PathError::Form);
    }
    if rest.is_empty() {
        return Ok(Path::root(alloc));
    }
    parse_names(alloc, rest)
}

/// The path of the pieces between slashes.
fn parse_names(alloc: Global, rest: &[u8]) -> Result<Path, PathError>
    requires { list_any is_zero rest.now ≡ false }
    ensures ok { IfOk result (λ path. path_of_names (slice_split is_slash rest.now) ≡ Ok path) }
    ensures err { IfErr result (λ e. (e ≡ PathError.Memory) ⊎ (path_of_names (slice_split is_slash rest.now) ≡ Err e)) }
{
    if has_piece_empty(rest) {
        return Err(PathError::Form);
    }
    if has_piece_of_dots(rest) {
        return Err(PathError::Dot);
    }
    if has_piece_long(rest) {
        return Err(PathError::LongName);
    }
    let pieces = pieces_of(alloc, rest)?;
    path_of_pieces(alloc, &pieces)
}

/// The pieces between slashes.
fn pieces_of(alloc: Global, rest: &[u8]) -> Result<Vec<&[u8]>, AllocError>
    ensures { IfOk result (λ pieces. map (λ piece. piece.now) pieces.items ≡ slice_split is_slash rest.now) }
{
    rest.split(is_slash).collect(alloc)
}

/// The path of these names.
fn path_of_pieces(alloc: Global, pieces: &[&[u8]]) -> Result<Path, PathError>
    requires { All (λ piece. IsName piece.now) pieces.now }
    ensures ok { IfOk result (λ path. path ≡ map (λ piece. piece.now) pieces.now) }
    ensures err { IfErr result (λ e. e ≡ PathError.Memory) }
{
    let mut path = Path::root(alloc);
    for piece in pieces {
        let Some(name) = Name::new(piece.to_vec(alloc)?) else {
            unreachable!();
        };
        path.push(name)?;
    }
    Ok(path)
}

fn is_slash(byte: &u8) -> bool
    ensures { result ≡ is_slash byte.now }
{
    *byte == b'/'
}

fn has_piece_empty(rest: &[u8]) -> bool
    ensures { result ≡ list_any is_empty (slice_split is_slash rest.now) }
{
    rest.split(is_slash).any(is_empty)
}

fn has_piece_of_dots(rest: &[u8]) -> bool
    ensures { result ≡ list_any is_dots (slice_split is_slash rest.now) }
{
    rest.split(is_slash).any(is_dots)
}

fn has_piece_long(rest: &[u8]) -> bool
    ensures { result ≡ list_any is_long (slice_split is_slash rest.now) }
{
    rest.split(is_slash).any(is_long)
}

fn is_empty(piece: &[u8]) -> bool
    ensures { result ≡ is_empty piece.now }
{
    piece.is_empty()
}

fn is_dots(piece: &[u8]) -> bool
    ensures { result ≡ is_dots piece.now }
{
    has_dots_alone(piece)
}

fn is_long(piece: &[u8]) -> bool
    ensures { result ≡ is_long piece.now }
{
    piece.len() > MAX_NAME
}
