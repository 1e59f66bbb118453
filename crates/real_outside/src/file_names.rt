// Where the files of a block directory lie.
ghost use Rattle.std.specs.Prelude.{◌≡◌, IfOk};
ghost use Rattle.std.specs.Str.{IsAscii};
ghost use Rattle.std.specs.Path.{path_buf_bytes};
ghost use Rattle.outside.specs.View.{at_of};
ghost use Rattle.real_outside.specs.FileNames.{folder_of, path_of};

use crate::stored_file::StoredFile;
use outside::FileName;
use std::alloc::{AllocError, Global};
use std::path::PathBuf;

const CONFIG_FILE: &str = "cryfs.config";

/// How many digits of a block's name are the name of its folder.
const FOLDER_DIGITS: usize = 3;

/// Where the directory at this path keeps the file.
pub fn place(alloc: Global, directory: &str, name: &FileName) -> Result<StoredFile, AllocError>
    ensures folder { IfOk result (λ place. path_buf_bytes place.folder ≡ folder_of directory.now (at_of name.now)) }
    ensures file { IfOk result (λ place. path_buf_bytes place.file ≡ path_of directory.now (at_of name.now)) }
{
    let mut folder = PathBuf::from_str(alloc, directory)?;
    match name {
        FileName::Config => StoredFile::new(alloc, folder, CONFIG_FILE),
        FileName::Block(id) => {
            let digits = id.to_name();
            let (first, others) = digits.split_at(FOLDER_DIGITS);
            folder.push(text(first))?;
            StoredFile::new(alloc, folder, text(others))
        }
    }
}

/// Digits as text.
fn text(digits: &[u8]) -> &str
    requires { IsAscii digits.now }
    ensures { result.now ≡ digits.now }
{
    match str::from_utf8(digits) {
        Ok(text) => text,
        Err(_) => unreachable!(),
    }
}
