// The names that a listing gives of the directory's own files.
ghost use Rattle.std.specs.Prelude.{◌≡◌, IfOk};
ghost use Rattle.outside.specs.View.{at_of};
ghost use Rattle.outside.specs.FileTexts.{text_of_file};

use crate::{ByteLine, FileName};
use std::alloc::{AllocError, Global};

const CONFIG_FILE: &[u8] = b"cryfs.config";

/// How many digits of a block's name are the name of its folder.
const FOLDER_DIGITS: usize = 3;

/// The name of this file below the directory.
pub fn file_text(alloc: Global, name: &FileName) -> Result<ByteLine, AllocError>
    ensures { IfOk result (λ line. line ≡ text_of_file (at_of name.now)) }
{
    let mut text = Vec::new(alloc);
    match name {
        FileName::Config => text.extend_from_slice(CONFIG_FILE)?,
        FileName::Block(id) => {
            let digits = id.to_name();
            let (folder, file) = digits.split_at(FOLDER_DIGITS);
            text.extend_from_slice(folder)?;
            text.push(b'/')?;
            text.extend_from_slice(file)?;
        }
    }
    Ok(ByteLine::new(text))
}
