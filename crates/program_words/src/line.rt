// The line of a script that the words are.
ghost use Rattle.std.specs.Prelude.{◌≡◌, map, IfOk};
ghost use Rattle.std.specs.String.{string_bytes};
ghost use Rattle.program_words.specs.Forms.{joined};

use block_id::Memory;
use std::alloc::Global;

/// The line that the words are: one after another, with a space between them.
pub fn joined(alloc: Global, words: &[String]) -> Result<Vec<u8>, Memory>
    ensures { IfOk result (λ line. line.items ≡ joined (map string_bytes words.now)) }
{
    let mut line = Vec::new(alloc);
    let [first, others @ ..] = words else {
        return Ok(line);
    };
    line.extend_from_slice(first.as_bytes())?;
    for word in others {
        line.push(b' ')?;
        line.extend_from_slice(word.as_bytes())?;
    }
    Ok(line)
}
