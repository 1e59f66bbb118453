// Names with escapes.
ghost use Rattle.std.specs.Prelude.{◌≡◌, ◌<◌, false};
ghost use Rattle.std.specs.Fmt.{digit_glyph};
ghost use Rattle.session_lines.specs.script_text.Appending.{Appends};
ghost use Rattle.session_lines.specs.script_text.Texts.{escape, escaped};

use block_id::Memory;
use session_lines::script_text::push_bytes;

/// Bytes of a name.
pub fn push_escaped(out: &mut Vec<u8>, bytes: &[u8]) -> Result<(), Memory>
    ensures { Appends out.old out.new result (escaped bytes.now) }
{
    for byte in bytes {
        push_escape(out, *byte)?;
    }
    Ok(())
}

fn push_escape(out: &mut Vec<u8>, byte: u8) -> Result<(), Memory>
    ensures { Appends out.old out.new result (escape byte) }
{
    if (0x21..=0x7e).contains(&byte) && byte != b'\\' {
        return push_bytes(out, &[byte]);
    }
    push_bytes(
        out,
        &[b'\\', b'x', hex_digit(byte / 16), hex_digit(byte % 16)],
    )
}

/// The digit of a value, in lower case.
fn hex_digit(value: u8) -> u8
    requires { value < 16 }
    ensures { result ≡ digit_glyph false value }
{
    if value < 10 {
        b'0' + value
    } else {
        b'a' + (value - 10)
    }
}
