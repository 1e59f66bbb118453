// Bytes in hexadecimal, two digits each, many at a time.
ghost use Rattle.std.specs.Prelude.{◌≡◌, ◌⊎◌, ◌*◌, ◌<◌, ◌≤◌, false, None, Some, length, cond};
ghost use Rattle.std.specs.Option.{unwrap_or};
ghost use Rattle.std.specs.Result.{result_ok};
ghost use Rattle.std.specs.List.{flat_map};
ghost use Rattle.std.specs.Fmt.{digit_glyph};
ghost use Rattle.hex.specs.Hex.{decode_of, hex_digit_value};
ghost use Rattle.script_text.specs.Texts.{hex_byte};

/// What is no digit's value.
const NO_DIGIT: u8 = 255;

/// The digit of a value, in lower case.
pub fn hex_digit(value: u8) -> u8
    requires { value < 16 }
    ensures { result ≡ digit_glyph false value }
{
    if value < 10 {
        b'0' + value
    } else {
        b'a' + (value - 10)
    }
}

/// The value of a digit of either case, and 255 for another byte.
fn value_of(digit: u8) -> u8
    ensures { result ≡ unwrap_or (hex_digit_value digit) 255 }
{
    match digit {
        b'A'..=b'F' => digit - b'A' + 10,
        b'a'..=b'f' => digit - b'a' + 10,
        b'0'..=b'9' => digit - b'0',
        _ => NO_DIGIT,
    }
}

fn larger(a: u8, b: u8) -> u8
    ensures one { (result ≡ a) ⊎ (result ≡ b) }
    ensures bound { (a ≤ result) × (b ≤ result) }
{
    if a < b { b } else { a }
}

/// Sets each byte to what two digits of either case stand for, and says whether all were digits. It looks at the digits
/// only after the last, so that many bytes are set at once.
pub fn read_digits(word: &[u8], bytes: &mut [u8]) -> bool
    requires { length word.now ≡ 2 * length bytes.old }
    ensures { result_ok (decode_of word.now) ≡ cond result (Some bytes.new) None }
{
    let mut most: u8 = 0;
    'pairs: for i in 0..bytes.len() {
        let high = value_of(word[2 * i]);
        let low = value_of(word[2 * i + 1]);
        most = larger(larger(most, high), low);
        bytes[i] = high.wrapping_mul(16).wrapping_add(low);
    }
    most < 16
}

/// Writes two digits of each byte, in lower case.
pub fn write_digits(bytes: &[u8], text: &mut [u8])
    requires { length text.old ≡ 2 * length bytes.now }
    ensures { text.new ≡ flat_map hex_byte bytes.now }
{
    'bytes: for i in 0..bytes.len() {
        text[2 * i] = hex_digit(bytes[i] / 16);
        text[2 * i + 1] = hex_digit(bytes[i] % 16);
    }
}
