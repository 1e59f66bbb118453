// The numbers and moments that words write.
ghost use Rattle.std.specs.Prelude.{◌≡◌, ◌≤◌, ◌<◌, ◌^◌, IfSome};
ghost use Rattle.script_text.specs.Numbers.{number_in, number_of, id_of, mode_of, instant_of, time_of};

use fs_model::Moment;

#[tactic(auto, unfolding(crate::specs::Numbers::number_in))]
/// The number that one to `most` digits of the base write, zeros first or not.
fn number_in(base: u8, most: usize, word: &[u8]) -> Option<u128>
    requires decimal { base ≤ 10 }
    requires short { most ≤ 20 }
    ensures value { result ≡ number_in base most word.now }
    ensures bound { IfSome result (λ n. n < 10 ^ most) }
{
    if word.is_empty() || word.len() > most {
        return None;
    }
    let mut value: u128 = 0;
    for byte in word {
        if *byte < b'0' || *byte >= b'0' + base {
            return None;
        }
        value = value * u128::from(base) + u128::from(*byte - b'0');
    }
    Some(value)
}

#[tactic(auto, unfolding(crate::specs::Numbers::number_of))]
/// 1 to 20 decimal digits, a number below 2^64.
pub fn number(word: &[u8]) -> Option<u64>
    ensures { result ≡ number_of word.now }
{
    u64::try_from(number_in(10, 20, word)?).ok()
}

#[tactic(auto, unfolding(crate::specs::Numbers::id_of))]
/// A number below 2^32.
pub fn id(word: &[u8]) -> Option<u32>
    ensures { result ≡ id_of word.now }
{
    u32::try_from(number_in(10, 20, word)?).ok()
}

#[tactic(auto, unfolding(crate::specs::Numbers::mode_of))]
/// 1 to 4 octal digits.
pub fn mode(word: &[u8]) -> Option<u32>
    ensures { result ≡ mode_of word.now }
{
    short_number(8, 4, word)
}

/// The number that one to `most` digits of the base write, where no more than nine may stand.
fn short_number(base: u8, most: usize, word: &[u8]) -> Option<u32>
    requires decimal { base ≤ 10 }
    requires short { most ≤ 9 }
    ensures value { result ≡ number_in base most word.now }
    ensures bound { IfSome result (λ n. n < 10 ^ most) }
{
    u32::try_from(number_in(base, most, word)?).ok()
}

#[tactic(auto, unfolding(crate::specs::Numbers::time_of))]
/// A number, a point and nine decimal digits.
pub fn time(word: &[u8]) -> Option<Moment>
    ensures { result ≡ time_of word.now }
{
    if word.len() < 10 {
        return None;
    }
    let point = word.len() - 10;
    if word[point] != b'.' {
        return None;
    }
    moment(
        number(&word[..point]),
        short_number(10, 9, &word[point + 1..]),
    )
}

/// The moment of these seconds and nanoseconds.
fn moment(secs: Option<u64>, nanos: Option<u32>) -> Option<Moment>
    requires { IfSome nanos (λ n. n < 10 ^ 9) }
    ensures { result ≡ instant_of secs nanos }
{
    match (secs, nanos) {
        (Some(secs), Some(nanos)) => Moment::new(secs, nanos),
        _ => None,
    }
}
