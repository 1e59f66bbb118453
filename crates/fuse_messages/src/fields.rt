// Fields that stand side by side.
ghost use Rattle.std.specs.Prelude.{◌≡◌, ◌<◌, ◌==◌, length, IfSome};
ghost use Rattle.std.specs.Option.{option_map};
ghost use Rattle.std.specs.List.{position};
ghost use Rattle.fuse_messages.specs.Reading.{name_text_at, two16_at, two32_at, two64_at, three32_at, three64_at};

use byte_fields::{take_u16, take_u32, take_u64};

#[tactic(auto, unfolding(crate::specs::Reading::two16_at))]
pub(crate) fn two16(bytes: &[u8]) -> Option<((u16, u16), &[u8])>
    ensures { option_map (λ x. (x.0, x.1.now)) result ≡ two16_at bytes.now }
{
    let Some((one, rest)) = take_u16(bytes) else {
        return None;
    };
    let Some((two, rest)) = take_u16(rest) else {
        return None;
    };
    Some(((one, two), rest))
}

#[tactic(auto, unfolding(crate::specs::Reading::two32_at))]
pub(crate) fn two32(bytes: &[u8]) -> Option<((u32, u32), &[u8])>
    ensures { option_map (λ x. (x.0, x.1.now)) result ≡ two32_at bytes.now }
{
    let Some((one, rest)) = take_u32(bytes) else {
        return None;
    };
    let Some((two, rest)) = take_u32(rest) else {
        return None;
    };
    Some(((one, two), rest))
}

#[tactic(auto, unfolding(crate::specs::Reading::two64_at))]
pub(crate) fn two64(bytes: &[u8]) -> Option<((u64, u64), &[u8])>
    ensures { option_map (λ x. (x.0, x.1.now)) result ≡ two64_at bytes.now }
{
    let Some((one, rest)) = take_u64(bytes) else {
        return None;
    };
    let Some((two, rest)) = take_u64(rest) else {
        return None;
    };
    Some(((one, two), rest))
}

#[tactic(auto, unfolding(crate::specs::Reading::three32_at))]
pub(crate) fn three32(bytes: &[u8]) -> Option<((u32, (u32, u32)), &[u8])>
    ensures { option_map (λ x. (x.0, x.1.now)) result ≡ three32_at bytes.now }
{
    let Some((one, rest)) = take_u32(bytes) else {
        return None;
    };
    let Some((two, rest)) = two32(rest) else {
        return None;
    };
    Some(((one, two), rest))
}

#[tactic(auto, unfolding(crate::specs::Reading::three64_at))]
pub(crate) fn three64(bytes: &[u8]) -> Option<((u64, (u64, u64)), &[u8])>
    ensures { option_map (λ x. (x.0, x.1.now)) result ≡ three64_at bytes.now }
{
    let Some((one, rest)) = take_u64(bytes) else {
        return None;
    };
    let Some((two, rest)) = two64(rest) else {
        return None;
    };
    Some(((one, two), rest))
}

/// What stands before the first zero, and after it.
#[tactic(auto, unfolding(crate::specs::Reading::name_text_at))]
pub fn take_name(bytes: &[u8]) -> Option<(&[u8], &[u8])>
    ensures { option_map (λ x. (x.0.now, x.1.now)) result ≡ name_text_at bytes.now }
{
    let Some(end) = first_zero(bytes) else {
        return None;
    };
    Some((&bytes[..end], &bytes[end + 1..]))
}

fn first_zero(bytes: &[u8]) -> Option<usize>
    ensures value { result ≡ position (λ byte. byte == 0) bytes.now }
    ensures bound { IfSome result (λ end. end < length bytes.now) }
{
    bytes.iter().position(|byte| *byte == 0)
}
