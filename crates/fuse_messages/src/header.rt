// What stands before each request.
ghost use Rattle.std.specs.Prelude.{◌≡◌};
ghost use Rattle.std.specs.Option.{option_map};
ghost use Rattle.fuse_messages.specs.Reading.{asked_at, whose_at, header_at};

use crate::fields::{three32, two16, two32, two64};
use crate::structures::RequestHeader;

#[tactic(auto, unfolding(crate::specs::Reading::asked_at))]
fn take_asked(bytes: &[u8]) -> Option<(((u32, u32), (u64, u64)), &[u8])>
    ensures { option_map (λ x. (x.0, x.1.now)) result ≡ asked_at bytes.now }
{
    let Some((one, rest)) = two32(bytes) else {
        return None;
    };
    let Some((two, rest)) = two64(rest) else {
        return None;
    };
    Some(((one, two), rest))
}

#[tactic(auto, unfolding(crate::specs::Reading::whose_at))]
fn take_whose(bytes: &[u8]) -> Option<(((u32, (u32, u32)), (u16, u16)), &[u8])>
    ensures { option_map (λ x. (x.0, x.1.now)) result ≡ whose_at bytes.now }
{
    let Some((one, rest)) = three32(bytes) else {
        return None;
    };
    let Some((two, rest)) = two16(rest) else {
        return None;
    };
    Some(((one, two), rest))
}

/// The header of a request, and what stands behind it. None where there are fewer bytes.
#[tactic(auto, unfolding(crate::specs::Reading::header_at))]
pub fn take_header(bytes: &[u8]) -> Option<(RequestHeader, &[u8])>
    ensures { option_map (λ x. (x.0, x.1.now)) result ≡ header_at bytes.now }
{
    let Some((((len, opcode), (unique, node)), rest)) = take_asked(bytes) else {
        return None;
    };
    let Some((((uid, (gid, pid)), (extensions, padding)), rest)) = take_whose(rest) else {
        return None;
    };
    let header = RequestHeader {
        len,
        opcode,
        unique,
        node,
        uid,
        gid,
        pid,
        extensions,
        padding,
    };
    Some((header, rest))
}
