// The structures of single requests.
ghost use Rattle.std.specs.Prelude.{◌≡◌};
ghost use Rattle.std.specs.Option.{option_map};
ghost use Rattle.fuse_messages.specs.Reading.{place_at, owner_at, span_at, rename_at, times_at, what_at, mode_at, set_attributes_at};

use crate::fields::{three32, three64, two32, two64};
use crate::structures::{RenameHead, SetAttributes, Span, Times};
use byte_fields::take_u64;

#[tactic(auto, unfolding(crate::specs::Reading::place_at))]
fn take_place(bytes: &[u8]) -> Option<(((u64, u64), (u32, u32)), &[u8])>
    ensures { option_map (λ x. (x.0, x.1.now)) result ≡ place_at bytes.now }
{
    let Some((one, rest)) = two64(bytes) else {
        return None;
    };
    let Some((two, rest)) = two32(rest) else {
        return None;
    };
    Some(((one, two), rest))
}

#[tactic(auto, unfolding(crate::specs::Reading::owner_at))]
fn take_owner(bytes: &[u8]) -> Option<((u64, (u32, u32)), &[u8])>
    ensures { option_map (λ x. (x.0, x.1.now)) result ≡ owner_at bytes.now }
{
    let Some((one, rest)) = take_u64(bytes) else {
        return None;
    };
    let Some((two, rest)) = two32(rest) else {
        return None;
    };
    Some(((one, two), rest))
}

/// What a reading and a writing begin with, and what stands behind it.
#[tactic(auto, unfolding(crate::specs::Reading::span_at))]
pub fn take_span(bytes: &[u8]) -> Option<(Span, &[u8])>
    ensures { option_map (λ x. (x.0, x.1.now)) result ≡ span_at bytes.now }
{
    let Some((((handle, offset), (size, io_flags)), rest)) = take_place(bytes) else {
        return None;
    };
    let Some(((lock_owner, (flags, padding)), rest)) = take_owner(rest) else {
        return None;
    };
    let span = Span {
        handle,
        offset,
        size,
        io_flags,
        lock_owner,
        flags,
        padding,
    };
    Some((span, rest))
}

/// What a renaming begins with, and what stands behind it.
#[tactic(auto, unfolding(crate::specs::Reading::rename_at))]
pub fn take_rename(bytes: &[u8]) -> Option<(RenameHead, &[u8])>
    ensures { option_map (λ x. (x.0, x.1.now)) result ≡ rename_at bytes.now }
{
    let Some((directory, rest)) = take_u64(bytes) else {
        return None;
    };
    let Some(((flags, padding), rest)) = two32(rest) else {
        return None;
    };
    let rename = RenameHead {
        directory,
        flags,
        padding,
    };
    Some((rename, rest))
}

#[tactic(auto, unfolding(crate::specs::Reading::times_at))]
fn take_times(bytes: &[u8]) -> Option<(Times, &[u8])>
    ensures { option_map (λ x. (x.0, x.1.now)) result ≡ times_at bytes.now }
{
    let Some(((atime, (mtime, ctime)), rest)) = three64(bytes) else {
        return None;
    };
    let Some(((atime_nanos, (mtime_nanos, ctime_nanos)), rest)) = three32(rest) else {
        return None;
    };
    let times = Times {
        atime,
        mtime,
        ctime,
        atime_nanos,
        mtime_nanos,
        ctime_nanos,
    };
    Some((times, rest))
}

#[tactic(auto, unfolding(crate::specs::Reading::what_at))]
fn take_what(bytes: &[u8]) -> Option<(((u32, u32), (u64, (u64, u64))), &[u8])>
    ensures { option_map (λ x. (x.0, x.1.now)) result ≡ what_at bytes.now }
{
    let Some((one, rest)) = two32(bytes) else {
        return None;
    };
    let Some((two, rest)) = three64(rest) else {
        return None;
    };
    Some(((one, two), rest))
}

#[tactic(auto, unfolding(crate::specs::Reading::mode_at))]
fn take_mode(bytes: &[u8]) -> Option<(((u32, u32), (u32, (u32, u32))), &[u8])>
    ensures { option_map (λ x. (x.0, x.1.now)) result ≡ mode_at bytes.now }
{
    let Some((one, rest)) = two32(bytes) else {
        return None;
    };
    let Some((two, rest)) = three32(rest) else {
        return None;
    };
    Some(((one, two), rest))
}

/// The attributes that are to be set, and what stands behind them.
#[tactic(auto, unfolding(crate::specs::Reading::set_attributes_at))]
pub fn take_set_attributes(bytes: &[u8]) -> Option<(SetAttributes, &[u8])>
    ensures { option_map (λ x. (x.0, x.1.now)) result ≡ set_attributes_at bytes.now }
{
    let Some((((valid, padding), (handle, (size, lock_owner))), rest)) = take_what(bytes) else {
        return None;
    };
    let Some((times, rest)) = take_times(rest) else {
        return None;
    };
    let Some((((mode, unused), (uid, (gid, reserved))), rest)) = take_mode(rest) else {
        return None;
    };
    let set = SetAttributes {
        valid,
        padding,
        handle,
        size,
        lock_owner,
        times,
        mode,
        unused,
        uid,
        gid,
        reserved,
    };
    Some((set, rest))
}
