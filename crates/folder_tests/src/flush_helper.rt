// What a run leaves to a helper that flushes its disk, and what it saves where that doesn't answer as it should.
use crate::stories::tell;
use std::test::Fail;

/// Behind four files of blocks no more are flushed, nor are their folders, and the helper is asked once before the next record. Of six
/// flushes two are those of the record, two those of the names of the folders that the run was given, and two those of the four
/// files' folder and of the block folder. Where no more than four are changed the helper isn't asked. A mark is saved without it.
const LEFT: &str = "# asks once before a record | s/blocks s s
makes s/blocks
writes answers: done\0\0\0\0\u{1}\0\0\0\0\0\0\0done\0\0\0\0\u{2}\0\0\0\0\0\0\0
begin
lends s/blocks answers: requests
allows 4
puts one: 1
puts one: 2
puts one: 3
puts one: 4
none-left
puts zeros: one
puts tens: two
holds requests: 
allows 6
saves: new
none-left
holds requests: flush\0\0\0\u{1}\0\0\0\0\0\0\0
allows 2
saves: same
none-left
holds requests: flush\0\0\0\u{1}\0\0\0\0\0\0\0
allows 4
puts one: 1
puts one: 2
puts one: 3
puts one: 4
none-left
puts tens: four
deletes zeros
allows 2
saves: newer
none-left
holds requests: flush\0\0\0\u{1}\0\0\0\0\0\0\0flush\0\0\0\u{2}\0\0\0\0\0\0\0
holds s/cryfs.localstate: newer
# flushes four files without it | s/blocks s s
makes s/blocks
writes answers: 
begin
lends s/blocks answers: requests
allows 3
puts one: 1
puts zeros: one
deletes one
puts tens: two
none-left
allows 7
saves: new
none-left
allows 9
puts one: 1
deletes tens
puts zeros: one
puts one: 2
saves: newer
holds requests: 
# saves a mark without it | s/blocks s s
makes s/blocks
writes answers: 
begin
lends s/blocks answers: requests
puts one: 1
puts one: 2
puts one: 3
puts one: 4
puts zeros: one
fails-to-save: cryfs.localstate;1\0\0
saves: cryfs.localstate;1\0\u{1}
# leaves no file to the helper of another folder | s/blocks s s
makes s/blocks
makes other
writes answers: 
begin
lends other answers: requests
allows 6
puts one: 1
puts one: 2
puts one: 3
puts one: 4
puts zeros: one
puts tens: two
none-left
allows 9
saves: new
holds requests: 
# flushes the configuration itself | s/blocks s s
makes s/blocks
writes answers: 
begin
lends s/blocks answers: requests
allows 1
fails-to-put config: one
none-left
allows 2
puts config: one
none-left
# saves nothing over another block folder | s/blocks s s
makes s/blocks
writes answers: done\0\0\0\0\u{1}\0\0\0\0\0\0\0
begin
lends s/blocks answers: requests
puts one: 1
puts one: 2
puts one: 3
puts one: 4
puts zeros: one
renames s/blocks: s/away
makes s/blocks
fails-to-save: new
lacks s/cryfs.localstate
";

/// A helper that ended, that didn't flush, that answers another request, half an answer, or what is none: no record is saved over
/// the one before, nor is a later one, whatever it answers then.
const REFUSED: &str = "# a helper that ended | s/blocks s s
makes s/blocks
writes answers: 
begin
saves: old
lends s/blocks answers: requests
puts one: 1
puts one: 2
puts one: 3
puts one: 4
puts zeros: one
fails-to-save: new
fails-to-save: new
holds s/cryfs.localstate: old
# one that didn't flush | s/blocks s s
makes s/blocks
writes answers: not\0\0\0\0\0\u{1}\0\0\0\0\0\0\0done\0\0\0\0\u{2}\0\0\0\0\0\0\0done\0\0\0\0\u{1}\0\0\0\0\0\0\0
begin
saves: old
lends s/blocks answers: requests
puts one: 1
puts one: 2
puts one: 3
puts one: 4
puts zeros: one
fails-to-save: new
fails-to-save: new
puts tens: two
fails-to-save: new
holds s/cryfs.localstate: old
# one that ended later | s/blocks s s
makes s/blocks
writes answers: done\0\0\0\0\u{1}\0\0\0\0\0\0\0
begin
lends s/blocks answers: requests
puts one: 1
puts one: 2
puts one: 3
puts one: 4
puts zeros: one
saves: old
puts one: 1
puts one: 2
puts one: 3
puts one: 4
puts zeros: two
fails-to-save: new
fails-to-save: new
holds s/cryfs.localstate: old
# one that answers the request before | s/blocks s s
makes s/blocks
writes answers: done\0\0\0\0\u{1}\0\0\0\0\0\0\0done\0\0\0\0\u{1}\0\0\0\0\0\0\0
begin
lends s/blocks answers: requests
puts one: 1
puts one: 2
puts one: 3
puts one: 4
puts zeros: one
saves: old
puts one: 1
puts one: 2
puts one: 3
puts one: 4
deletes zeros
fails-to-save: new
fails-to-save: new
holds s/cryfs.localstate: old
# one that answers the next request | s/blocks s s
makes s/blocks
writes answers: done\0\0\0\0\u{2}\0\0\0\0\0\0\0
begin
saves: old
lends s/blocks answers: requests
puts one: 1
puts one: 2
puts one: 3
puts one: 4
puts zeros: one
fails-to-save: new
holds s/cryfs.localstate: old
# one whose number differs in its last byte | s/blocks s s
makes s/blocks
writes answers: done\0\0\0\0\u{1}\0\0\0\0\0\0\u{1}
begin
saves: old
lends s/blocks answers: requests
puts one: 1
puts one: 2
puts one: 3
puts one: 4
puts zeros: one
fails-to-save: new
holds s/cryfs.localstate: old
# half an answer | s/blocks s s
makes s/blocks
writes answers: done\0\0\0\0\u{1}\0\0
begin
saves: old
lends s/blocks answers: requests
puts one: 1
puts one: 2
puts one: 3
puts one: 4
puts zeros: one
fails-to-save: new
holds s/cryfs.localstate: old
# what is no answer | s/blocks s s
makes s/blocks
writes answers: all blocks are flushed, trust me
begin
saves: old
lends s/blocks answers: requests
puts one: 1
puts one: 2
puts one: 3
puts one: 4
puts zeros: one
fails-to-save: new
holds s/cryfs.localstate: old
# the request itself | s/blocks s s
makes s/blocks
writes answers: flush\0\0\0\u{1}\0\0\0\0\0\0\0
begin
saves: old
lends s/blocks answers: requests
puts one: 1
puts one: 2
puts one: 3
puts one: 4
puts zeros: one
fails-to-save: new
holds s/cryfs.localstate: old
";

#[test]
fn files_are_left_to_a_helper(rt: HostRuntime) -> Result<(), Fail> {
    tell(&rt, "runs", LEFT)
}

#[test]
fn a_wrong_answer_saves_nothing(rt: HostRuntime) -> Result<(), Fail> {
    tell(&rt, "runs", REFUSED)
}
