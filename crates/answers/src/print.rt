// Answers as text.
ghost use Rattle.std.specs.Prelude.{◌≡◌, ◌⊎◌, ◌+◌, ◌<◌, ◌≤◌, ◌++◌, codes, length, vec_len, OnOk, OnErr};
ghost use Rattle.std.specs.Vec.{vec_capacity};
ghost use Rattle.std.specs.Fmt.{decimal};
ghost use Rattle.block_id.specs.Name.{name_of};
ghost use Rattle.script_text.specs.Appending.{Appends};
ghost use Rattle.script_text.specs.Texts.{line, word};
ghost use Rattle.answers.specs.Telling.{MayWant};
ghost use Rattle.answers.specs.Texts.{why_text, text_of_answer};

use crate::Answer;
use block_id::{BlockId, Memory, Why};
use script_text::{print_reply, push_bytes, push_decimal};

/// Appends the lines of an answer, each with its newline. After `Memory`, which comes only where the room in `out` is
/// less than the text, `out` is as before. The texts of other answers than rows, attributes, a target or a content have
/// at most 256 bytes.
pub fn print_answer(answer: &Answer, out: &mut Vec<u8>) -> Result<(), Memory>
    ensures ok { OnOk result (out.new.items ≡ out.old.items ++ text_of_answer answer.now) }
    ensures err { OnErr result (out.new.items ≡ out.old.items) }
    ensures room { vec_capacity out.old ≤ vec_capacity out.new }
    ensures full { OnErr result (vec_capacity out.old < vec_len out.old + length (text_of_answer answer.now)) }
    ensures wants { OnErr result (MayWant answer.now ⊎ (vec_capacity out.old < vec_len out.old + 256)) }
{
    let before = out.len();
    let printed = push_answer(out, answer);
    if printed.is_err() {
        out.truncate(before);
    }
    printed
}

#[tactic(auto, unfolding(crate::specs::Texts::text_of_answer))]
fn push_answer(out: &mut Vec<u8>, answer: &Answer) -> Result<(), Memory>
    ensures text { Appends out.old out.new result (text_of_answer answer.now) }
    ensures wants { OnErr result (MayWant answer.now ⊎ (vec_capacity out.old < vec_len out.old + 256)) }
{
    match answer {
        Answer::Reply(reply) => print_reply(reply, out),
        Answer::Memory => push_bytes(out, b"memory\n"),
        Answer::Spent => push_bytes(out, b"spent\n"),
        Answer::FaultDirectory => push_bytes(out, b"fault directory\n"),
        Answer::FaultState => push_bytes(out, b"fault state\n"),
        Answer::Violation(why) => push_violation(out, why),
        Answer::Refused => push_bytes(out, b"refused violation\n"),
    }
}

fn push_violation(out: &mut Vec<u8>, why: &Why) -> Result<(), Memory>
    ensures text { Appends out.old out.new result (line (codes "violation" ++ word (why_text why.now))) }
    ensures room { OnErr result (vec_capacity out.old < vec_len out.old + 256) }
{
    push_bytes(out, b"violation ")?;
    push_why(out, why)?;
    push_bytes(out, b"\n")
}

fn push_why(out: &mut Vec<u8>, why: &Why) -> Result<(), Memory>
    ensures text { Appends out.old out.new result (why_text why.now) }
    ensures short { length (why_text why.now) ≤ 64 }
{
    match why {
        Why::Missing => push_bytes(out, b"missing"),
        Why::BadLength => push_bytes(out, b"bad-length"),
        Why::BadPrefix => push_bytes(out, b"bad-prefix"),
        Why::NotOpened => push_bytes(out, b"not-opened"),
        Why::BadRecord => push_bytes(out, b"bad-record"),
        Why::WrongId(id) => push_id(out, id),
        Why::ForeignClient(client) => push_client(out, *client),
        Why::OldVersion { known, found } => push_versions(out, b"old-version", *known, *found),
        Why::AheadVersion { known, found } => push_versions(out, b"ahead-version", *known, *found),
        Why::Structure => push_bytes(out, b"structure"),
        Why::OldFormat => push_bytes(out, b"old-format"),
    }
}

fn push_id(out: &mut Vec<u8>, id: &BlockId) -> Result<(), Memory>
    ensures text { Appends out.old out.new result (codes "wrong-id" ++ word (name_of id.now.0)) }
    ensures short { length (name_of id.now.0) ≡ 32 }
{
    let name = id.to_name();
    push_bytes(out, b"wrong-id ")?;
    push_bytes(out, &name)
}

#[tactic(auto, using(crate::proofs::Short::decimal_short))]
fn push_client(out: &mut Vec<u8>, client: u32) -> Result<(), Memory>
    ensures text { Appends out.old out.new result (codes "foreign-client" ++ word (decimal client)) }
    ensures short { length (decimal client) ≤ 20 }
{
    push_bytes(out, b"foreign-client")?;
    push_decimal(out, u64::from(client))
}

/// A name and two numbers.
#[tactic(auto, using(crate::proofs::Short::decimal_short))]
fn push_versions(out: &mut Vec<u8>, name: &[u8], known: u64, found: u64) -> Result<(), Memory>
    ensures text { Appends out.old out.new result (name.now ++ word (decimal known) ++ word (decimal found)) }
    ensures short { (length (decimal known) ≤ 20) × (length (decimal found) ≤ 20) }
{
    push_bytes(out, name)?;
    push_decimal(out, known)?;
    push_decimal(out, found)
}
