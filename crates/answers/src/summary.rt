// The summary of answers.
ghost use Rattle.std.specs.Prelude.{◌≡◌, ◌+◌, ◌*◌, ◌<◌, ◌≤◌, ◌^◌, ℕ, List, [], ◌∷◌, ◌++◌, length};
ghost use Rattle.script_text.specs.Appending.{Appends};
ghost use Rattle.answers.specs.Summaries.{Counts, counts_of, summary_of, labelled, first_counts, last_counts, text_of_summary, with_other, IsSmall};

use crate::Answer;
use block_id::Memory;
use fs_model::Reply;
use script_text::{push_bytes, push_numeral};

/// Counts of answers.
#[derive(Clone, Copy)]
pub struct Summary {
    pub lines: u64,
    pub replies: u64,
    pub errors: u64,
    pub other: u64,
    pub read: u128,
}

impl Summary {
    #[tactic(auto, unfolding(crate::specs::Summaries::summary_of))]
    /// Of no answers.
    pub fn new() -> Summary
        ensures counts { counts_of result ≡ summary_of [] }
        ensures small { IsSmall (counts_of result) }
        ensures lines { result.lines ≡ 0 }
    {
        Summary {
            lines: 0,
            replies: 0,
            errors: 0,
            other: 0,
            read: 0,
        }
    }

    /// One answer more.
    pub fn add(&mut self, answer: &Answer)
        requires few { self.old.lines < 1000000 }
        requires small { IsSmall (counts_of self.old) }
        ensures counts { (answers : List _) → counts_of self.old ≡ summary_of answers → counts_of self.new ≡ summary_of (answer.now ∷ answers) }
        ensures small { IsSmall (counts_of self.new) }
        ensures lines { self.new.lines ≡ self.old.lines + 1 }
    {
        match answer {
            Answer::Reply(reply) => self.add_reply(reply),
            _ => self.add_other(),
        }
    }

    fn add_reply(&mut self, reply: &Reply)
        requires few { self.old.lines < 1000000 }
        requires small { IsSmall (counts_of self.old) }
        ensures counts { (answers : List _) → counts_of self.old ≡ summary_of answers → counts_of self.new ≡ summary_of (Answer.Reply reply.now ∷ answers) }
        ensures small { IsSmall (counts_of self.new) }
        ensures lines { self.new.lines ≡ self.old.lines + 1 }
    {
        self.lines += 1;
        match reply {
            Reply::Error(_) => self.errors += 1,
            Reply::Content(bytes) => {
                self.replies += 1;
                self.read += bytes.as_slice().len() as u128;
            }
            Reply::Done => self.replies += 1,
            Reply::Rows(_) => self.replies += 1,
            Reply::Info(_, _) => self.replies += 1,
            Reply::Target(_) => self.replies += 1,
        }
    }

    /// One answer that is no reply.
    fn add_other(&mut self)
        requires few { self.old.lines < 1000000 }
        requires small { IsSmall (counts_of self.old) }
        ensures counts { counts_of self.new ≡ with_other (counts_of self.old) }
        ensures small { IsSmall (counts_of self.new) }
        ensures lines { self.new.lines ≡ self.old.lines + 1 }
    {
        self.lines += 1;
        self.other += 1;
    }
}

/// Appends the line that is printed.
#[tactic(auto, unfolding(crate::specs::Summaries::text_of_summary))]
pub fn push_summary(out: &mut Vec<u8>, summary: &Summary) -> Result<(), Memory>
    ensures { Appends out.old out.new result (text_of_summary (counts_of summary.now)) }
{
    push_counts(out, summary)?;
    push_bytes(out, b"\n")
}

fn push_counts(out: &mut Vec<u8>, summary: &Summary) -> Result<(), Memory>
    ensures { Appends out.old out.new result (first_counts (counts_of summary.now) ++ last_counts (counts_of summary.now)) }
{
    push_first_counts(out, summary)?;
    push_last_counts(out, summary)
}

fn push_first_counts(out: &mut Vec<u8>, summary: &Summary) -> Result<(), Memory>
    ensures { Appends out.old out.new result (first_counts (counts_of summary.now)) }
{
    push_count(out, b"lines", summary.lines as u128)?;
    push_count(out, b" replies", summary.replies as u128)?;
    push_count(out, b" errors", summary.errors as u128)
}

fn push_last_counts(out: &mut Vec<u8>, summary: &Summary) -> Result<(), Memory>
    ensures { Appends out.old out.new result (last_counts (counts_of summary.now)) }
{
    push_count(out, b" other", summary.other as u128)?;
    push_count(out, b" read", summary.read)
}

/// A label and a number.
fn push_count(out: &mut Vec<u8>, label: &[u8], count: u128) -> Result<(), Memory>
    ensures { Appends out.old out.new result (labelled label.now count) }
{
    push_bytes(out, label)?;
    push_numeral(out, count)
}
