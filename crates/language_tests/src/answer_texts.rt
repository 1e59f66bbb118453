// The texts of answers, and a summary.

use answers::{Answer, Summary, TextBuffer, print_answer};
use block_id::{BlockId, Why};
use fs_model::{ByteText, FsError, Reply};
use std::alloc::{AllocError, Global};
use std::test::Fail;

/// Prints an answer behind what is printed.
fn print(out: &mut Vec<u8>, answer: &Answer) -> Result<(), Fail> {
    match print_answer(answer, out) {
        Ok(()) => Ok(()),
        Err(_) => Err(Fail::new("memory")),
    }
}

const SECOND: BlockId = BlockId([0, 0, 0, 0, 0, 0, 0, 0, 0, 0, 0, 0, 0, 0, 0, 2]);

/// Prints each violation.
fn print_violations(out: &mut Vec<u8>) -> Result<(), Fail> {
    for why in [
        Why::Missing,
        Why::BadLength,
        Why::BadPrefix,
        Why::OldFormat,
        Why::NotOpened,
        Why::BadRecord,
        Why::WrongId(SECOND),
        Why::ForeignClient(7),
        Why::OldVersion { known: 3, found: 2 },
        Why::AheadVersion {
            known: 4,
            found: 10,
        },
        Why::Structure,
    ] {
        print(out, &Answer::Violation(why))?;
    }
    Ok(())
}

const TEXTS: &str = "> ok
memory
spent
fault directory
fault state
refused violation
violation missing
violation bad-length
violation bad-prefix
violation old-format
violation not-opened
violation bad-record
violation wrong-id 00000000000000000000000000000002
violation foreign-client 7
violation old-version 3 2
violation ahead-version 4 10
violation structure
";

#[test]
fn prints_each_answer_and_each_violation(rt: HostRuntime) -> Result<(), Fail> {
    let mut out = b"> ".to_vec(rt.alloc())?;
    print(&mut out, &Answer::Reply(Reply::Done))?;
    print(&mut out, &Answer::Memory)?;
    print(&mut out, &Answer::Spent)?;
    print(&mut out, &Answer::FaultDirectory)?;
    print(&mut out, &Answer::FaultState)?;
    print(&mut out, &Answer::Refused)?;
    print_violations(&mut out)?;
    assert_eq!(rt; str::from_utf8(&out).unwrap_or("bytes"), TEXTS);
    Ok(())
}

#[test]
fn sums_up(rt: HostRuntime) -> Result<(), Fail> {
    let alloc = rt.alloc();
    let mut summary = Summary::new();
    summary.add(&Answer::Reply(Reply::Content(ByteText::new(b"abc".to_vec(alloc)?))));
    summary.add(&Answer::Reply(Reply::Error(FsError::Exists)));
    summary.add(&Answer::Refused);
    let Ok(mut text) = TextBuffer::new(alloc) else {
        return Err(Fail::from(AllocError));
    };
    text.sum_up(&summary);
    assert!(rt; text.as_slice() == b"lines 3 replies 1 errors 1 other 1 read 3\n".as_slice());
    let told = text.tell(Answer::Spent);
    assert!(rt; matches!(told, Answer::Spent));
    assert!(rt; text.as_slice() == b"spent\n".as_slice());
    Ok(())
}
