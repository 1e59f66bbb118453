// A file system that is made in memory, and asked lines there.

use fs_model::Moment;
use program_laws::run_in_memory;
use std::test::Fail;
use test_systems::ZEROS;

const SCRIPT: &[u8] =
    b"mkdir /a\nmkfile /a/f\nwrite /a/f 0 6162\nread /a/f 0 10\nls /\nrm /a\nread /b 0 1\n";

const ANSWERS: &[u8] = b"ok\nok\nok\ndata 6162\nlist 1\nd a\nerror is-directory\nerror no-entry\n";

#[test]
fn a_file_system_in_memory_answers_as_the_plain_tree(rt: HostRuntime) -> Result<(), Fail> {
    let Some(now) = Moment::new(9, 0) else {
        return Err(Fail::new("no moment"));
    };
    let mut zeros = ZEROS;
    match run_in_memory(rt.alloc(), now, SCRIPT, &mut zeros) {
        Ok(text) if text.as_slice() == ANSWERS => Ok(()),
        Ok(_) => Err(Fail::new("other answers")),
        Err(_) => Err(Fail::new("want of memory")),
    }
}
