// Words of `create`, and what they say.

use crate::rows::{Taken, tell};
use program_words::{CreateOptions, parse_create_options};
use std::alloc::{AllocError, Global};
use std::test::Fail;

/// The words of a line, between which bars stand, or none.
fn words_of(alloc: Global, line: &str) -> Result<Vec<String>, AllocError> {
    let mut words = Vec::new(alloc);
    if line != "(no words)" {
        for word in line.split('|') {
            words.push(String::from_str(alloc, word)?)?;
        }
    }
    Ok(words)
}

/// The options that words say, with nothing said of them.
fn options_of(alloc: Global, words: &[String]) -> Result<Option<CreateOptions>, Fail> {
    Ok(parse_create_options(alloc, words)?)
}

/// The block size, N, r and p that a line's words say, if they do.
pub fn words_told(alloc: Global, line: &str) -> Result<String, Fail> {
    let words = words_of(alloc, line)?;
    Ok(match options_of(alloc, &words)? {
        Some(options) => {
            let params = options.params;
            let size = options.block_size;
            format!(in alloc; "{size} {} {} {}", params.n(), params.r(), params.p())?
        }
        None => String::from_str(alloc, "refused")?,
    })
}

/// The block size, N, r and p.
const SAYING: &str = "# 16384 32768 8 1
(no words)
--scrypt-p|1
# 128 32768 8 1
--blocksize|128
# 1048576 32768 8 1
--blocksize=1048576
# 16384 2 8 1
--scrypt-n|2
# 16384 1048576 8 1
--scrypt-n=1048576
# 16384 32768 1 1
--scrypt-r|1
# 16384 32768 8 1
--scrypt-r=8
# 16384 32768 8 16
--scrypt-p=16
# 4096 64 3 2
--scrypt-p=2|--scrypt-r|3|--blocksize|4096|--scrypt-n=64
# 4096 32768 8 1
--blocksize=00000000000000004096
";

/// Words that are no options, an option that is there twice or has no value, and values.
const REFUSED: &str = "# refused
--
--|--blocksize|128
--blocksize|128|--
--blocksize|--|128
--help
-h
--version
-V
help
--shared
--block|128
--Blocksize|128
-blocksize|128
blocksize|128
128

-
--blocksize|128|4096
--blocksize|128|--blocksize|128
--scrypt-n=16|--scrypt-n|16
--scrypt-r|1|--scrypt-p|1|--scrypt-r=1
--scrypt-p=1|--scrypt-p=1
--blocksize
--blocksize|--scrypt-n|16
--scrypt-n|16|--scrypt-r
--blocksize=
--blocksize|
--blocksize=127
--blocksize=1048577
--scrypt-n=0
--scrypt-n=1
--scrypt-n=3
--scrypt-n=2097152
--scrypt-r=0
--scrypt-r=9
--scrypt-p=0
--scrypt-p=17
--scrypt-r=4294967297
--scrypt-p=18446744073709551617
--blocksize=000000000000000004096
--scrypt-n=+16
--scrypt-n|-16
--scrypt-n=16\x20
--scrypt-n=0x10
--scrypt-n=1_6
--scrypt-n==16
--scrypt-n=16.0
--scrypt-n=\u{0661}\u{0666}
";

#[test]
fn words_say_options_or_are_refused(rt: HostRuntime) -> Result<(), Fail> {
    tell(&rt, &Taken::Words, SAYING)?;
    tell(&rt, &Taken::Words, REFUSED)
}
