// Runs of `create`, `info` and `passwd`.

use crate::counts::config_in;
use crate::files::configuration;
use crate::stories::tell;
use std::alloc::Global;
use std::test::Fail;
use test_systems::{Status, System, Words, nothing, outcome, plain};

const MADE: &str = "# makes a file system and tells of it
> !nothing
> create|--blocksize|128|--scrypt-n|16
pw
=
created 00000000000000000000000000000000
> !count bytes of the configuration 1126
> !count blocks 1
> !count bytes of the record 146
> info
pw
=
filesystem 00000000000000000000000000000000
root 00000000000000000000000000000001
cipher aes-256-gcm
blocksize 128
scrypt 16 8 1
> info
px
= configuration does not open
> !note
> create|--blocksize|128|--scrypt-n|16
pw
= file system exists
> !kept
> !count calls 0
# goes on after a configuration of another file system
> shell
pw
mkdir /a
=
ok
> !note
> !file config counted
> shell
pw
ls /
= integrity violation
> !file config 0 config
> shell
pw
ls /
=
list 1
d a
";

#[test]
fn makes_a_file_system_and_tells_of_it(rt: HostRuntime) -> Result<(), Fail> {
    tell(&rt, "", MADE)
}

/// What `create` makes of words that count, where it writes that it made it.
fn made_by_counting(alloc: Global) -> Result<Option<System>, Fail> {
    let mut chance = Words { word: 0, step: 1 };
    let case = plain(&["create", "--blocksize", "128", "--scrypt-n", "16"], "pw");
    let (text, status, after) = outcome(alloc, nothing(alloc), &case, &mut chance)?;
    if status == Status::Done
        && text.as_slice() == b"created 00000000010000000200000003000000\n".as_slice()
    {
        Ok(Some(after))
    } else {
        Ok(None)
    }
}

#[test]
fn draws_in_order(rt: HostRuntime) -> Result<(), Fail> {
    let made = configuration(rt.alloc(), "counted")?;
    let system = made_by_counting(rt.alloc())?.ok_or("it is made")?;
    assert!(rt; config_in(&system.vault) == Some(made.as_slice()));
    Ok(())
}

/// A record of the file system of the configuration made by hand, and that configuration.
const BY_HAND: &str = "> !by-hand
> !file config by-hand
";

const TOLD: &str = "# tells what a file says
> info
pw
=
filesystem A0A1A2A3A4A5A6A7A8A9AAABACADAEAF
root F0F1F2F3F4F5F6F7F8F9FAFBFCFDFEFF
cipher aes-256-gcm
blocksize 1048576
scrypt 32 2 3
> !whole
> info
pw
=
filesystem A0A1A2A3A4A5A6A7A8A9AAABACADAEAF
root F0F1F2F3F4F5F6F7F8F9FAFBFCFDFEFF
cipher aes-256-gcm
blocksize 1048576
scrypt 32 2 3
> info
pw
ls /
=
filesystem A0A1A2A3A4A5A6A7A8A9AAABACADAEAF
root F0F1F2F3F4F5F6F7F8F9FAFBFCFDFEFF
cipher aes-256-gcm
blocksize 1048576
scrypt 32 2 3
# needs the password
> info
= configuration does not open
> !whole
> info

= configuration does not open
> info
pw\r
= configuration does not open
> info
p= configuration does not open
";

#[test]
fn tells_what_a_file_says(rt: HostRuntime) -> Result<(), Fail> {
    tell(&rt, BY_HAND, TOLD)
}

/// Each form that opens a file system is tried.
const REFUSED: &str = "# a file that is cut
> !file config shorter
> !forms configuration has another form
# an empty file
> !file config empty
> !forms configuration has another form
# a byte is changed, and then one more follows
> !file config changed-at-1000
> !forms configuration does not open
> !file config longer
> !forms configuration has another form
# another cipher
> !file config other-cipher
> !forms configuration has wrong contents
# other members
> !file config other-json
> !forms configuration has wrong contents
# blocks that are too small
> !file config small-blocks
> !forms configuration has wrong contents
# a configuration of another file system
> !file config counted
> !forms integrity violation
# no configuration
> !file config gone
> !forms no configuration
";

#[test]
fn refuses_files(rt: HostRuntime) -> Result<(), Fail> {
    tell(&rt, BY_HAND, REFUSED)
}

const FAULTS: &str = "# the output, as a file system is made
> !nothing
> !write-fails 2
> create|--blocksize|128|--scrypt-n|16
pw
= output fault
created\
# the directory
> !nothing
> !calls-fail 1
> create|--blocksize|128|--scrypt-n|16
pw
= block directory fault
> !nothing
> !calls-fail 2
> create|--blocksize|128|--scrypt-n|16
pw
= block directory fault
> !nothing
> !calls-fail 3
> create|--blocksize|128|--scrypt-n|16
pw
= block directory fault
# the record
> !nothing
> !save-fails 1
> create|--blocksize|128|--scrypt-n|16
pw
= local state fault
> !nothing
> !save-fails 2
> create|--blocksize|128|--scrypt-n|16
pw
= local state fault
# the output of info, and the directory
> !write-fails 1
> info
pw
= output fault
> !plain
> !calls-fail 1
> info
pw
= block directory fault
";

#[test]
fn names_what_failed(rt: HostRuntime) -> Result<(), Fail> {
    tell(&rt, "", FAULTS)
}
