// New file systems in the forms of before block format 2, drawn from zeros.

use crate::stories::{Tale, tell};
use crate::system::{block_of, system_of};
use crate::{Stored, in_older_forms};
use std::alloc::Global;
use std::test::Fail;
use test_systems::{Status, System, ask, copy_files, file, store};

/// Has what is stored in record form 1 and block format 1.
pub fn become_older(alloc: Global, system: &mut System) -> Result<(), Fail> {
    let kept = system.keeper.kept().ok_or("nothing is kept")?;
    let Stored { files, record } = in_older_forms(alloc, b"pw", system.vault.files(), kept)?;
    *system = system_of(alloc, files, record);
    Ok(())
}

/// A copy of what is stored.
pub fn copied(alloc: Global, system: &System) -> Result<System, Fail> {
    let kept = system.keeper.kept().ok_or("nothing is kept")?;
    let record = kept.to_vec(alloc)?;
    Ok(system_of(alloc, copy_files(alloc, &system.vault)?, record))
}

/// A look at this file system, where the root's file is the noted one of this name, is this violation.
fn is_violation_with(
    alloc: Global,
    system: &mut System,
    noted: &System,
    said: &str,
) -> Result<(), Fail> {
    let (name, verdict) = said.split_once(": ").ok_or("a file and its verdict")?;
    let bytes = file(alloc, noted.vault.files(), block_of(name)?)?;
    store(alloc, system, block_of("new-root")?, Some(bytes))?;
    let text = format!(in alloc; "violation {verdict}\n")?;
    ask(alloc, system, "ls /\n", &text, Status::Violation)
}

/// The same of a copy: `new-child: not-opened`.
pub fn is_violation(alloc: Global, tale: &Tale, said: &str) -> Result<(), Fail> {
    let mut copy = copied(alloc, &tale.system)?;
    is_violation_with(alloc, &mut copy, &tale.noted, said)
}

const MADE: &str = "# a look saves nothing, and a change the newer form of the record
> create|--scrypt-n|16
pw
=
created 00000000000000000000000000000000
> !older
> !note
> !keeps 145
> shell
pw
ls /
=
list 0
> !keeps 145
> shell
pw
mkdir /a
=
ok
> !keeps 171
> !root-as new-root: old-version 2 1
> migrate
pw
=
migrated 2
> !keeps 171
> migrate
pw
=
migrated 0
> !root-as new-root: old-format
> shell
pw
ls /
=
list 1
d a
# a file in another's place opens in format 1, and in format 2 it doesn't
> create|--scrypt-n|16
pw
=
created 00000000000000000000000000000000
> shell
pw
mkdir /a
=
ok
> !older
> !note
> !root-as new-child: wrong-id 76B8E0ADA0F13D90405D6AE55386BD28
> migrate
pw
=
migrated 2
> !note
> !root-as new-child: not-opened
# later runs keep what the record takes: both formats before, and the newer one once the blocks are written anew
> create|--scrypt-n|16
pw
=
created 00000000000000000000000000000000
> shell
pw
mkdir /a
=
ok
> !older
> !note
> passwd
pw
pw
=
changed
> !same new-root
> shell
pw
mkdir /c
ls /
=
ok
list 2
d a
d c
> shell
pw
ls /a
=
list 0
> !same new-child
> migrate
pw
=
migrated 3
> passwd
pw
pw
=
changed
> shell
pw
rmdir /c
=
ok
> !root-as new-root: old-format
";

/// Form 1 of the record has 120 bytes and 25 for each id, form 2 one more. Neither the root's file is written anew with the
/// password, nor its child's with the root's.
#[test]
fn new_ones_are_migrated(rt: HostRuntime) -> Result<(), Fail> {
    tell(&rt, MADE)
}
