// Runs of `import`, `export`, `put` and `get`, and what later ones see of them.
use crate::stories::tell;
use std::test::Fail;

const IMPORTS: &str = "# a folder is imported once
! system new
! folder small
> import|/
pw
=
imported 1 1 1 2
> ls|/
pw
=
list 2
d d
l l
> read|/d/f|0|9
pw
=
data 6162
> readlink|/l
pw
=
link d/f
> import|/
pw
= copy refused
error exists /d
> ls|/
pw
=
list 2
d d
l l
# a target is a directory that is there
! system new
! folder small
> import|/n
pw
= copy refused
error no-entry /n/d
> mkfile|/n
pw
=
ok
> import|/n
pw
= copy refused
error not-directory /n/d
> mkdir|/m
pw
=
ok
> import|/m
pw
=
imported 1 1 1 2
> ls|/m
pw
=
list 2
d d
l l
> ls|/
pw
=
list 2
d m
f n
# a folder that fails first is a fault
! system new
! folder small
! folder call-fails 1
> import|/
pw
= host folder fault
> ls|/
pw
=
list 0
# one that fails later leaves a part: the third call reads the file
! system new
! folder small
! folder call-fails 3
> import|/
pw
= host folder fault
> ls|/
pw
=
list 1
d d
> ls|/d
pw
=
list 1
f f
> read|/d/f|0|9
pw
=
data -
# a name prints with escapes
! system new
! folder directories /a b
> import|/
pw
=
imported 1 0 0 0
> import|/
pw
= copy refused
error exists /a\\x20b
> import|/a\\x20b
pw
=
imported 1 0 0 0
";

#[test]
fn folders_are_imported(rt: HostRuntime) -> Result<(), Fail> {
    tell(&rt, IMPORTS)
}

const EXPORTS: &str = "# what was imported is exported
! system new
! folder small
> import|/
pw
=
imported 1 1 1 2
! folder empty
> export|/
pw
=
exported 1 1 1 2
> export|/
pw
= copy refused
error not-empty /
! folder rows / dd ll
! folder rows /d ff
! folder holds /d/f 0 ab
! folder leads /l d/f
! system new
> import|/
pw
=
imported 1 1 1 2
> read|/d/f|0|9
pw
=
data 6162
> readlink|/l
pw
=
link d/f
# only a directory that is there is exported
! system new
! folder small
> import|/
pw
=
imported 1 1 1 2
! folder empty
> export|/n
pw
= copy refused
error no-entry /n
> export|/l
pw
= copy refused
error not-directory /l
> export|/d
pw
=
exported 0 1 0 2
! folder rows / ff
# a folder that fails first is a fault
! system new
! folder small
> import|/
pw
=
imported 1 1 1 2
! folder empty
! folder call-fails 1
> export|/
pw
= host folder fault
! folder rows /
# one that fails later has a part: the third call makes the file
! system new
! folder small
> import|/
pw
=
imported 1 1 1 2
! folder empty
! folder call-fails 3
> export|/
pw
= host folder fault
! folder rows / dd
! folder rows /d
";

#[test]
fn folders_are_exported(rt: HostRuntime) -> Result<(), Fail> {
    tell(&rt, EXPORTS)
}

const STOPS: &str = "# a fault of the block directory is told
! system new
! folder small
! system calls-fail 2
> import|/
pw
= copy stopped
fault directory
! system calls-fail
> ls|/
pw
=
list 0
# so is one in an export
! system new
! system calls-fail 2
> export|/
pw
= copy stopped
fault directory
# a block that is gone is told, and later runs are refused
! system new
! folder small
> import|/
pw
=
imported 1 1 1 2
! system without-block 1
> import|/
pw
= integrity violation
violation missing
> export|/
pw
= integrity violation
> ls|/
pw
= integrity violation
# in an export a block that isn't given is as one that is gone
! system new
! system finds-nothing 2
> export|/
pw
= integrity violation
violation missing
> import|/
pw
= integrity violation
# a fault of closing stands before a refusal: the record can't be saved
! system new
! system save-fails
! folder small
> import|/
pw
= local state fault
imported 1 1 1 2
! system new
> import|/
pw
=
imported 1 1 1 2
";

#[test]
fn copies_stop(rt: HostRuntime) -> Result<(), Fail> {
    tell(&rt, STOPS)
}

const WORDS: &str = "# a copy takes one path, as a line of a script says it
! system new
> import
pw
= usage
> export
pw
= usage
> put
pw
= usage
> get
pw
= usage
> import|a
pw
= usage
> import|
pw
= usage
> import|/a/../b
pw
= usage
> import|/a b
pw
= usage
> export|/\\x2
pw
= usage
> import|/|/
pw
= usage
> imports|/
pw
= usage
# nothing opens under another password
! system new
> import|/
px
= configuration does not open
> export|/
px
= configuration does not open
# what was put is got
! system new
> put|/f
pw
ab
cd=
imported 0 1 0 5
> get|/f
pw
=
ab
cd> put|/f
pw
ab
cd= copy refused
error exists /f
> get|/f
pw
=
ab
cd> get|/n
pw
= copy refused
> get|/
pw
= copy refused
";

#[test]
fn words_and_files_are_taken(rt: HostRuntime) -> Result<(), Fail> {
    tell(&rt, WORDS)
}
