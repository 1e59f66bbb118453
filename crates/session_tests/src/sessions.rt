// Sessions over a directory that keeps its promises.

use crate::stories::tell;
use std::test::Fail;

const LINES: &str = "# a second session sees what the first wrote
> shell
pw
mkfile /f
write /f 5 6162
read /f 0 100
read /f 7 1
=
ok
ok
data 00000000006162
data -
> !at 200
> shell
pw
write /f 9 -
stat /f
=
ok
stat f 644 0 0 7 100.000000005 100.000000005 100.000000005
# moves follow the order of errors
> shell
pw
mkdir /a
mkdir /b
mkdir /c
mkfile /c/x
mkfile /f
mv /a /a/b
mv /a /b
mv /b /c
mv /f /b
mv /b /f
mv /f /f
mv / /b
mv /zz /b
ls /
=
ok
ok
ok
ok
ok
error invalid
ok
error not-empty
error is-directory
error not-directory
ok
error busy
error no-entry
list 3
d b
d c
f f
# directories take the moment at which their children change
> !at 9
> shell
pw
mkdir /a
mkdir /b
mkfile /a/f
utime /a 1.000000000 2.000000000
utime /b 1.000000000 2.000000000
mv /a/f /b/f
stat /a
stat /b
utime /b 1.000000000 2.000000000
mv /b/f /b/f
write /b/f 0 61
stat /b
mkdir /b/d
mkfile /b/d/g
utime /b/d 3.000000000 4.000000000
utime /b 1.000000000 2.000000000
rm /b/d/g
stat /b/d
stat /b
rmdir /b/d
stat /b
stat /
=
ok
ok
ok
ok
ok
ok
stat d 755 0 0 0 1.000000000 9.000000000 9.000000000
stat d 755 0 0 0 1.000000000 9.000000000 9.000000000
ok
ok
ok
stat d 755 0 0 0 1.000000000 2.000000000 9.000000000
ok
ok
ok
ok
ok
stat d 755 0 0 0 3.000000000 9.000000000 9.000000000
stat d 755 0 0 0 1.000000000 2.000000000 9.000000000
ok
stat d 755 0 0 0 1.000000000 9.000000000 9.000000000
stat d 755 0 0 0 0.000000000 0.000000000 0.000000000
# pieces of one byte make no difference
> !piece 1
> shell
pw
mkdir /a

ls /=
ok
error bad-line
list 1
d a
# pieces of two bytes make no difference
> !piece 2
> shell
pw
mkdir /a

ls /=
ok
error bad-line
list 1
d a
# pieces of seven bytes make no difference
> !piece 7
> shell
pw
mkdir /a

ls /=
ok
error bad-line
list 1
d a
";

#[test]
fn lines_are_answered(rt: HostRuntime) -> Result<(), Fail> {
    tell(&rt, "", LINES)
}

const FORMS: &str = "# another password takes the place of the old one
> passwd
pw
q
=
changed
> shell
pw
= configuration does not open
> ls|/
q
=
list 0
# words of a command are a session of one line, and what follows the password line is not read as a script
> mkdir|/a
pw
mkdir /b
=
ok
> ls|/
pw
mkdir /b
=
list 1
d a
> ls
pw
mkdir /b
=
error bad-line
> read|/|0
pw
mkdir /b
=
error bad-line
> ls|
pw
mkdir /b
=
error bad-line
> ls|/ /
pw
mkdir /b
=
error bad-line
> sync
pw
mkdir /b
=
ok
# few words and no lines
> shell
pw
=
> info
pw
=
filesystem 00000000000000000000000000000000
root 00000000000000000000000000000001
cipher aes-256-gcm
blocksize 16384
scrypt 16 8 1
> generate|1
pw
=
lines 1 replies 1 errors 0 other 0 read 0
> generate|x
pw
= usage
> frob
pw
= usage
> ls /
pw
= usage
> (no words)
pw
= usage
";

#[test]
fn words_are_answered(rt: HostRuntime) -> Result<(), Fail> {
    tell(&rt, "", FORMS)
}

const LONG: &str = "# sizes have limits
> shell
pw
mkfile /f
truncate /f 67108864
truncate /f 134217729
=
ok
ok
error too-large
# three sessions with a file of 100,000 bytes
> !piece 4096
> shell
pw
mkdir /docs
mkdir /docs/old
mkfile /docs/report
write /docs/report 0 {41*25000}
write /docs/report 25000 {41*25000}
write /docs/report 50000 {41*25000}
write /docs/report 75000 {41*25000}
=
ok
ok
ok
ok
ok
ok
ok
> !count blocks 11
> shell
pw
mv /docs/report /docs/old/report
read /docs/old/report 99990 100
=
ok
data 41414141414141414141
> !count blocks 11
> shell
pw
mkfile /docs/tmp
rm /docs/tmp
ls /docs
=
ok
ok
list 1
d old
> !count blocks 11
# their lines as one trial
> !nothing
> !piece 4096
> trial
mkdir /docs
mkdir /docs/old
mkfile /docs/report
write /docs/report 0 {41*25000}
write /docs/report 25000 {41*25000}
write /docs/report 50000 {41*25000}
write /docs/report 75000 {41*25000}
mv /docs/report /docs/old/report
read /docs/old/report 99990 100
mkfile /docs/tmp
rm /docs/tmp
ls /docs
=
ok
ok
ok
ok
ok
ok
ok
ok
data 41414141414141414141
ok
ok
list 1
d old
";

#[test]
fn long_lines_and_large_files_are_answered(rt: HostRuntime) -> Result<(), Fail> {
    tell(&rt, "", LONG)
}

const GENERATED: &str = "# over a new file system
> generate|2000
pw
=
lines 2000 replies 1766 errors 234 other 0 read 119375
# as a trial
> !nothing
> trial|generate|2000
=
lines 2000 replies 1766 errors 234 other 0 read 119375
";

#[test]
fn generated_commands_are_summed_as_in_a_trial(rt: HostRuntime) -> Result<(), Fail> {
    tell(&rt, "", GENERATED)
}

const UNOPENED: &str = "# no record
> !nothing
> !note
> shell
pw
mkdir /a
= no local state
> !kept
> !count calls 0
# a record that is none
> !nothing
> !record abc
> !note
> shell
pw
mkdir /a
= local state is damaged
> !kept
> !count calls 0
# another password, and one that is too long
> !note
> shell
px
mkdir /a
= configuration does not open
> !kept
> !count calls 1
> !note
> !piece 65536
> shell
{a*1048577}= password too long
> !kept
> !count calls 0
";

#[test]
fn what_is_not_opened_stays_as_it_is(rt: HostRuntime) -> Result<(), Fail> {
    tell(&rt, "", UNOPENED)
}
