// Runs of `trial`, and words that no form has.

use crate::stories::tell;
use std::test::Fail;

const OVER_NOTHING: &str = "> !nothing\n";

const STREAMS: &str = "# answers lines whatever the pieces
> !piece 1
> trial
=
> trial
mkdir /a
mkdir /a
ls /=
ok
error exists
list 1
d a
> !piece 2
> trial
=
> trial
mkdir /a
mkdir /a
ls /=
ok
error exists
list 1
d a
> !piece 7
> trial
=
> trial
mkdir /a
mkdir /a
ls /=
ok
error exists
list 1
d a
> !piece 4096
> trial
=
> trial
mkdir /a
mkdir /a
ls /=
ok
error exists
list 1
d a
# names the input where its second call fails
> !whole
> !piece 4096
> !read-fails 2
> trial
mkdir /a
= input fault
ok
> !piece 12
> trial
mkdir /a
mkdir /b
= input fault
ok
# names the output that fails
> !piece 4096
> !write-fails 1
> trial
mkdir /a
mkdir /a
ls /= output fault
";

#[test]
fn streams_come_in_pieces_and_fail(rt: HostRuntime) -> Result<(), Fail> {
    tell(&rt, OVER_NOTHING, STREAMS)
}

const REFUSED: &str = "# other words
> (no words)
= usage
> frob
= usage
> Create
= usage
> ls /
= usage
> LS|/
= usage
> lsx|/
= usage
> trial|x
= usage
> trial|generate
= usage
> trial|generate|x
= usage
> trial|generate|
= usage
> trial|generate|1000001
= usage
> trial|generate|00000001
= usage
> generate
= usage
> generate|x
= usage
> generate|1000001
= usage
> generate|1|1
= usage
> shell|x
= usage
> passwd|x
= usage
> info|x
= usage
> info|--help
= usage
# other options of create
> create|--blocksize|127
= usage
> create|--blocksize|1048577
= usage
> create|--scrypt-n|1
= usage
> create|--scrypt-n|3
= usage
> create|--scrypt-n|2097152
= usage
> create|--scrypt-r|0
= usage
> create|--scrypt-r|9
= usage
> create|--scrypt-p=0
= usage
> create|--scrypt-p=17
= usage
> create|--scrypt-p=4294967297
= usage
> create|--blocksize|128|--blocksize|128
= usage
> create|--blocksize|000000000000000000128
= usage
> create|--blocksize|+128
= usage
> create|--blocksize|
= usage
> create|--blocksize
= usage
> create|--cipher|aes-256-gcm
= usage
> create|x
= usage
> create|-h
= usage
> create|--
= usage
";

#[test]
fn refuses_other_words_and_options(rt: HostRuntime) -> Result<(), Fail> {
    tell(&rt, OVER_NOTHING, REFUSED)
}

const GENERATED: &str = "# none, a few and many
> trial|generate|0
=
lines 0 replies 0 errors 0 other 0 read 0
> trial|generate|8
=
lines 8 replies 8 errors 0 other 0 read 11
> trial|generate|2000
=
lines 2000 replies 1766 errors 234 other 0 read 119375
";

#[test]
fn summarizes_generated_commands(rt: HostRuntime) -> Result<(), Fail> {
    tell(&rt, OVER_NOTHING, GENERATED)
}

const MOVES: &str = "# moves over what is there, and sizes of files
> trial
mkdir /a
mkdir /b
mkdir /c
mkfile /c/x
mkfile /f
mv /a /a/b
mv /a /b
mv /b /c
mv /f /b
mv /b /f
mv /f /f
mv / /b
mv /zz /b
ls /
=
ok
ok
ok
ok
ok
error invalid
ok
error not-empty
error is-directory
error not-directory
ok
error busy
error no-entry
list 3
d b
d c
f f
> trial
mkfile /f
truncate /f 67108864
truncate /f 134217729
truncate /f 134217728
=
ok
ok
error too-large
ok
";

#[test]
fn moves_over_what_is_there(rt: HostRuntime) -> Result<(), Fail> {
    tell(&rt, OVER_NOTHING, MOVES)
}

const LINES: &str = "# keeps attributes
> !at 9
> trial
mkfile /f
chmod /f 600
chown /f 7 8
utime /f 1.000000000 2.000000000
stat /f
stat /
chmod / 700
readlink /f
symlink /x /l
readlink /l
read /l 0 1
rmdir /f
read / 0 1
rmdir /q
=
ok
ok
ok
ok
stat f 600 7 8 0 1.000000000 2.000000000 9.000000000
stat d 755 0 0 0 0.000000000 0.000000000 0.000000000
error busy
error not-link
ok
link /x
error invalid
error not-directory
error is-directory
error no-entry
# directories take the moment at which their children change
> !at 9
> trial
mkdir /a
mkdir /b
mkfile /a/f
utime /a 1.000000000 2.000000000
utime /b 1.000000000 2.000000000
mv /a/f /b/f
stat /a
stat /b
utime /b 1.000000000 2.000000000
mv /b/f /b/f
write /b/f 0 61
stat /b
mkdir /b/d
mkfile /b/d/g
utime /b/d 3.000000000 4.000000000
utime /b 1.000000000 2.000000000
rm /b/d/g
stat /b/d
stat /b
rmdir /b/d
stat /b
stat /
=
ok
ok
ok
ok
ok
ok
stat d 755 0 0 0 1.000000000 9.000000000 9.000000000
stat d 755 0 0 0 1.000000000 9.000000000 9.000000000
ok
ok
ok
stat d 755 0 0 0 1.000000000 2.000000000 9.000000000
ok
ok
ok
ok
ok
stat d 755 0 0 0 3.000000000 9.000000000 9.000000000
stat d 755 0 0 0 1.000000000 2.000000000 9.000000000
ok
stat d 755 0 0 0 1.000000000 9.000000000 9.000000000
stat d 755 0 0 0 0.000000000 0.000000000 0.000000000
# refuses bad lines and goes on
> trial
mkdir a
mkdir //
mkdir /.
symlink t /l
ls /l/x
mkdir /a\\x20b
stat /a\\x20b

frob /
read /l 0
mkdir /a\\q
=
error invalid
error invalid
error invalid
ok
error not-directory
ok
stat d 755 0 0 0 100.000000005 100.000000005 100.000000005
error bad-line
error bad-line
error bad-line
error bad-line
# a name of 255 letters, one of 256, a line that is too long, and one that is none of these
> !piece 4096
> trial
mkdir /{a*255}
mkdir /{a*256}
mkdir /{a*1048570}
mkdir /b=
ok
error name-too-long
error bad-line
ok
";

#[test]
fn lines_are_answered(rt: HostRuntime) -> Result<(), Fail> {
    tell(&rt, OVER_NOTHING, LINES)
}
