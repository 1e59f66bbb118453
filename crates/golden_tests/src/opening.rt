// What the stored file system shows. Its moments are those of the sessions that made it.

use crate::stories::tell;
use std::alloc::Global;
use std::test::Fail;
use test_systems::{Status, System, ask};

/// The answer to a read of the whole report: each byte is its place modulo 251 but for two that were written later.
fn report(alloc: Global) -> Result<String, Fail> {
    let mut bytes = Vec::new(alloc);
    for place in 0..1900u16 {
        bytes.push(match place {
            1000 => 0xff,
            1001 => 0xee,
            _ => (place % 251) as u8,
        })?;
    }
    let digits = hex::encode(alloc, bytes.as_slice())?;
    Ok(format!(in alloc; "data {digits}\n")?)
}

/// A read of the whole report gives it.
pub fn shows_report(alloc: Global, system: &mut System) -> Result<(), Fail> {
    let text = report(alloc)?;
    let lines = "read /docs/report 0 2000\n";
    ask(alloc, system, lines, &text, Status::Done)
}

const SHOWN: &str = "# sessions that only look show what was written, and leave the record as it was
> !stored
> !note
> info
pw
=
filesystem 299B7F00ACD74916C2D7097FB2CE040E
root 2E0435824AAF8B86DF5ED063B4777541
cipher aes-256-gcm
blocksize 256
scrypt 16 8 1
> shell
pw
ls /
=
list 2
d docs
l link
> shell
pw
ls /docs
=
list 3
d deep
f note
f report
> shell
pw
ls /docs/deep
=
list 1
d er
> shell
pw
ls /docs/deep/er
=
list 1
f new\\x20name
> shell
pw
stat /
=
stat d 755 0 0 0 0.000000000 0.000000000 0.000000000
> shell
pw
stat /docs
=
stat d 711 0 0 0 1795917643.330841469 1795917643.330841469 1795917643.614513550
> shell
pw
stat /docs/deep
=
stat d 755 0 0 0 5.000000006 7.000000008 1795917643.330841469
> shell
pw
stat /docs/deep/er
=
stat d 755 0 0 0 1795917643.330841469 1795917643.330841469 1795917643.330841469
> shell
pw
stat /docs/deep/er/new\\x20name
=
stat f 644 0 0 0 1795917643.330841469 1795917643.330841469 1795917643.614513550
> shell
pw
stat /docs/note
=
stat f 640 1000 100 7 1795917643.330841469 1795917643.614513550 1795917643.614513550
> shell
pw
stat /docs/report
=
stat f 644 0 0 1900 1795917643.330841469 1795917643.614513550 1795917643.614513550
> shell
pw
stat /link
=
stat l 777 0 0 12 1795917643.330841469 1795917643.330841469 1795917643.330841469
> shell
pw
readlink /link
=
link ../docs/note
> shell
pw
read /docs/note 0 9
=
data 0000006162630a
> shell
pw
read /docs/report 998 4
=
data f5f6ffee
> shell
pw
read /docs/report 1896 9
=
data 8b8c8d8e
> shell
pw
stat /gone
=
error no-entry
> shell
pw
stat /empty
=
error no-entry
> shell
pw
stat /old
=
error no-entry
> !report
> !keeps-noted
> shell
pw
mkdir /docs/deep/new
rm /docs/report
=
ok
ok
> shell
pw
ls /docs/deep
ls /docs
=
list 2
d er
d new
list 2
d deep
f note
# what waits is put: a file was made, so there is one block more, and the newer record knows 30 ids
> !waiting
> !blocks 24
> shell
pw
ls /
ls /docs
ls /docs/deep
read /docs/late 0 9
readlink /docs/deep/link
stat /docs/deep/link
=
list 1
d docs
list 4
d deep
f late
f note
f report
list 2
d er
l link
data 6c617465
link ../docs/note
stat l 777 0 0 12 1795917643.330841469 1795917643.330841469 1795917643.718478323
> !blocks 25
> !keeps 871
";

/// The newer form of the record has 121 bytes and 25 for each id.
#[test]
fn opens_and_shows_what_was_written(rt: HostRuntime) -> Result<(), Fail> {
    tell(&rt, SHOWN)
}
