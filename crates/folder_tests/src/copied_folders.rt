// Folders that are read and filled for a copy: what they give, what is made in them, and what is refused.
use crate::stories::tell;
use std::test::Fail;

const GIVEN: &str = "# rows, bytes and targets
makes d
writes d/f: abcde
writes d/a b:
links l: d/f
links D: d
rows: lD|dd|ll
rows d: fa b|ff
reads d/f: abc
reads d/f from 3: de
reads d/f from 5:
reads d/a b:
leads l: d/f
# no link is followed, and each call is for one kind
makes d
writes d/f: abcde
writes d/a b:
links l: d/f
links D: d
fails-to-list D
fails-to-list d/f
fails-to-list no
fails-to-read l
fails-to-read d
fails-to-read D/f
not leads d/f: d/f
# a folder that isn't there | none /nowhere/blocks /nowhere/state
fails-to-list
# a file in place of the folder | f /nowhere/blocks /nowhere/state
writes f: a file
fails-to-list
fails-to-read
# a folder without a path | (nowhere) /nowhere/blocks /nowhere/state
fails-to-list
";

const FILLED: &str = "# folders, files and links
rows:
adds-folder d
adds-file d/f
adds-link l: no/where
rows: dd|ll
rows d: ff
leads l: no/where
ends
# bytes stand behind one another
adds-file f
appends f: abc
appends f: de
adds-folder d
appends f: f
ends
holds f: abcdef
# what is there isn't made anew
writes f: old
links l: new
not adds-file f
not adds-link f: a
not adds-folder
rows: ff|ll
holds f: old
# nothing is made where a link leads
writes f: old
links l: new
not adds-file l
not adds-folder l
not appends l: x
rows: ff|ll
# more folders than are open at once
adds-folders n*150
rows-above n*150: dn
ends
rows n*150:
";

const MOVED: &str =
    "# a folder that is open is read and filled on, wherever it lies, and a link in its place is none
makes d
writes d/f: own
makes other
writes other/f: strange
rows d: ff
renames d: moved
links d: other
reads d/f: own
adds-file d/g
rows other: ff
rows moved: ff|fg
fails-to-list d
fails-to-read d/f
# of many the first folders are closed, and another one in the place of one is noticed
adds-folders n*70
rows n*70:
renames n: moved
makes n/n
rows n*69: dn
fails-to-list n
";

/// The block folder, what is above or below it, and the state folder aren't copied, and nothing is put into them.
const BARRED: &str = "# the folder that the block folder lies in | . b /nowhere
makes b/000
links l: b
fails-to-list
# the block folder | b b /nowhere
makes b/000
links l: b
fails-to-list
# a folder in the block folder, to which a link leads | b/000 l /nowhere
makes b/000
links l: b
fails-to-list
# a link that leads to the block folder | l b /nowhere
makes b/000
links l: b
fails-to-list
# the same folder where the blocks lie elsewhere | b /nowhere /nowhere
makes b/000
links l: b
not fails-to-list
# the folder of a state folder that is made in the midst | . /nowhere s
rows:
makes s
fails-to-list
";

#[test]
fn folders_of_copies(rt: HostRuntime) -> Result<(), Fail> {
    tell(&rt, "copy", GIVEN)?;
    tell(&rt, "copy", FILLED)?;
    tell(&rt, "copy", MOVED)?;
    tell(&rt, "copy", BARRED)
}
