// Trees, roots, blobs and entries, each with what is wrong with it.
use crate::stories::tell;
use std::test::Fail;

const TREES: &str = "# a leaf that nothing reaches is unowned
payload 50
put /: header directory -
= fine
put a: header file /, text a leaf
> = unowned a
# without blocks the root is dead
payload 50
> = not-live /
# a root has two children and a depth
payload _
put /: header directory -, entry file x f
put f _: _
> 50 | 1 | text {0*0} | = bad-node f
> 50 | 1 | ids a | = bad-node f
> 50 | 1 | ids a a | = not-live a
> 50 | 35 | ids a a | = not-live a
> 50 | 36 | ids a a | = bad-node f
> 50 | 255 | ids a a | = bad-node f
> 1000 | 6 | ids a a a | = not-live a
> 1000 | 7 | ids a a a | = bad-node f
# all leaves but the last are full
payload 72
put /: header directory -, entry file x f
put f 1: ids a b
put a 0: _
put b 0: _
> header file /, text {7*45} | filling 1 | = fine
> header file /, text {7*45} | filling 64 | = fine
> header file /, text {7*44} | filling 1 | = bad-node a
> header file /, text {7*45} | filling 0 | = bad-node b
> filling 0 | filling 64 | = bad-node a
# a block belongs to one place
payload 1000
put /: header directory -, entry file x f, entry file y f
put f: header file /, text twice
> = twice f
# a directory is not below itself
payload 1000
put /: header directory -, entry directory x /
> = twice /
# of two wrong blobs the one nearer to the root is named
payload 1000
put /: header directory -, entry directory x d, entry file y f
put d: header directory /, entry file z l
= not-live f
put f: text no header
> = bad-blob f
";

#[test]
fn trees_are_judged(rt: HostRuntime) -> Result<(), Fail> {
    tell(&rt, TREES)
}

const BLOBS: &str = "# a directory or a file is of its entry's kind
payload 72
put /: header directory -, entry _ x a
put a: header _ /
> directory | directory | = fine
> directory | file | = bad-blob a
> directory | link | = bad-blob a
> directory | other | = bad-blob a
> file | directory | = bad-blob a
> file | file | = fine
> file | link | = bad-blob a
> file | other | = bad-blob a
# a link is of its entry's kind
payload 72
put /: header directory -, entry link x a
put a: header _ /, text t
> directory | = bad-blob a
> file | = bad-blob a
> link | = fine
> other | = bad-blob a
# a target is of its form: 116 is a letter
payload 72
put /: header directory -, entry link x a
put a: header link /, text _
> {116*0} | = bad-blob a
> {116*1} | = fine
> {0*1} | = bad-blob a
> {116*8}{0*1} | = bad-blob a
> {116*4095} | = fine
> {116*4094}{0*1} | = bad-blob a
> {116*4096} | = bad-blob a
> {116*4500} | = bad-blob a
# a root is a directory of no parent
payload 50
put /: _
> header directory - | = fine
> text {1*1}{0*2}{9*16} | = parent /
> header file - | = bad-blob /
> header link - | = bad-blob /
# a blob has a header
payload 50
put /: text _
> {0*0} | = bad-blob /
> {1*1} | = bad-blob /
> {1*1}{0*1} | = bad-blob /
> {1*1}{0*17} | = bad-blob /
";

#[test]
fn blobs_are_judged(rt: HostRuntime) -> Result<(), Fail> {
    tell(&rt, BLOBS)
}

const ENTRIES: &str = "# an entry is of its form
payload 130
about _
put /: header directory -, entry file _ f, set _ _
put f: header file /
> the kind | x | 0 | 1 | = fine
> the kind | x | 0 | 3 | = bad-blob /
> the mode | x | 2 | 15 | = fine
> the mode | x | 2 | 16 | = bad-blob /
> the mode | x | 3 | 1 | = bad-blob /
> the mode | x | 4 | 1 | = bad-blob /
> the user | x | 8 | 255 | = fine
> the group | x | 12 | 255 | = fine
> the seconds of a moment | x | 20 | 255 | = fine
> the nanoseconds of a moment | x | 24 | 59 | = fine
> the nanoseconds of a moment | x | 24 | 60 | = bad-blob /
> the nanoseconds of a moment | x | 36 | 60 | = bad-blob /
> the nanoseconds of a moment | x | 48 | 60 | = bad-blob /
> the name | . | 0 | 1 | = bad-blob /
> the name | .. | 0 | 1 | = bad-blob /
> the name | ... | 0 | 1 | = fine
> the name | a/b | 0 | 1 | = bad-blob /
> the name | {10*1}{255*1} | 0 | 1 | = fine
> the name | ab | 50 | 0 | = bad-blob /
> the name | x | 49 | 0 | = bad-blob /
> the length of the name | {120*1} | 0 | 1 | = fine
> the length of the name | {120*255} | 0 | 1 | = fine
> the length of the name | {120*256} | 0 | 1 | = bad-blob /
# entries are whole
payload 130
put /: header directory -, entry file x f, whole _
put f: header file /
> 48 | = bad-blob /
> 50 | = bad-blob /
> 66 | = bad-blob /
> 67 | = fine
> 68 | = bad-blob /
";

#[test]
fn entries_are_judged(rt: HostRuntime) -> Result<(), Fail> {
    tell(&rt, ENTRIES)
}
