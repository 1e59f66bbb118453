// Copies of folders and of a file into a tree in memory and out of it, and what stands there afterwards.
use crate::stories::tell;
use std::test::Fail;

const IMPORTS: &str = "# a folder is imported once
! folder small
! tree import / 1 1 1 2
! tree reads /d/f 0 ab
! tree import / exists 1
# a long name and a file of two pieces
! folder file /{n*255} sevens*1048579
! tree import / 0 1 0 1048579
! tree reads /{n*255} 1048576 sevens*3
# a path of 4096 bytes is made, which has sixteen such names
! folder directories /{n*255}/{n*255}/{n*255}/{n*255}/{n*255}/{n*255}/{n*255}/{n*255}/{n*255}/{n*255}/{n*255}/{n*255}/{n*255}/{n*255}/{n*255}/{n*255}
! tree import / 16 0 0 0
# none longer is made
! folder directories /{n*255}/{n*255}/{n*255}/{n*255}/{n*255}/{n*255}/{n*255}/{n*255}/{n*255}/{n*255}/{n*255}/{n*255}/{n*255}/{n*255}/{n*255}/{n*255}/{n*255}
! tree import / long-path 17
# an empty folder asks nothing
! tree import / 0 0 0 0
# a listing that fails first is a fault
! folder small
! folder call-fails 1
! tree import / fault
";

#[test]
fn folders_are_imported(rt: HostRuntime) -> Result<(), Fail> {
    tell(&rt, IMPORTS)
}

const EXPORTS: &str = "# what was imported is exported
! folder small
! folder directories /e
! tree import / 2 1 1 2
! folder empty
! tree export / 2 1 1 2
! folder rows / dd de ll
! folder rows /d ff
! folder rows /e
! folder holds /d/f 0 ab
! folder leads /l d/f
# a directory below the root is exported alone
! folder small
! folder directories /e
! tree import / 2 1 1 2
! folder empty
! tree export /d 0 1 0 2
! folder rows / ff
! folder holds /f 1 b
# a file of one whole piece
! folder file /f sevens*1048576
! tree import / 0 1 0 1048576
! folder empty
! tree export / 0 1 0 1048576
! folder holds /f 0 sevens*1048576
# a file of two pieces
! folder file /f sevens*1048579
! tree import / 0 1 0 1048579
! folder empty
! tree export / 0 1 0 1048579
! folder holds /f 0 sevens*1048579
# a folder with rows is refused
! folder file /f abc
! tree import / 0 1 0 3
! folder small
! tree export / not-empty 0
! folder rows / dd ll
# a source that is a file or missing is refused
! folder file /f abc
! tree import / 0 1 0 3
! folder empty
! tree export /f not-directory 1
! folder rows /
! tree export /g no-entry 1
! folder rows /
# an append that fails leaves what was put before: the calls are a list, a make and two appends
! folder file /f sevens*1048579
! tree import / 0 1 0 1048579
! folder empty
! folder call-fails 4
! tree export / fault
! folder holds /f 0 sevens*1048576
";

#[test]
fn trees_are_exported(rt: HostRuntime) -> Result<(), Fail> {
    tell(&rt, EXPORTS)
}

const FILES: &str = "# a file is put once
! file put mixed*300 0 1 0 300
! file put other exists
! file size 300
# an input that fails leaves whole pieces
! file put-failing 24 mixed*1200000 fault
! file size 1048576
# 0 bytes that were put are got back
! file put mixed*0 0 1 0 0
! file get 2000000 mixed*0 done
# 1 bytes that were put are got back
! file put mixed*1 0 1 0 1
! file get 2000000 mixed*1 done
# 1048576 bytes that were put are got back
! file put mixed*1048576 0 1 0 1048576
! file get 2000000 mixed*1048576 done
# 1048579 bytes that were put are got back
! file put mixed*1048579 0 1 0 1048579
! file get 2000000 mixed*1048579 done
# a path that is refused writes nothing
! file get 100 mixed*0 no-entry
# an output that fails has the front
! file put mixed*200000 0 1 0 200000
! file get 100000 mixed*100000 fault
";

#[test]
fn files_are_put_and_got(rt: HostRuntime) -> Result<(), Fail> {
    tell(&rt, FILES)
}
