// There is one tree that blobs show, and one that is kept.
ghost use Rattle.program_laws.specs.OneTree.{OneShown, OneKept};

/// Blobs show at most one tree from a root on.
pub fn one_shown()
    ensures { OneShown }
{}

/// Under a configuration, what is kept and the calls on the directory stand for one tree at most.
pub fn one_tree()
    ensures { OneKept }
{}
