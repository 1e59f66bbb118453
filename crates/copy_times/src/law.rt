// What giving attributes leaves.
ghost use Rattle.copy_times.specs.Laws.{GivesAll};

/// Where all was given that is below a folder, each row below the target has the attributes of the folder's row, beside its kind and
/// its bytes, and no other row has changed.
pub fn gives_all()
    ensures { GivesAll }
{}
