// What the commands of a copy leave.
ghost use Rattle.copy_laws.specs.ExportLaws.{ExportIsSame, ExportIsPart};
ghost use Rattle.copy_laws.specs.Importing.{ImportMerges};
ghost use Rattle.copy_laws.specs.Laws.{DoneImportMerges, ImportIsSame, CopyIsSame};

/// Where each command of an import was done, each path of the folder stands below the target with its kind and bytes, and every other path
/// has the kind and the bytes that it had.
pub fn import_merges()
    ensures { ImportMerges }
{}

/// So it is after an import that is Ok.
pub fn done_import_merges()
    ensures { DoneImportMerges }
{}

/// An import that is Ok to where nothing stood leaves the same below its target.
pub fn import_is_same()
    ensures { ImportIsSame }
{}

/// A tree below a path, copied out to a folder and from it to where nothing stood, is the same below both paths.
pub fn copy_is_same()
    ensures { CopyIsSame }
{}

/// After an export that is Ok the folder has the rows of the tree below the source, and the tree is as before.
pub fn export_is_same()
    ensures { ExportIsSame }
{}

/// After one that fails the folder has a part of them.
pub fn export_is_part()
    ensures { ExportIsPart }
{}
