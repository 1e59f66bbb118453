// What copies with attributes leave.
ghost use Rattle.copy_attributes.specs.Laws.{AttributedCopyIsSame, AttributedExportLeaves, AttributedImportLeaves};

/// After an import that is Ok each path of the folder stands below the target with its kind and bytes, and with the
/// attributes that the folder tells. Every other path has the kind and the bytes that it had.
pub fn attributed_import_leaves()
    ensures { AttributedImportLeaves }
{}

/// After an export that is Ok the folder has what stands below the source, each row with its attributes where the folder
/// tells them, and the tree is as before.
pub fn attributed_export_leaves()
    ensures { AttributedExportLeaves }
{}

/// A tree below a path, copied out to a folder and from it to where nothing stood, is the same below both paths: each
/// row has its kind and bytes, its mode, its owner, and its moments of access and change.
pub fn attributed_copy_is_same()
    ensures { AttributedCopyIsSame }
{}
