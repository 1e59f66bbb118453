// What the session of a copy leaves.
ghost use Rattle.copy_sessions.specs.Laws.{CopyFollows, ExportEnds, ExportLeaves, ExportLeavesPart, ImportEnds, ImportLeaves};

/// The trees of a copy's session are those that its questions lead to by the steps of what was answered: so after a
/// failure too the last tree is that after the commands that were done.
pub fn copy_follows()
    ensures { CopyFollows }
{}

/// After an import that is Ok the folder's tree stands below the target in the last tree of the session, and nothing
/// else has changed.
pub fn import_leaves()
    ensures { ImportLeaves }
{}

/// After an export that is Ok the folder has what stands below the source, and the last tree of the session is the first.
pub fn export_leaves()
    ensures { ExportLeaves }
{}

/// After an export that fails the folder has a part of what stands below the source, and the last tree of the session is
/// the first.
pub fn export_leaves_part()
    ensures { ExportLeavesPart }
{}

/// Where neither an answer nor the folder failed, an import's status is that of its end: done, refused for its cause, or
/// stopped by want of memory or a block with its last version; or memory was refused.
pub fn import_ends()
    ensures { ImportEnds }
{}

/// So is an export's.
pub fn export_ends()
    ensures { ExportEnds }
{}
