// What the session of a put leaves, and what that of a get wrote.
ghost use Rattle.copy_file.specs.Laws.{GetEnds, GetTells, GetTellsPart, PutEnds, PutLeaves, PutLeavesPart};

/// After a put that is Ok a new file with exactly the bytes that came stands at its path in the last tree of the session,
/// and nothing else has changed.
pub fn put_leaves()
    ensures { PutLeaves }
{}

/// After one that fails a new file with a front part of them stands there, or nothing has changed there; and nothing else
/// has.
pub fn put_leaves_part()
    ensures { PutLeavesPart }
{}

/// By a get that is Ok exactly the bytes of the file at its path in the first tree of the session were written, and the
/// last tree is the first.
pub fn get_tells()
    ensures { GetTells }
{}

/// By one that fails a front part of them was written, and of a path that is refused nothing; the last tree is the first.
pub fn get_tells_part()
    ensures { GetTellsPart }
{}

/// Where neither an answer nor the input failed, a put's status is that of its end: done, refused for its cause, or stopped
/// by want of memory or a block with its last version; or memory was refused.
pub fn put_ends()
    ensures { PutEnds }
{}

/// Where neither an answer nor the output failed, so is a get's.
pub fn get_ends()
    ensures { GetEnds }
{}
