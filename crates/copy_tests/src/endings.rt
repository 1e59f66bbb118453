// How copies end, in the words of stories.
use copy_file::copy_row::Stop;
use fs_model::FsError;
use std::alloc::{AllocError, Global};
use tree_copy::copy_laws::{CopyFail, Totals};

/// An error that a copy meets here.
fn word_of(error: FsError) -> &'static str {
    match error {
        FsError::NoEntry => "no-entry",
        FsError::Exists => "exists",
        FsError::NotDirectory => "not-directory",
        FsError::NotEmpty => "not-empty",
        _ => "another error",
    }
}

/// How many directories, files, links and bytes were copied.
fn totals(alloc: Global, found: Totals) -> Result<String, AllocError> {
    format!(in alloc;
        "{} {} {} {}",
        found.dirs, found.files, found.links, found.bytes
    )
}

/// How the copy of a folder ended: what was copied, or why not, and at a path of how many names.
pub fn folder_end(alloc: Global, ended: Result<Totals, CopyFail>) -> Result<String, AllocError> {
    match ended {
        Ok(found) => totals(alloc, found),
        Err(CopyFail::Refused(at, error)) => {
            format!(in alloc; "{} {}", word_of(error), at.names().len())
        }
        Err(CopyFail::LongPath(at)) => format!(in alloc; "long-path {}", at.names().len()),
        Err(CopyFail::Host) => String::from_str(alloc, "fault"),
        Err(_) => String::from_str(alloc, "stopped"),
    }
}

/// Why the copy of a file stopped.
pub fn stop_word(stop: Stop) -> &'static str {
    match stop {
        Stop::Refused(error) => word_of(error),
        Stop::Host => "fault",
        _ => "stopped",
    }
}

/// How a put ended.
pub fn put_end(alloc: Global, ended: Result<Totals, Stop>) -> Result<String, AllocError> {
    match ended {
        Ok(found) => totals(alloc, found),
        Err(stop) => String::from_str(alloc, stop_word(stop)),
    }
}
