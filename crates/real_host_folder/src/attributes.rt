// Attributes of files, folders and links of the host: read, and set as far as the system lets the user of the run.
ghost use Rattle.std.specs.Prelude.{◌≤◌, IfSome};
ghost use Rattle.fs_model.specs.declared.limits.TheConstants.{MAX_MODE};

use crate::error::HostError;
use crate::place::Place;
use fs_model::{Attr, Kind, Moment, root_attr};
use std::fs::{File, FileTimes, Metadata, Permissions};
use std::io::{self, ErrorKind};
use std::os::unix::fs::{MetadataExt, PermissionsExt, fchown, lchown};
use std::time::{Duration, SystemTime};

/// Modes are below this.
const ALL_MODES: u32 = 0o10000;

/// The bits of a mode by which a file runs as its owner or its group.
const RUNS_AS_OWNER: u32 = 0o6000;

/// The attributes of what was found. None where it is of another kind.
pub fn attr_of(kind: Kind, found: &Metadata) -> Option<Attr>
    ensures { IfSome result (λ attr. attr.mode ≤ MAX_MODE) }
{
    let is_same = match kind {
        Kind::Directory => found.is_dir(),
        Kind::File => found.is_file(),
        Kind::Link => found.is_symlink(),
    };
    if !is_same {
        return None;
    }
    Some(Attr {
        kind,
        mode: found.mode() % ALL_MODES,
        uid: found.uid(),
        gid: found.gid(),
        atime: moment(found.atime(), found.atime_nsec()),
        mtime: moment(found.mtime(), found.mtime_nsec()),
        ctime: moment(found.ctime(), found.ctime_nsec()),
    })
}

/// The moment of these seconds and nanoseconds. One before 1970 is the first moment.
fn moment(secs: i64, nanos: i64) -> Moment {
    let first = root_attr().mtime;
    match (u64::try_from(secs), u32::try_from(nanos)) {
        (Ok(secs), Ok(nanos)) => Moment::new(secs, nanos).unwrap_or(first),
        _ => first,
    }
}

/// The time of the system at this moment. One that the system's seconds don't reach is their last.
fn system_time(moment: Moment) -> SystemTime {
    let secs = moment.secs().min(i64::MAX as u64);
    let since = Duration::from_secs(secs).saturating_add(Duration::from_nanos(u64::from(
        moment.nanos(),
    )));
    SystemTime::UNIX_EPOCH
        .checked_add(since)
        .unwrap_or(SystemTime::UNIX_EPOCH)
}

/// Whether it was done. What the user of the run may not do isn't, and is no fault.
fn is_done(answer: io::Result<()>) -> Result<bool, HostError> {
    match answer {
        Ok(()) => Ok(true),
        Err(error) if error.kind() == ErrorKind::PermissionDenied => Ok(false),
        Err(error) => Err(HostError::from(error)),
    }
}

/// Gives an open file or folder the owner, the moments and the mode. Where the owner may not be set, it doesn't run as that one.
pub fn dress_opened(opened: &File, attr: &Attr) -> Result<(), HostError> {
    let is_owned = is_done(fchown(opened, Some(attr.uid), Some(attr.gid)))?;
    let times = FileTimes::new()
        .set_accessed(system_time(attr.atime))
        .set_modified(system_time(attr.mtime));
    opened.set_times(times)?;
    let mode = if is_owned {
        attr.mode
    } else {
        attr.mode & !RUNS_AS_OWNER
    };
    is_done(opened.set_permissions(Permissions::from_mode(mode)))?;
    Ok(())
}

/// Gives the link at this path of the system the owner. Its mode and its moments can't be set here.
pub fn dress_link(place: Place<'_>, path: &str, attr: &Attr) -> Result<(), HostError> {
    is_done(lchown(&place.rt, path, Some(attr.uid), Some(attr.gid)))?;
    Ok(())
}
