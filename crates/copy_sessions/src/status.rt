// The status of a copy.
ghost use Rattle.std.specs.Prelude.{◌≡◌};
ghost use Rattle.copy_sessions.specs.Statuses.{copy_status, stopped_status};

use copy_laws::{CopyFail, Totals};
use run_status::Status;
use session_lines::answers::Answer;

/// The status of a copy that ended so, with this answer kept, where nothing else is the matter.
pub fn copy_status(copied: &Result<Totals, CopyFail>, kept: &Option<Answer>) -> Status
    ensures { result ≡ copy_status copied.now kept.now }
{
    match copied {
        Ok(_) => Status::Done,
        Err(CopyFail::Memory) => Status::Memory,
        Err(CopyFail::Host) => Status::HostFault,
        Err(CopyFail::Stopped) => stopped_status(kept),
        Err(CopyFail::LongPath(_)) => Status::CopyRefused,
        Err(CopyFail::Refused(_, _)) => Status::CopyRefused,
    }
}

/// The status of a copy of which a command wasn't answered.
pub fn stopped_status(kept: &Option<Answer>) -> Status
    ensures { result ≡ stopped_status kept.now }
{
    match kept {
        Some(Answer::Memory) => Status::Memory,
        _ => Status::CopyStopped,
    }
}
