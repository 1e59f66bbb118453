// The answers of a session.

use block_id::Why;
use fs_model::Reply;

/// What a command is answered, or a line that is none.
#[derive(Drop)]
pub enum Answer {
    /// The tree's reply.
    Reply(Reply),
    /// Memory was refused.
    Memory,
    /// A block that the command would change has its last version.
    Spent,
    /// The block directory failed.
    FaultDirectory,
    /// The local record failed.
    FaultState,
    /// The block directory gave something else than what was last written.
    Violation(Why),
    /// There was a violation before.
    Refused,
}
