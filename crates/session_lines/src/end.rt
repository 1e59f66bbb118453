// How a session ends.

/// How the lines of a session ended.
#[derive(Clone, Copy, PartialEq, Eq)]
pub enum End {
    /// All were answered.
    Finished,
    /// The source failed, or 2^63 bytes were taken.
    InputFault,
    /// The sink failed.
    OutputFault,
}
