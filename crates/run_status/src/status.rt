// How a run ends.
ghost use Rattle.std.specs.Prelude.{◌≡◌};
ghost use Rattle.run_status.specs.Statuses.{code_of, first_of, sentence_of};

/// How a run ends.
#[derive(Clone, Copy, PartialEq, Eq)]
pub enum Status {
    /// The input was read to its end, or to the last line that the words use, and all is answered.
    Done,
    /// The words are of no known form.
    Usage,
    /// A password line has more than 1,048,576 bytes.
    LongPassword,
    /// The configuration isn't there.
    NoConfig,
    /// The configuration has another form.
    ConfigForm,
    /// The configuration doesn't open under the password.
    ConfigLocked,
    /// The configuration opens, and says nothing that can be used.
    ConfigInner,
    /// No local record is kept.
    NoState,
    /// The local record doesn't decode.
    BadState,
    /// A file system is there already.
    Exists,
    /// The block directory broke its promise, now or in an earlier run.
    Violation,
    /// A call on the block directory failed.
    DirectoryFault,
    /// A call on the local record failed.
    StateFault,
    /// The source failed, or 2^63 bytes were taken.
    InputFault,
    /// The sink failed.
    OutputFault,
    /// Memory was refused.
    Memory,
    /// A call on the host folder failed.
    HostFault,
    /// A command of a copy was answered by an error, or a path would be too long.
    CopyRefused,
    /// A command of a copy was not answered.
    CopyStopped,
    /// What can't be taken back wasn't confirmed.
    NotConfirmed,
    /// No greater number is left for a client.
    ClientSpent,
}

impl Status {
    /// This status, or the next one where this is Done.
    pub fn or(self, next: Status) -> Status
        ensures { result ≡ first_of self next }
    {
        match self {
            Status::Done => next,
            status => status,
        }
    }

    /// The number that the program ends with.
    pub fn code(&self) -> u8
        ensures { result ≡ code_of self.now }
    {
        match self {
            Status::Done => 0,
            Status::Usage | Status::LongPassword => 1,
            Status::NoConfig | Status::ConfigForm | Status::ConfigLocked | Status::ConfigInner => 3,
            Status::NoState | Status::BadState | Status::Exists => 4,
            Status::Violation => 5,
            Status::DirectoryFault => 6,
            Status::StateFault => 7,
            Status::InputFault => 8,
            Status::OutputFault => 9,
            Status::Memory => 10,
            Status::HostFault => 12,
            Status::CopyRefused => 13,
            Status::CopyStopped => 14,
            Status::NotConfirmed => 16,
            Status::ClientSpent => 11,
        }
    }

    /// The text that the program prints on standard error, without `cryfs: `.
    pub fn text(&self) -> &'static str
        ensures { result.now ≡ sentence_of self.now }
    {
        match self {
            Status::Done => "",
            Status::Usage => "usage",
            Status::LongPassword => "password too long",
            Status::NoConfig => "no configuration",
            Status::ConfigForm => "configuration has another form",
            Status::ConfigLocked => "configuration does not open",
            Status::ConfigInner => "configuration has wrong contents",
            Status::NoState => "no local state",
            Status::BadState => "local state is damaged",
            Status::Exists => "file system exists",
            Status::Violation => "integrity violation",
            Status::DirectoryFault => "block directory fault",
            Status::StateFault => "local state fault",
            Status::InputFault => "input fault",
            Status::OutputFault => "output fault",
            Status::Memory => "out of memory",
            Status::HostFault => "host folder fault",
            Status::CopyRefused => "copy refused",
            Status::CopyStopped => "copy stopped",
            Status::NotConfirmed => "not confirmed",
            Status::ClientSpent => "client spent",
        }
    }
}
