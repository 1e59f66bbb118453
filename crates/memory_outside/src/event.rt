// Calls on a directory that tells them.

use outside::FileName;

/// A call that was made, with what it gave or whether it answered ok.
#[derive(Drop)]
pub enum Event {
    Got {
        name: FileName,
        max: usize,
        answer: Option<Vec<u8>>,
    },
    Put {
        name: FileName,
        bytes: Vec<u8>,
        ok: bool,
    },
    Removed {
        name: FileName,
        ok: bool,
    },
}
