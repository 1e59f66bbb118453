// Bytes that went out. No memory holds them.
ghost use Rattle.std.specs.Prelude.{◌≡◌, ℕ, List, [], ◌++◌};
ghost use base.Fml.{ftrue};

use std::marker::{Model, PhantomData};

/// It takes no memory, and its methods do nothing at run time.
#[derive(Drop)]
pub struct ByteLog {
    marker: PhantomData<u8>,
    pub ghost bytes: { List ℕ },
}

impl Model for ByteLog {
    ghost also_owns = { λ _. ftrue };
}

impl ByteLog {
    /// After these bytes, which the caller chooses and no code can read.
    pub fn after() -> ByteLog
        ghost past: { List ℕ }
        ensures { result.bytes ≡ past }
    {
        ByteLog {
            marker: PhantomData,
        }
    }

    /// After no bytes.
    pub fn new() -> ByteLog
        ensures { result.bytes ≡ [] }
    {
        ByteLog::after()
    }

    /// More bytes.
    pub fn note(&mut self, _piece: &[u8])
        ensures { self.new.bytes ≡ self.old.bytes ++ _piece.now }
    {}
}
