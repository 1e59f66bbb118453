// The first bytes of a blob.
ghost use Rattle.std.specs.Prelude.{◌≡◌, [], OnOk};
ghost use Rattle.check_walk.specs.Fronts.{joined_front};

use block_id::Memory;
use std::alloc::Global;
use std::marker::Model;

/// The first bytes of a blob that is walked, at most so many.
#[derive(Drop)]
pub struct Front {
    bytes: Vec<u8>,
    most: usize,
}

impl Model for Front {
    ghost use Rattle.check_walk.specs.Fronts.{FrontState};

    ghost Value = { FrontState };

    ghost view = { λ f. record { bytes = f.bytes.items; most = f.most } };
}

impl Front {
    /// No bytes yet.
    pub fn new(alloc: Global, most: usize) -> Front
        ensures { result ≡ record { bytes = []; most = most } }
    {
        Front {
            bytes: Vec::new(alloc),
            most,
        }
    }

    /// The bytes so far.
    pub fn bytes(&self) -> &[u8]
        ensures { result.now ≡ self.now.bytes }
    {
        &self.bytes
    }

    /// Takes what there is room for.
    pub fn push(&mut self, piece: &[u8]) -> Result<(), Memory>
        ensures most { self.new.most ≡ self.old.most }
        ensures ok { OnOk result (self.new.bytes ≡ joined_front self.old piece.now) }
    {
        let room = self.most.saturating_sub(self.bytes.len());
        let n = room.min(piece.len());
        self.bytes.extend_from_slice(&piece[..n])?;
        Ok(())
    }
}
