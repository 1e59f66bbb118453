// A store of byte lists under ids.
ghost use Rattle.std.specs.Prelude.{◌≡◌, ◌≤◌, ◌+◌, length, take, drop};
ghost use Rattle.std.specs.FinMap.{get, insert, remove};
ghost use Rattle.store_outcome.specs.Meanings.{Meanings, Lawful};
ghost use Rattle.store_outcome.specs.Outcome.{Outcome};
ghost use Rattle.block_id.specs.Contents.{resized, written};
ghost use Rattle.blob_api.specs.BlobMap.{BlobHoldings, BlobsSteady, StandsForMap, Has, IsNew, IsSparing};

use block_id::{BlockId, Fail};
use std::alloc::Global;

/// The bytes that a blob may have, 2^40.
pub const MAX_BLOB: u64 = 1_099_511_627_776;

/// Byte lists under ids.
pub trait Blobs {
    ghost meanings: { Meanings Self };

    ghost holdings: { BlobHoldings Self };

    /// A new blob of these bytes.
    fn create(&mut self, alloc: Global, bytes: &[u8]) -> Result<BlockId, Fail>
        requires intact { meanings.intact self.old }
        requires fits { length bytes.now ≤ MAX_BLOB }
        ensures { Outcome meanings (StandsForMap holdings self.old) self.old self.new result
            (λ n id. IsNew holdings self.new n.map id.0 bytes.now) };

    /// The blob goes.
    fn remove(&mut self, alloc: Global, id: &BlockId) -> Result<(), Fail>
        requires { meanings.intact self.old }
        ensures { Outcome meanings (Has holdings self.old id.now.0) self.old self.new result
            (λ n _. holdings.stands_for self.new (remove n.map id.now.0)) };

    /// The length of a blob.
    fn len(&mut self, alloc: Global, id: &BlockId) -> Result<u64, Fail>
        requires { meanings.intact self.old }
        ensures outcome { Outcome meanings (Has holdings self.old id.now.0) self.old self.new result
            (λ n len. holdings.stands_for self.new n.map × (len ≡ length n.bytes)) }
        ensures unchanged { holdings.changed self.new ≡ holdings.changed self.old };

    /// The bytes from `from` on, at most `count`, cut at the end.
    fn read(&mut self, alloc: Global, id: &BlockId, from: u64, count: u64) -> Result<Vec<u8>, Fail>
        requires { meanings.intact self.old }
        ensures outcome { Outcome meanings (Has holdings self.old id.now.0) self.old self.new result
            (λ n bytes. holdings.stands_for self.new n.map × (bytes.items ≡ take count (drop from n.bytes))) }
        ensures unchanged { holdings.changed self.new ≡ holdings.changed self.old };

    /// Writes the bytes at `from`, with zeros between the old end and `from`. No bytes change nothing.
    fn write(&mut self, alloc: Global, id: &BlockId, from: u64, bytes: &[u8]) -> Result<(), Fail>
        requires intact { meanings.intact self.old }
        requires fits { from + length bytes.now ≤ MAX_BLOB }
        ensures outcome { Outcome meanings (Has holdings self.old id.now.0) self.old self.new result
            (λ n _. holdings.stands_for self.new (insert n.map id.now.0 (written n.bytes from bytes.now))) }
        // Whatever it answers.
        ensures sparing { (n : Has holdings self.old id.now.0) → meanings.sound self.old → meanings.forgeries self.new ≤ meanings.forgeries self.old
            → IsSparing holdings self.old self.new (length n.bytes) from (length bytes.now) }
        ensures idle { length bytes.now ≡ 0 → holdings.changed self.new ≡ holdings.changed self.old };

    /// Cuts the blob to `n` bytes, or fills it up with zeros.
    fn resize(&mut self, alloc: Global, id: &BlockId, n: u64) -> Result<(), Fail>
        requires intact { meanings.intact self.old }
        requires fits { n ≤ MAX_BLOB }
        ensures { Outcome meanings (Has holdings self.old id.now.0) self.old self.new result
            (λ w _. holdings.stands_for self.new (insert w.map id.now.0 (resized w.bytes n))) };

    ghost lawful: { Lawful meanings };

    ghost steady: { BlobsSteady meanings holdings };
}
