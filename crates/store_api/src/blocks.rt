// A store of payloads under ids.
ghost use Rattle.std.specs.Prelude.{◌≡◌, ◌≤◌, IfOk, IfErr, IfSome, OnOk, OnErr, length, is_some, min, ◌↔◌};
ghost use Rattle.std.specs.declared.result.Result.TheVariants.{Err};
ghost use Rattle.outside.specs.View.{bytes_of};
ghost use Rattle.store_outcome.specs.Meanings.{Meanings, Lawful, IsOfBlocks};
ghost use Rattle.store_outcome.specs.Outcome.{Outcome};
ghost use Rattle.block_id.specs.Fresh.{IsFirstFree};
ghost use Rattle.rand_core.specs.Stream.{Stream};
ghost use Rattle.store_api.specs.Applying.{Applies, AppliesNone, KeepsCounts};
ghost use Rattle.store_api.specs.Content.{Id, Changes};
ghost use Rattle.store_api.specs.Fronts.{front_of};
ghost use Rattle.store_api.specs.Loads.{LoadAnswer, answer_of};
ghost use Rattle.store_api.specs.Holdings.{Holdings, Steady, Stays, FitsStore, IsSpent, IsFew, is_free, has_id};

use crate::Batch;
use block_id::{BlockId, Fail};
use rand_core::Rng;
use std::alloc::Global;

/// Why a batch isn't applied: want of memory, or an id that can get no further payload.
#[derive(Clone, Copy, Debug, PartialEq, Eq)]
pub enum ApplyError {
    Memory,
    Spent,
}

/// A store of payloads of one length under ids.
pub trait Blocks {
    ghost meanings: { Meanings Self };

    ghost holdings: { Holdings Self };

    // What one load of this id may leave and answer, whether or not the store is sound.
    ghost loads: { Self → Self → Id → LoadAnswer → Type 0 };

    /// The payload of the id, or None where the id isn't in the content.
    fn load(&mut self, alloc: Global, id: &BlockId) -> Result<Option<Vec<u8>>, Fail>
        requires { meanings.intact self.old }
        ensures outcome { Outcome meanings Unit self.old self.new result (λ _ answer. bytes_of answer ≡ holdings.content self.old id.now.0) }
        ensures stays { Stays holdings self.old self.new }
        ensures of_blocks { IfErr result IsOfBlocks }
        ensures none { IfOk result (λ answer. is_some answer ≡ is_some (holdings.content self.old id.now.0)) }
        ensures sized { IfOk result (λ answer. IfSome answer (λ bytes. length bytes.items ≡ holdings.payload self.old)) }
        ensures loads { loads self.old self.new id.now.0 (answer_of result) };

    /// The first bytes of the id's payload, at most so many, or None where the id isn't in the content. The whole block is
    /// read and judged, as a load does; no more than these bytes need be opened.
    fn load_front(
        &mut self,
        alloc: Global,
        id: &BlockId,
        most: usize,
    ) -> Result<Option<Vec<u8>>, Fail>
        requires { meanings.intact self.old }
        ensures outcome { Outcome meanings Unit self.old self.new result (λ _ answer. bytes_of answer ≡ front_of most (holdings.content self.old id.now.0)) }
        ensures stays { Stays holdings self.old self.new }
        ensures of_blocks { IfErr result IsOfBlocks }
        ensures none { IfOk result (λ answer. is_some answer ≡ is_some (holdings.content self.old id.now.0)) }
        ensures sized { IfOk result (λ answer. IfSome answer (λ bytes. length bytes.items ≡ min most (holdings.payload self.old))) };

    /// Whether the id was ever in the content.
    fn is_used(&self, id: &BlockId) -> bool
        ensures { result ≡ has_id (holdings.used self.now) id.now.0 };

    /// Whether the id is in the content.
    fn contains(&self, id: &BlockId) -> bool
        ensures { result ≡ is_some (holdings.content self.now id.now.0) };

    /// The first id that is neither used nor zero among `drawn`, the next one and so on.
    fn fresh(&self, drawn: BlockId) -> BlockId
        requires { IsFew (holdings.used self.now) }
        ensures { IsFirstFree (is_free (holdings.used self.now)) drawn.0 result.0 };

    /// The length of each payload.
    fn payload(&self) -> usize
        ensures { result ≡ holdings.payload self.now };

    ghost lawful: { Lawful meanings };

    ghost steady: { Steady meanings holdings };
}

/// A store whose payloads can be changed.
pub trait BlocksMut: Blocks {
    ghost applied: { Self → Self → Changes → Type 0 };

    // What the changes took of the stream of chance, and what they left of it.
    ghost drawn: { Self → Self → Changes → Stream → Stream → Type 0 };

    /// Makes these changes, all or none, without a call on the outside.
    fn apply<R: Rng>(
        &mut self,
        alloc: Global,
        batch: &Batch,
        chance: &mut R,
    ) -> Result<(), ApplyError>
        requires intact { Self.meanings.intact self.old }
        requires fits { FitsStore Self.holdings self.old batch.now }
        ensures intact { Self.meanings.intact self.new }
        ensures ok { OnOk result (Applies Self.meanings Self.holdings applied drawn self.old self.new batch.now (R.stream chance.old) (R.stream chance.new)) }
        ensures err { OnErr result (AppliesNone Self.meanings applied self.old self.new (R.stream chance.old) (R.stream chance.new)) }
        ensures counts { KeepsCounts Self.meanings self.old self.new }
        ensures spent { (result ≡ Err ApplyError.Spent) ↔ IsSpent Self.holdings self.old batch.now };

    /// Where blocks were only loaded, the store holds what it held.
    ghost settled: { (a b : Self) → Self.meanings.loaded a b → Stays Self.holdings a b };
}
