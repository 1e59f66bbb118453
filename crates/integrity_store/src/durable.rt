// The unwritten list: recorded, and written out.
ghost use Rattle.block_versions.specs.sealed_store.Stores.{IsIntact, block_size_of, cipher_of};
ghost use Rattle.integrity_store.specs.EnduringLaws.{enduring_by};
ghost use Rattle.block_versions.specs.Standing.{durables_by, records};
ghost use Rattle.integrity_store.specs.Views.{held_by};

use crate::IntegrityStore;
use block_id::Memory;
use local_state::encode;
use outside::{GetFail, Vault};
use seal_api::Sealer;
use std::alloc::Global;
use store_api::Durable;

impl<V: Vault, C: Sealer> Durable for IntegrityStore<V, C> {
    ghost durables = { durables_by (held_by C.opens) (λ s. V.trace s.sealed.vault.vault) };

    ghost records = { records };

    fn buffered(&self) -> usize {
        self.sealed.buffered()
    }

    fn weight(&self) -> usize {
        self.sealed.weight()
    }

    fn state_bytes(&mut self, alloc: Global, with_list: bool) -> Result<Vec<u8>, Memory> {
        if !with_list {
            return encode(alloc, &self.state, &[]);
        }
        let list = self.sealed.take_list(alloc)?;
        let bytes = encode(alloc, &self.state, &list);
        self.sealed.put_list(list);
        bytes
    }

    fn put_config(&mut self, alloc: Global, bytes: Vec<u8>) -> Result<(), Memory> {
        self.sealed.put_config(alloc, bytes)
    }

    fn write_out(&mut self, alloc: Global) -> Result<(), GetFail> {
        self.sealed.write_out(alloc)
    }

    fn set_least(&mut self, least: u8) {
        self.state.least = least;
    }

    ghost enduring = { enduring_by (held_by C.opens) (λ s. V.trace s.sealed.vault.vault)
        (λ s. V.faults s.sealed.vault.vault) (λ s. IsIntact (block_size_of s.sealed) (C.iv_size (cipher_of s.sealed))) };
}
