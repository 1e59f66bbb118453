//! What every block directory and every local record promises, each promise a function over any of them.
#![tactic(auto)]

mod expected;
pub mod keeper_promises;
pub mod listing_promises;
pub mod vault_promises;

// Handed on to crates above, which needn't list them.
pub use outside;
