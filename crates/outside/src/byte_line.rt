// A name of a file as bytes.
ghost use Rattle.std.specs.Prelude.{◌≡◌, IfOk, nat_eq, Some};
ghost use Rattle.std.specs.Cmp.{partial_equiv_from_equiv};
ghost use Rattle.std.specs.Cmp.Lexicographic.{pointwise, slice_cmp, nat_list_eq_equiv, nat_list_cmp_total, texts_ties, texts_po};
ghost use Rattle.std.specs.Ordering.{nat_cmp};
ghost use Rattle.std.proofs.Common.{rules};

use std::alloc::AllocError;
use std::cmp::Ordering;
use std::marker::Model;

/// A list of bytes. Lists are ordered as texts are: byte by byte, and one that ends before the other stands below it.
#[derive(Drop)]
pub struct ByteLine {
    bytes: Vec<u8>,
}

impl Model for ByteLine {
    ghost use Rattle.std.specs.Prelude.{List, ℕ};

    ghost Value = { List ℕ };

    ghost view = { λ l. l.bytes.items };
}

impl ByteLine {
    /// These bytes.
    pub fn new(bytes: Vec<u8>) -> ByteLine
        ensures { result ≡ bytes.items }
    {
        ByteLine { bytes }
    }

    /// The bytes.
    pub fn as_slice(&self) -> &[u8]
        ensures { result.now ≡ self.now }
    {
        self.bytes.as_slice()
    }

    /// The same bytes.
    pub fn try_clone(&self) -> Result<ByteLine, AllocError>
        ensures { IfOk result (λ copy. copy ≡ self.now) }
    {
        Ok(ByteLine {
            bytes: self.bytes.clone()?,
        })
    }
}

impl PartialEq for ByteLine {
    ghost eq = { λ a b. pointwise nat_eq a b };

    ghost laws = { partial_equiv_from_equiv nat_list_eq_equiv };

    fn eq(&self, other: &ByteLine) -> bool {
        self.as_slice() == other.as_slice()
    }
}

impl Eq for ByteLine {
    ghost laws = { nat_list_eq_equiv };
}

impl PartialOrd for ByteLine {
    ghost partial_cmp = { λ a b. Some (slice_cmp nat_cmp a b) };

    ghost laws = { texts_po };

    fn partial_cmp(&self, other: &ByteLine) -> Option<Ordering> {
        Some(self.cmp(other))
    }
}

impl Ord for ByteLine {
    ghost cmp = { λ a b. slice_cmp nat_cmp a b };

    ghost total = { nat_list_cmp_total };

    ghost matches_partial_cmp = { Prim.search rules };

    ghost matches_eq = { texts_ties };

    fn cmp(&self, other: &ByteLine) -> Ordering {
        self.as_slice().cmp(other.as_slice())
    }
}
