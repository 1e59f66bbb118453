// The parameters of scrypt.

ghost use Rattle.std.specs.Prelude.{◌≡◌, ◌↔◌, IsTrue, IsOk, IfOk};
ghost use Rattle.std.specs.Int.{IsPowerOfTwo};
ghost use Rattle.scrypt_kdf.specs.Cost.{Cost, IsAllowed, IsInRange};

use std::marker::Model;

const MIN_N: u64 = 2;

const MAX_N: u64 = 1 << 20;

const MAX_R: u32 = 8;

const MAX_P: u32 = 16;

/// Why numbers are no parameters of scrypt.
#[derive(Clone, Copy, Debug, PartialEq, Eq)]
pub enum BadParams {
    /// N is no power of two.
    NotPower,
    /// N isn't in 2 to 2^20, r isn't in 1 to 8, or p isn't in 1 to 16.
    OutOfRange,
}

/// The cost N, a power of two from 2 to 2^20, the block size r, 1 to 8, and the parallelization p,
/// 1 to 16 (RFC 7914, section 2). The RFC's bound N < 2^(16 * r) isn't asked.
#[derive(Clone, Copy)]
pub struct Params {
    n: u64,
    r: u32,
    p: u32,
}

impl Model for Params {
    ghost Value = { Cost };

    ghost view = { λ s. record { n = s.n; r = s.r; p = s.p } };

    ghost invariant = { λ s. IsAllowed (record { n = s.n; r = s.r; p = s.p }) };

    ghost inverse = { λ c. record { n = c.n; r = c.r; p = c.p } };
}

impl Params {
    /// The parameters `n`, `r` and `p`, where they are allowed.
    pub fn new(n: u64, r: u32, p: u32) -> Result<Params, BadParams>
        ensures ok { IfOk result (λ cost. cost ≡ record { n = n; r = r; p = p }) }
        ensures allowed { IsOk result ↔ IsAllowed (record { n = n; r = r; p = p }) }
        ensures not_power { (result ≡ Err BadParams.NotPower) ↔ ¬ IsPowerOfTwo n }
        ensures out_of_range { (result ≡ Err BadParams.OutOfRange)
            ↔ (IsPowerOfTwo n × ¬ IsInRange (record { n = n; r = r; p = p })) }
    {
        if !is_power_of_two(n) {
            return Err(BadParams::NotPower);
        }
        if !is_in_range(n, r, p) {
            return Err(BadParams::OutOfRange);
        }
        Ok(Params { n, r, p })
    }

    /// The cost N.
    pub fn n(&self) -> u64
        ensures value { result ≡ self.now.n }
        ensures allowed { IsAllowed self.now }
    {
        self.n
    }

    /// The block size r.
    pub fn r(&self) -> u32
        ensures value { result ≡ self.now.r }
        ensures allowed { IsAllowed self.now }
    {
        self.r
    }

    /// The parallelization p.
    pub fn p(&self) -> u32
        ensures value { result ≡ self.now.p }
        ensures allowed { IsAllowed self.now }
    {
        self.p
    }
}

fn is_power_of_two(n: u64) -> bool
    ensures { IsTrue result ↔ IsPowerOfTwo n }
{
    n.is_power_of_two()
}

fn is_in_range(n: u64, r: u32, p: u32) -> bool
    ensures { IsTrue result ↔ IsInRange (record { n = n; r = r; p = p }) }
{
    n >= MIN_N && n <= MAX_N && r >= 1 && r <= MAX_R && p >= 1 && p <= MAX_P
}
