// A moment of time.
ghost use Rattle.std.specs.Prelude.{◌≡◌, ◌<◌};
ghost use Rattle.std.specs.Option.{SomeIff};

use crate::limits::NANOS_PER_SEC;
use std::marker::Model;

/// Seconds, and nanoseconds below 1,000,000,000.
#[derive(Clone, Copy)]
pub struct Moment {
    secs: u64,
    nanos: u32,
}

impl Model for Moment {
    ghost use Rattle.std.specs.Prelude.{◌<◌};
    ghost use Rattle.fs_model.specs.Instant.{Instant};

    ghost Value = { Instant };

    ghost use Rattle.fs_model.specs.declared.limits.TheConstants.{NANOS_PER_SEC};

    ghost view = { λ m. record { secs = m.secs; nanos = m.nanos } };

    ghost invariant = { λ m. m.nanos < NANOS_PER_SEC };

    ghost inverse = { λ i. record { secs = i.secs; nanos = i.nanos } };
}

impl Moment {
    /// None exactly where `nanos` is 1,000,000,000 or more.
    pub fn new(secs: u64, nanos: u32) -> Option<Moment>
        ensures { SomeIff result (nanos < NANOS_PER_SEC) (record { secs = secs; nanos = nanos }) }
    {
        if nanos < NANOS_PER_SEC {
            Some(Moment { secs, nanos })
        } else {
            None
        }
    }

    /// The whole seconds.
    pub fn secs(&self) -> u64
        ensures { result ≡ self.now.secs }
    {
        self.secs
    }

    /// The nanoseconds above them.
    pub fn nanos(&self) -> u32
        ensures value { result ≡ self.now.nanos }
        ensures in_range { result < NANOS_PER_SEC }
    {
        self.nanos
    }
}
