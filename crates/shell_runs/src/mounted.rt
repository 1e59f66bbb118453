// A mount answers commands.
ghost use Rattle.shell_runs.specs.Mounting.{mounted_hosting, mounted_lawful};

use fs_model::{Command, Moment};
use mount_calls::answer;
use outside::{Keeper, Vault};
use rand_core::Rng;
use session_laws::answers::{Answer, Host};
use session_laws::mount::Mount;
use std::alloc::Global;

/// An opened file system, which answers commands, and the generator that it was lent.
pub struct Mounted<'a, V, K, R> {
    pub mount: Mount<V, K>,
    pub chance: &'a mut R,
}

impl<V: Vault, K: Keeper, R: Rng> Host for Mounted<'_, V, K, R> {
    ghost hosting = { mounted_hosting R.stream V.trace V.faults K.Keeper };

    fn refuses(&self) -> bool {
        self.mount.core.violated
    }

    fn answer(&mut self, alloc: Global, now: Moment, command: &Command) -> Answer {
        answer(alloc, &mut self.mount, now, command, self.chance)
    }

    ghost lawful = { mounted_lawful R.stream V.trace V.faults (record { kept = K.kept; room = K.room; faults = K.faults; takes = K.takes }) };
}
