// A mount answers the commands of a copy.
ghost use Rattle.copy_runs.specs.Asking.{mount_asking, mount_lawful};

use copy_attributes::tree_copy::copy_laws::{Asker, Stopped};
use copy_file::answers::{Answer, Host};
use copy_file::copy_sessions::{ask_host, reply_of};
use fs_model::{Command, Moment, Reply};
use outside::{Keeper, Vault};
use rand_core::Rng;
use shell_runs::Mounted;
use std::alloc::Global;

/// An opened file system that answers the commands of a copy at one moment. The last answer that is no reply is kept, and
/// such answers are counted.
pub struct MountAsker<'a, V, K, R> {
    pub mounted: Mounted<'a, V, K, R>,
    pub now: Moment,
    pub kept: Option<Answer>,
    pub stopped: u64,
}

impl<V: Vault, K: Keeper, R: Rng> Asker for MountAsker<'_, V, K, R> {
    ghost asking = { mount_asking R.stream V.trace V.faults K.Keeper };

    fn ask(&mut self, alloc: Global, command: &Command) -> Result<Reply, Stopped> {
        // a mount's reply always has its command's form: no test of it is needed
        match reply_of(ask_host(alloc, &mut self.mounted, self.now, command)) {
            Ok(reply) => Ok(reply),
            Err(answer) => {
                self.kept = Some(answer);
                self.stopped = self.stopped.saturating_add(1);
                Err(Stopped)
            }
        }
    }

    ghost lawful = { mount_lawful R.stream V.trace V.faults (record { kept = K.kept; room = K.room; faults = K.faults; takes = K.takes }) };
}
