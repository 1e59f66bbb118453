// `migrate`: writes the blocks of a file system anew in the newest format.
ghost use Rattle.std.specs.Prelude.{◌≡◌, ◌≤◌, [], vec_capacity};
ghost use Rattle.session_laws.specs.line_io.Streams.{stream_of};
ghost use Rattle.session_laws.specs.Drawing.{DrawsNoNames};
ghost use Rattle.session_laws.specs.Runs.{outside_of};
ghost use Rattle.setup_runs.specs.Migrate.{RanMigrate, MigratedUnder};

use crate::end::end_session;
use crate::{MAX_TEXT, print_migrated};
use mount_calls::migrate;
use outside::{Keeper, Sink, Source, Vault};
use rand_core::Rng;
use run_status::{Ended, Status, Storage};
use session_laws::run_frame::read_password;
use shell_runs::open;
use std::alloc::Global;

/// Opens the file system under the password line of the input, writes its blocks anew in the newest format, says how many
/// there are, or as a session why not all were written, and closes it. All memory for lines and texts is taken before.
pub fn run_migrate<I: Source, O: Sink, V: Vault, K: Keeper, R: Rng>(
    alloc: Global,
    input: &mut I,
    output: &mut O,
    storage: Storage<V, K>,
    chance: &mut R,
) -> Ended<V, K>
    ensures migrated { RanMigrate V.trace V.faults K.Keeper (stream_of I.rest I.faults input.old input.new) (stream_of O.written O.faults output.old output.new) storage.vault storage.keeper result }
    ensures drawn { DrawsNoNames (R.stream chance.old) (R.stream chance.new)
        (outside_of V.trace V.faults K.Keeper storage.vault storage.keeper) (outside_of V.trace V.faults K.Keeper result.vault result.keeper) }
    ensures input_grows { I.faults input.old ≤ I.faults input.new }
    ensures output_grows { O.faults output.old ≤ O.faults output.new }
{
    let Storage { vault, keeper } = storage;
    let Ok(text) = Vec::with_capacity(alloc, MAX_TEXT) else {
        return Ended {
            status: Status::Memory,
            vault,
            keeper,
        };
    };
    let reader = match read_password(alloc, input) {
        Ok(reader) => reader,
        Err(status) => {
            return Ended {
                status,
                vault,
                keeper,
            };
        }
    };
    let password = reader.line().unwrap_or(&[]);
    migrate_under(alloc, password, text, output, vault, keeper, chance)
}

/// Opens the file system under the password, writes its blocks anew, says what became of that, and closes it.
fn migrate_under<O: Sink, V: Vault, K: Keeper, R: Rng>(
    alloc: Global,
    password: &[u8],
    text: Vec<u8>,
    output: &mut O,
    vault: V,
    keeper: K,
    chance: &mut R,
) -> Ended<V, K>
    requires room { 256 ≤ vec_capacity text }
    requires empty { text.items ≡ [] }
    ensures migrated { MigratedUnder V.trace V.faults K.Keeper password.now (stream_of O.written O.faults output.old output.new) vault keeper result }
    ensures drawn { DrawsNoNames (R.stream chance.old) (R.stream chance.new)
        (outside_of V.trace V.faults K.Keeper vault keeper) (outside_of V.trace V.faults K.Keeper result.vault result.keeper) }
    ensures output_grows { O.faults output.old ≤ O.faults output.new }
{
    let mut text = text;
    let mut mount = match open(alloc, vault, keeper, password) {
        Ok(mount) => mount,
        Err(ended) => return ended,
    };
    let migration = migrate(alloc, &mut mount, chance);
    let end = print_migrated(migration, &mut text, output);
    end_session(alloc, mount, end)
}
