// `create`: makes a file system.
ghost use Rattle.std.specs.Prelude.{◌≤◌};
ghost use Rattle.session_laws.specs.config_file.Settings.{IsBlockSize};
ghost use Rattle.session_laws.specs.line_io.Streams.{stream_of};
ghost use Rattle.session_laws.specs.Openings.{HasCauses};
ghost use Rattle.session_laws.specs.Runs.{outside_of};
ghost use Rattle.setup_runs.specs.Create.{RanCreate, IsCreated};

use crate::report_created;
use mount_calls::create;
use outside::{Keeper, Sink, Source, Vault};
use rand_core::Rng;
use run_status::{Ended, Storage};
use scrypt_kdf::Params;
use session_laws::run_frame::read_password;
use std::alloc::Global;

/// Makes a file system of blocks of this size under the password line of the input, where nothing is there, and prints
/// its id.
pub fn run_create<I: Source, O: Sink, V: Vault, K: Keeper, R: Rng>(
    alloc: Global,
    params: &Params,
    block_size: u32,
    input: &mut I,
    output: &mut O,
    storage: Storage<V, K>,
    chance: &mut R,
) -> Ended<V, K>
    requires { IsBlockSize block_size }
    ensures created { RanCreate V.trace V.faults K.Keeper params.now block_size (R.stream chance.old) (R.stream chance.new)
        (stream_of I.rest I.faults input.old input.new) (stream_of O.written O.faults output.old output.new) storage.vault storage.keeper result }
    ensures causes { HasCauses (outside_of V.trace V.faults K.Keeper storage.vault storage.keeper)
        (outside_of V.trace V.faults K.Keeper result.vault result.keeper) result.status }
    ensures input_grows { I.faults input.old ≤ I.faults input.new }
    ensures output_grows { O.faults output.old ≤ O.faults output.new }
{
    let reader = match read_password(alloc, input) {
        Ok(reader) => reader,
        Err(status) => {
            let Storage { vault, keeper } = storage;
            return Ended {
                status,
                vault,
                keeper,
            };
        }
    };
    let password = reader.line().unwrap_or(&[]);
    create_under(alloc, password, params, block_size, output, storage, chance)
}

/// Makes a file system under the password, and prints its id.
fn create_under<O: Sink, V: Vault, K: Keeper, R: Rng>(
    alloc: Global,
    password: &[u8],
    params: &Params,
    block_size: u32,
    output: &mut O,
    storage: Storage<V, K>,
    chance: &mut R,
) -> Ended<V, K>
    requires { IsBlockSize block_size }
    ensures created { IsCreated V.trace V.faults K.Keeper params.now block_size (R.stream chance.old) (R.stream chance.new) password.now
        (stream_of O.written O.faults output.old output.new) storage.vault storage.keeper result }
    ensures causes { HasCauses (outside_of V.trace V.faults K.Keeper storage.vault storage.keeper)
        (outside_of V.trace V.faults K.Keeper result.vault result.keeper) result.status }
    ensures output_grows { O.faults output.old ≤ O.faults output.new }
{
    let Storage { vault, keeper } = storage;
    let (made, vault, keeper) = create(alloc, vault, keeper, password, params, block_size, chance);
    Ended {
        status: report_created(made, output),
        vault,
        keeper,
    }
}
