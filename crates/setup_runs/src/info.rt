// `info`: tells what a file system is made of.
ghost use Rattle.std.specs.Prelude.{◌≡◌, ◌≤◌, [], vec_capacity};
ghost use Rattle.session_laws.specs.line_io.Streams.{stream_of};
ghost use Rattle.session_laws.specs.Runs.{outside_of};
ghost use Rattle.session_laws.specs.Openings.{HasCauses};
ghost use Rattle.setup_runs.specs.Info.{Told, ToldUnder};

use crate::end::end_run;
use crate::{MAX_TEXT, print_info};
use outside::{Keeper, Sink, Source, Vault};
use run_status::{Ended, Status, Storage};
use session_laws::run_frame::read_password;
use shell_runs::open;
use std::alloc::Global;

/// Opens the file system under the password line of the input, prints what its configuration says, and closes it. All
/// memory for lines and texts is taken before.
pub fn run_info<I: Source, O: Sink, V: Vault, K: Keeper>(
    alloc: Global,
    input: &mut I,
    output: &mut O,
    storage: Storage<V, K>,
) -> Ended<V, K>
    ensures told { Told V.trace V.faults K.Keeper (stream_of I.rest I.faults input.old input.new)
        (stream_of O.written O.faults output.old output.new) storage.vault storage.keeper result }
    ensures causes { HasCauses (outside_of V.trace V.faults K.Keeper storage.vault storage.keeper)
        (outside_of V.trace V.faults K.Keeper result.vault result.keeper) result.status }
    ensures input_grows { I.faults input.old ≤ I.faults input.new }
    ensures output_grows { O.faults output.old ≤ O.faults output.new }
{
    let Storage { vault, keeper } = storage;
    let Ok(text) = Vec::with_capacity(alloc, MAX_TEXT) else {
        return Ended {
            status: Status::Memory,
            vault,
            keeper,
        };
    };
    let reader = match read_password(alloc, input) {
        Ok(reader) => reader,
        Err(status) => {
            return Ended {
                status,
                vault,
                keeper,
            };
        }
    };
    let password = reader.line().unwrap_or(&[]);
    tell_under(alloc, password, text, output, vault, keeper)
}

/// Opens the file system under the password, prints what its configuration says, and closes it.
fn tell_under<O: Sink, V: Vault, K: Keeper>(
    alloc: Global,
    password: &[u8],
    text: Vec<u8>,
    output: &mut O,
    vault: V,
    keeper: K,
) -> Ended<V, K>
    requires room { 256 ≤ vec_capacity text }
    requires empty { text.items ≡ [] }
    ensures told { ToldUnder V.trace V.faults K.Keeper password.now (stream_of O.written O.faults output.old output.new) vault keeper result }
    ensures causes { HasCauses (outside_of V.trace V.faults K.Keeper vault keeper) (outside_of V.trace V.faults K.Keeper result.vault result.keeper) result.status }
    ensures output_grows { O.faults output.old ≤ O.faults output.new }
{
    let mut text = text;
    let mount = match open(alloc, vault, keeper, password) {
        Ok(mount) => mount,
        Err(ended) => return ended,
    };
    let printed = print_info(mount.opened, &mut text, output);
    end_run(alloc, mount, printed)
}
