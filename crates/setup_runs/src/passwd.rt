// `passwd`: changes the password of a file system.
ghost use Rattle.std.specs.Prelude.{◌≤◌};
ghost use Rattle.session_laws.specs.line_io.Streams.{stream_of};
ghost use Rattle.session_laws.specs.Runs.{outside_of};
ghost use Rattle.session_laws.specs.Openings.{HasCauses};
ghost use Rattle.setup_runs.specs.Passwd.{RanPasswd, ChangedUnder};

use crate::end::end_run;
use crate::report_changed;
use mount_calls::change_password;
use outside::{Keeper, Sink, Source, Vault};
use rand_core::Rng;
use run_status::{Ended, Storage};
use session_laws::run_frame::{PasswordChange, read_two_passwords};
use shell_runs::open;
use std::alloc::Global;

/// Opens the file system under the first line of the input, changes its password to the second line, says so where that
/// was done, and closes it.
pub fn run_passwd<I: Source, O: Sink, V: Vault, K: Keeper, R: Rng>(
    alloc: Global,
    input: &mut I,
    output: &mut O,
    storage: Storage<V, K>,
    chance: &mut R,
) -> Ended<V, K>
    ensures changed { RanPasswd V.trace V.faults K.Keeper (R.stream chance.old) (R.stream chance.new)
        (stream_of I.rest I.faults input.old input.new) (stream_of O.written O.faults output.old output.new) storage.vault storage.keeper result }
    ensures causes { HasCauses (outside_of V.trace V.faults K.Keeper storage.vault storage.keeper)
        (outside_of V.trace V.faults K.Keeper result.vault result.keeper) result.status }
    ensures input_grows { I.faults input.old ≤ I.faults input.new }
    ensures output_grows { O.faults output.old ≤ O.faults output.new }
{
    let Storage { vault, keeper } = storage;
    let PasswordChange { old, reader } = match read_two_passwords(alloc, input) {
        Ok(change) => change,
        Err(status) => {
            return Ended {
                status,
                vault,
                keeper,
            };
        }
    };
    let new = reader.line().unwrap_or(&[]);
    change_under(alloc, &old, new, output, vault, keeper, chance)
}

/// Opens the file system under the old password, changes it to the new one, says so where that was done, and closes it.
/// The status is that of the first fault.
fn change_under<O: Sink, V: Vault, K: Keeper, R: Rng>(
    alloc: Global,
    old: &[u8],
    new: &[u8],
    output: &mut O,
    vault: V,
    keeper: K,
    chance: &mut R,
) -> Ended<V, K>
    ensures changed { ChangedUnder V.trace V.faults K.Keeper old.now new.now (R.stream chance.old) (R.stream chance.new)
        (stream_of O.written O.faults output.old output.new) vault keeper result }
    ensures causes { HasCauses (outside_of V.trace V.faults K.Keeper vault keeper) (outside_of V.trace V.faults K.Keeper result.vault result.keeper) result.status }
    ensures output_grows { O.faults output.old ≤ O.faults output.new }
{
    let mut mount = match open(alloc, vault, keeper, old) {
        Ok(mount) => mount,
        Err(ended) => return ended,
    };
    let change = change_password(alloc, &mut mount, new, chance);
    let reported = report_changed(change, output);
    end_run(alloc, mount, reported)
}
