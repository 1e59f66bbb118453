// One session, whatever it asks.
ghost use Rattle.std.specs.Prelude.{◌≡◌, ◌⊎◌, ◌≤◌, false};
ghost use Rattle.session_laws.specs.line_io.Streams.{stream_of};
ghost use Rattle.session_laws.specs.Drawing.{DrawsVectors};
ghost use Rattle.session_laws.specs.Runs.{outside_of};
ghost use Rattle.shell_runs.specs.Hosts.{host_of};
ghost use Rattle.shell_runs.specs.Sessions.{Session, WasServed};

use crate::asks::{Answered, Asks};
use crate::beginning::{Beginning, begin};
use crate::mounted::Mounted;
use crate::turns::{close, open};
use host_attributes::Attributed;
use outside::{Keeper, Sink, Source, Vault};
use rand_core::Rng;
use run_status::{Ended, Storage};
use std::alloc::Global;

/// Opens the file system under the password line of the input, asks this, and closes it. All memory for lines and texts is
/// taken before. The folder of the host is called only where a file system was opened.
pub fn run_session<A: Asks, I: Source, O: Sink, F: Attributed, V: Vault, K: Keeper, R: Rng>(
    alloc: Global,
    asks: A,
    input: &mut I,
    output: &mut O,
    storage: Storage<V, K>,
    chance: &mut R,
    host: &mut F,
) -> Ended<V, K>
    requires fits { A.manner.fits asks }
    ensures session { Session V.trace V.faults K.Keeper
        (A.manner.Comes asks (host_of F.Folder.tree F.attributes F.Folder.faults host.old host.new) (stream_of I.rest I.faults input.old input.new) (stream_of O.written O.faults output.old output.new))
        (stream_of I.rest I.faults input.old input.new) (stream_of O.written O.faults output.old output.new) storage.vault storage.keeper result }
    ensures drawn { DrawsVectors (R.stream chance.old) (R.stream chance.new)
        (outside_of V.trace V.faults K.Keeper storage.vault storage.keeper) (outside_of V.trace V.faults K.Keeper result.vault result.keeper) }
    ensures unhosted { (host.new ≡ host.old) ⊎ WasServed V.trace V.faults K.Keeper
        (A.manner.Comes asks (host_of F.Folder.tree F.attributes F.Folder.faults host.old host.new) (stream_of I.rest I.faults input.old input.new) (stream_of O.written O.faults output.old output.new))
        (stream_of I.rest I.faults input.old input.new) storage.vault storage.keeper result }
    ensures uncopied { A.manner.copies ≡ false → host.new ≡ host.old }
    ensures host_grows { F.Folder.faults host.old ≤ F.Folder.faults host.new }
    ensures input_grows { I.faults input.old ≤ I.faults input.new }
    ensures output_grows { O.faults output.old ≤ O.faults output.new }
{
    let Storage { vault, keeper } = storage;
    let Beginning {
        password,
        mut reader,
        mut text,
    } = match begin::<A, I>(alloc, input) {
        Ok(beginning) => beginning,
        Err(status) => {
            return Ended {
                status,
                vault,
                keeper,
            };
        }
    };
    let mount = match open(alloc, vault, keeper, &password) {
        Ok(mount) => mount,
        Err(ended) => return ended,
    };
    let mounted = Mounted { mount, chance };
    let answered = asks.ask(alloc, mounted, &mut reader, &mut text, input, output, host);
    let Answered { mounted, end, own } = answered;
    let Mounted {
        mount,
        chance: _chance,
    } = mounted;
    close(alloc, mount, end, own)
}
