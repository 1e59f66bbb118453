// One look.
ghost use Rattle.std.specs.Prelude.{◌≡◌, ◌≤◌, false};
ghost use Rattle.session_laws.specs.line_io.Streams.{stream_of};
ghost use Rattle.session_laws.specs.Openings.{HasCauses};
ghost use Rattle.session_laws.specs.Runs.{IsLookedRun, outside_of};
ghost use Rattle.looking.specs.Finding.{found_holdings, found_meanings};
ghost use Rattle.looking.specs.Hosting.{IsReady};
ghost use Rattle.looking.specs.Runs.{IsAnsweredLook, RanLook};

use crate::finding::{Unbegun, find_files};
use crate::host::Looked;
use found_blocks::FoundStore;
use fs_model::Moment;
use outside::{Keeper, Sink, Source, Vault};
use run_status::{Ended, Status, Storage};
use session_laws::answers::TextBuffer;
use session_laws::config_file::Cipher;
use session_laws::run_frame::{Beginning, begin, opening_status, session_status};
use session_laws::session_lines::answer_single;
use std::alloc::Global;

/// Answers one line over found blocks. It gives the status, and the directory back.
fn answer_over<O: Sink, V: Vault>(
    alloc: Global,
    looked: Looked<FoundStore<V, Cipher>>,
    now: Moment,
    line: &[u8],
    text: &mut TextBuffer,
    output: &mut O,
) -> (Status, V)
    requires ready { IsReady (found_meanings V.trace V.faults) found_holdings looked }
    requires fresh { looked.violated ≡ false }
    ensures answered { IsAnsweredLook V.trace V.faults now line.now looked (stream_of O.written O.faults output.old output.new) result.0 result.1 }
    ensures output_grows { O.faults output.old ≤ O.faults output.new }
{
    let mut looked = looked;
    let end = answer_single(alloc, &mut looked, now, line, text, output);
    let Looked {
        blobs,
        root: _,
        violated,
    } = looked;
    let store = blobs.into_tx().into_store();
    (session_status(violated, end, Ok(())), store.into_vault())
}

/// Reads the configuration under the password line of the input, finds the blocks that its root leads to, and answers one
/// line over them. The local record is neither asked for nor saved. All memory for lines and texts is taken before.
pub fn run_look<I: Source, O: Sink, V: Vault, K: Keeper>(
    alloc: Global,
    line: &[u8],
    now: Moment,
    input: &mut I,
    output: &mut O,
    storage: Storage<V, K>,
) -> Ended<V, K>
    ensures ran { RanLook V.trace V.faults now line.now (stream_of I.rest I.faults input.old input.new)
        (stream_of O.written O.faults output.old output.new) storage.vault storage.keeper result }
    ensures looked { IsLookedRun (outside_of V.trace V.faults K.Keeper storage.vault storage.keeper)
        (outside_of V.trace V.faults K.Keeper result.vault result.keeper) }
    ensures causes { HasCauses (outside_of V.trace V.faults K.Keeper storage.vault storage.keeper)
        (outside_of V.trace V.faults K.Keeper result.vault result.keeper) result.status }
    ensures keeper { result.keeper ≡ storage.keeper }
    ensures input_grows { I.faults input.old ≤ I.faults input.new }
    ensures output_grows { O.faults output.old ≤ O.faults output.new }
{
    let Storage { vault, keeper } = storage;
    let Beginning {
        password,
        reader: _reader,
        mut text,
    } = match begin(alloc, input) {
        Ok(beginning) => beginning,
        Err(status) => {
            return Ended {
                status,
                vault,
                keeper,
            };
        }
    };
    match find_files(alloc, vault, &password) {
        Ok(looked) => {
            let (status, vault) = answer_over(alloc, looked, now, line, &mut text, output);
            Ended {
                status,
                vault,
                keeper,
            }
        }
        Err(Unbegun { error, vault }) => Ended {
            status: opening_status(error),
            vault,
            keeper,
        },
    }
}
