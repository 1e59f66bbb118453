// `check`: checks a whole file system.
ghost use Rattle.std.specs.Prelude.{◌≡◌, ◌≤◌, []};
ghost use Rattle.check_texts.specs.line_io.Streams.{stream_of};
ghost use Rattle.setup_runs.specs.session_laws.Openings.{HasCauses};
ghost use Rattle.setup_runs.specs.session_laws.Runs.{outside_of};
ghost use Rattle.check_runs.specs.Running.{CheckedUnder, RanCheck};

use crate::examining::{Examination, examine};
use block_id::Memory;
use check_texts::{Page, tell_verdict};
use outside::{Keeper, Listing, Sink, Source, Vault};
use run_status::{Ended, Status, Storage};
use setup_runs::run_frame::{closing_status, read_password};
use std::alloc::Global;

/// Opens the file system under the password line of the input, checks and closes it, and tells what was found: each block
/// with its owner and the strangers in the directory, or what is wrong, and then what is kept is marked. All memory for lines
/// and the first 65,536 bytes of texts is taken before.
pub fn run_check<I: Source, O: Sink, V: Vault + Listing, K: Keeper>(
    alloc: Global,
    input: &mut I,
    output: &mut O,
    storage: Storage<V, K>,
) -> Ended<V, K>
    ensures checked { RanCheck V.trace V.faults V.names K.Keeper (stream_of I.rest I.faults input.old input.new)
        (stream_of O.written O.faults output.old output.new) storage.vault storage.keeper result }
    ensures causes { HasCauses (outside_of V.trace V.faults K.Keeper storage.vault storage.keeper)
        (outside_of V.trace V.faults K.Keeper result.vault result.keeper) result.status }
    ensures input_grows { I.faults input.old ≤ I.faults input.new }
    ensures output_grows { O.faults output.old ≤ O.faults output.new }
{
    let Storage { vault, keeper } = storage;
    let page = match Page::new(alloc) {
        Ok(page) => page,
        Err(Memory) => {
            return Ended {
                status: Status::Memory,
                vault,
                keeper,
            };
        }
    };
    let reader = match read_password(alloc, input) {
        Ok(reader) => reader,
        Err(status) => {
            return Ended {
                status,
                vault,
                keeper,
            };
        }
    };
    let password = reader.line().unwrap_or(&[]);
    check_under(alloc, password, page, output, vault, keeper)
}

/// Opens the file system under the password, checks and closes it, and tells what was found.
fn check_under<O: Sink, V: Vault + Listing, K: Keeper>(
    alloc: Global,
    password: &[u8],
    page: Page,
    output: &mut O,
    vault: V,
    keeper: K,
) -> Ended<V, K>
    requires { page ≡ [] }
    ensures checked { CheckedUnder V.trace V.faults V.names K.Keeper password.now (stream_of O.written O.faults output.old output.new) vault keeper result }
    ensures causes { HasCauses (outside_of V.trace V.faults K.Keeper vault keeper) (outside_of V.trace V.faults K.Keeper result.vault result.keeper) result.status }
    ensures output_grows { O.faults output.old ≤ O.faults output.new }
{
    let mut page = page;
    let Examination {
        verdict,
        closing,
        vault,
        keeper,
    } = match examine(alloc, vault, keeper, password) {
        Ok(examination) => examination,
        Err(ended) => return ended,
    };
    let mut vault = vault;
    let told = tell_verdict(alloc, &verdict, &mut page, output, &mut vault);
    Ended {
        status: told.or(closing_status(closing)),
        vault,
        keeper,
    }
}
