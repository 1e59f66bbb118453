// `check --all`: checks a whole file system, and names each block that isn't given.
ghost use Rattle.std.specs.Prelude.{◌≡◌, ◌≤◌, []};
ghost use Rattle.check_texts.specs.line_io.Streams.{stream_of};
ghost use Rattle.setup_runs.specs.session_laws.Openings.{HasCauses};
ghost use Rattle.setup_runs.specs.session_laws.Runs.{outside_of};
ghost use Rattle.check_runs.specs.SurveyRuns.{RanSurvey, SurveyedUnder};

use crate::surveying::{Survey, survey_under};
use block_id::Memory;
use check_texts::{Page, tell_survey};
use outside::{Keeper, Listing, Sink, Source, Vault};
use run_status::{Ended, Status, Storage};
use setup_runs::run_frame::{closing_status, read_password};
use std::alloc::Global;

/// Opens the file system under the password line of the input, checks and closes it, and tells what was found as a check
/// does. After a flaw, a violation or a fault each live block is asked for besides, and those that aren't given are told. What
/// is kept is left. All memory for lines and the first 65,536 bytes of texts is taken before.
pub fn run_survey<I: Source, O: Sink, V: Vault + Listing, K: Keeper>(
    alloc: Global,
    input: &mut I,
    output: &mut O,
    storage: Storage<V, K>,
) -> Ended<V, K>
    ensures surveyed { RanSurvey V.trace V.faults V.names K.Keeper (stream_of I.rest I.faults input.old input.new)
        (stream_of O.written O.faults output.old output.new) storage.vault storage.keeper result }
    ensures causes { HasCauses (outside_of V.trace V.faults K.Keeper storage.vault storage.keeper)
        (outside_of V.trace V.faults K.Keeper result.vault result.keeper) result.status }
    ensures input_grows { I.faults input.old ≤ I.faults input.new }
    ensures output_grows { O.faults output.old ≤ O.faults output.new }
{
    let Storage { vault, keeper } = storage;
    let page = match Page::new(alloc) {
        Ok(page) => page,
        Err(Memory) => {
            return Ended {
                status: Status::Memory,
                vault,
                keeper,
            };
        }
    };
    let reader = match read_password(alloc, input) {
        Ok(reader) => reader,
        Err(status) => {
            return Ended {
                status,
                vault,
                keeper,
            };
        }
    };
    let password = reader.line().unwrap_or(&[]);
    tell_under(alloc, password, page, output, vault, keeper)
}

/// Opens the file system under the password, checks, surveys and closes it, and tells what was found.
fn tell_under<O: Sink, V: Vault + Listing, K: Keeper>(
    alloc: Global,
    password: &[u8],
    page: Page,
    output: &mut O,
    vault: V,
    keeper: K,
) -> Ended<V, K>
    requires { page ≡ [] }
    ensures surveyed { SurveyedUnder V.trace V.faults V.names K.Keeper password.now (stream_of O.written O.faults output.old output.new) vault keeper result }
    ensures causes { HasCauses (outside_of V.trace V.faults K.Keeper vault keeper) (outside_of V.trace V.faults K.Keeper result.vault result.keeper) result.status }
    ensures output_grows { O.faults output.old ≤ O.faults output.new }
{
    let mut page = page;
    let Survey {
        verdict,
        ungiven,
        end,
        closing,
        vault,
        keeper,
    } = match survey_under(alloc, vault, keeper, password) {
        Ok(survey) => survey,
        Err(ended) => return ended,
    };
    let mut vault = vault;
    let told = tell_survey(
        alloc, &verdict, &ungiven, &end, &mut page, output, &mut vault,
    );
    Ended {
        status: told.or(closing_status(closing)),
        vault,
        keeper,
    }
}
