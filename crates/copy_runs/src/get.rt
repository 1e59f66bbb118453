// A file that is got under the password line of the input.
ghost use Rattle.std.specs.Prelude.{◌≡◌, ◌≤◌, List};
ghost use Rattle.copy_file.specs.line_io.Streams.{stream_of, Stream};
ghost use Rattle.copy_file.specs.answers.Hosts.{Ran};
ghost use Rattle.copy_file.specs.answers.Sessions.{Exchange, AllAt};
ghost use Rattle.copy_file.specs.session_lines.Driven.{IsUnfailed};
ghost use Rattle.shell_runs.specs.mount.Mounts.{IsReady};
ghost use Rattle.shell_runs.specs.run_frame.Statuses.{IsOwn};
ghost use Rattle.shell_runs.specs.Mounting.{mounted_hosting};
ghost use Rattle.copy_file.specs.Coming.{IsGetSession};
ghost use Rattle.copy_runs.specs.Asking.{IsFresh};
ghost use Rattle.copy_runs.specs.Copies.{get_manner};

use crate::asker::MountAsker;
use block_id::Memory;
use copy_attributes::host_attributes::Attributed;
use copy_file::line_io::LineReader;
use copy_file::session_lines::End;
use copy_file::{get_end, get_file};
use fs_model::{Moment, Path};
use outside::{Keeper, Sink, Source, Vault};
use rand_core::Rng;
use run_status::Status;
use shell_runs::{Answered, Asks, Mounted};
use std::alloc::Global;

/// Writes the bytes of the file at this path, and says how that ended.
fn get_told<O: Sink, V: Vault, K: Keeper, R: Rng>(
    alloc: Global,
    asker: &mut MountAsker<'_, V, K, R>,
    from: &Path,
    output: &mut O,
) -> (End, Status)
    requires fresh { IsFresh V.trace V.faults K.Keeper asker.old }
    ensures ready { IsReady V.trace V.faults K.Keeper asker.new.mounted.mount }
    ensures chance { asker.new.mounted.chance.ghost_name ≡ asker.old.mounted.chance.ghost_name }
    ensures got { (es : List Exchange) × Ran (mounted_hosting R.stream V.trace V.faults K.Keeper) asker.old.mounted es asker.new.mounted
        × AllAt asker.old.now es
        × ((input : Stream) → IsUnfailed input → IsGetSession from.now input (stream_of O.written O.faults output.old output.new) result.0 result.1 es) }
    ensures own { IsOwn result.1 }
    ensures output_grows { O.faults output.old ≤ O.faults output.new }
{
    let got = get_file(alloc, asker, from, output);
    get_end(got, &asker.kept)
}

/// The bytes of the file at this path, at one moment, and nothing else.
#[derive(Drop)]
pub struct Get {
    pub path: Path,
    pub now: Moment,
}

impl Asks for Get {
    ghost manner = { get_manner };

    type Text = ();

    fn text(alloc: Global) -> Result<(), Memory> {
        Ok(())
    }

    fn ask<'a, I: Source, O: Sink, F: Attributed, V: Vault, K: Keeper, R: Rng>(
        self,
        alloc: Global,
        mounted: Mounted<'a, V, K, R>,
        reader: &mut LineReader,
        text: &mut (),
        input: &mut I,
        output: &mut O,
        host: &mut F,
    ) -> Answered<'a, V, K, R> {
        let Self { path, now } = self;
        let mut asker = MountAsker {
            mounted,
            now,
            kept: None,
            stopped: 0,
        };
        let (end, own) = get_told(alloc, &mut asker, &path, output);
        let MountAsker {
            mounted,
            now: _,
            kept: _kept,
            stopped: _,
        } = asker;
        Answered { mounted, end, own }
    }
}
