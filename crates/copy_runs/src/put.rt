// A file that is put under the password line of the input.
ghost use Rattle.std.specs.Prelude.{◌≡◌, ◌≤◌, true, List};
ghost use Rattle.outside.specs.Streams.{Ends};
ghost use Rattle.copy_file.specs.line_io.Reading.{coming};
ghost use Rattle.copy_file.specs.line_io.Streams.{stream_of};
ghost use Rattle.copy_file.specs.answers.Hosts.{Ran};
ghost use Rattle.copy_file.specs.answers.Sessions.{Exchange, AllAt};
ghost use Rattle.shell_runs.specs.mount.Mounts.{IsReady};
ghost use Rattle.shell_runs.specs.run_frame.Statuses.{IsOwn};
ghost use Rattle.shell_runs.specs.Mounting.{mounted_hosting};
ghost use Rattle.copy_file.specs.Coming.{IsPutSession};
ghost use Rattle.copy_runs.specs.Asking.{IsFresh};
ghost use Rattle.copy_runs.specs.Copies.{put_manner};

use crate::asker::MountAsker;
use block_id::Memory;
use copy_attributes::host_attributes::Attributed;
use copy_file::copy_sessions::CopyText;
use copy_file::line_io::LineReader;
use copy_file::session_lines::End;
use copy_file::{put_file, tell_put};
use fs_model::{Moment, Path};
use outside::{Keeper, Sink, Source, Vault};
use rand_core::Rng;
use run_status::Status;
use shell_runs::{Answered, Asks, Mounted};
use std::alloc::Global;

/// Puts the bytes of the input into a new file at this path, and prints how that ended.
fn put_told<I: Source, O: Sink, V: Vault, K: Keeper, R: Rng>(
    alloc: Global,
    asker: &mut MountAsker<'_, V, K, R>,
    reader: &mut LineReader,
    input: &mut I,
    to: Path,
    text: &mut CopyText,
    output: &mut O,
) -> (End, Status)
    requires fresh { IsFresh V.trace V.faults K.Keeper asker.old }
    requires ended { reader.old.ended ≡ true → Ends (coming reader.old.ahead (I.rest input.old)) }
    ensures ready { IsReady V.trace V.faults K.Keeper asker.new.mounted.mount }
    ensures chance { asker.new.mounted.chance.ghost_name ≡ asker.old.mounted.chance.ghost_name }
    ensures put { (es : List Exchange) × Ran (mounted_hosting R.stream V.trace V.faults K.Keeper) asker.old.mounted es asker.new.mounted
        × AllAt asker.old.now es
        × IsPutSession to reader.old.taken (coming reader.old.ahead (I.rest input.old)) (stream_of I.rest I.faults input.old input.new) (stream_of O.written O.faults output.old output.new) result.0 result.1 es }
    ensures own { IsOwn result.1 }
    ensures input_grows { I.faults input.old ≤ I.faults input.new }
    ensures output_grows { O.faults output.old ≤ O.faults output.new }
{
    let put = put_file(alloc, reader, input, asker, &to);
    tell_put(text, put, to, &asker.kept, output)
}

/// A new file at this path, of the bytes that follow the password line, at one moment, and a line that says how that ended.
#[derive(Drop)]
pub struct Put {
    pub path: Path,
    pub now: Moment,
}

impl Asks for Put {
    ghost manner = { put_manner };

    type Text = CopyText;

    fn text(alloc: Global) -> Result<CopyText, Memory> {
        CopyText::new(alloc)
    }

    fn ask<'a, I: Source, O: Sink, F: Attributed, V: Vault, K: Keeper, R: Rng>(
        self,
        alloc: Global,
        mounted: Mounted<'a, V, K, R>,
        reader: &mut LineReader,
        text: &mut CopyText,
        input: &mut I,
        output: &mut O,
        host: &mut F,
    ) -> Answered<'a, V, K, R> {
        let Self { path, now } = self;
        let mut asker = MountAsker {
            mounted,
            now,
            kept: None,
            stopped: 0,
        };
        let (end, own) = put_told(alloc, &mut asker, reader, input, path, text, output);
        let MountAsker {
            mounted,
            now: _,
            kept: _kept,
            stopped: _,
        } = asker;
        Answered { mounted, end, own }
    }
}
