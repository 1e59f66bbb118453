// What is asked of an opened file system.
ghost use Rattle.std.specs.Prelude.{◌≡◌, ◌≤◌, true, false, List};
ghost use Rattle.outside.specs.Streams.{Ends};
ghost use Rattle.session_laws.specs.answers.Hosts.{Ran};
ghost use Rattle.session_laws.specs.answers.Sessions.{Exchange};
ghost use Rattle.session_laws.specs.line_io.Reading.{coming};
ghost use Rattle.session_laws.specs.line_io.Streams.{stream_of};
ghost use Rattle.session_laws.specs.mount.Mounts.{IsReady};
ghost use Rattle.session_laws.specs.run_frame.Statuses.{IsOwn};
ghost use Rattle.shell_runs.specs.Asking.{Manner, Came};
ghost use Rattle.shell_runs.specs.Hosts.{host_of};
ghost use Rattle.shell_runs.specs.Mounting.{mounted_hosting};

use crate::mounted::Mounted;
use block_id::Memory;
use host_attributes::Attributed;
use outside::{Keeper, Sink, Source, Vault};
use rand_core::Rng;
use run_status::Status;
use session_laws::run_frame::line_io::LineReader;
use session_laws::session_lines::End;
use std::alloc::Global;

/// The file system after what was asked, how the input and the output ended, and the status of what was asked.
pub struct Answered<'a, V, K, R> {
    pub mounted: Mounted<'a, V, K, R>,
    pub end: End,
    pub own: Status,
}

/// What is asked between opening and closing. `manner` tells what it needs, and how its exchanges come.
pub trait Asks: Drop {
    ghost manner: { Manner Self };

    /// Memory for what it prints.
    type Text: Drop;

    /// Takes that memory, before the password is read.
    fn text(alloc: Global) -> Result<Self::Text, Memory>;

    /// Asks the opened file system, reads what follows the password line, and writes the answers. The folder of the host
    /// is called by copies alone.
    fn ask<'a, I: Source, O: Sink, F: Attributed, V: Vault, K: Keeper, R: Rng>(
        self,
        alloc: Global,
        mounted: Mounted<'a, V, K, R>,
        reader: &mut LineReader,
        text: &mut Self::Text,
        input: &mut I,
        output: &mut O,
        host: &mut F,
    ) -> Answered<'a, V, K, R>
        requires ready { IsReady V.trace V.faults K.Keeper mounted.mount }
        requires fits { manner.fits self }
        requires ended { reader.old.ended ≡ true → Ends (coming reader.old.ahead (I.rest input.old)) }
        ensures ready { IsReady V.trace V.faults K.Keeper result.mounted.mount }
        ensures chance { result.mounted.chance.ghost_name ≡ mounted.entry.chance.ghost_name }
        ensures asked { (es : List Exchange)
            × Ran (mounted_hosting R.stream V.trace V.faults K.Keeper) mounted.entry es result.mounted
            × Came manner self (host_of F.Folder.tree F.attributes F.Folder.faults host.old host.new) reader.old.taken (coming reader.old.ahead (I.rest input.old))
            (stream_of I.rest I.faults input.old input.new) (stream_of O.written O.faults output.old output.new) result.end result.own es }
        ensures own { IsOwn result.own }
        ensures uncopied { manner.copies ≡ false → host.new ≡ host.old }
        ensures host_grows { F.Folder.faults host.old ≤ F.Folder.faults host.new }
        ensures input_grows { I.faults input.old ≤ I.faults input.new }
        ensures output_grows { O.faults output.old ≤ O.faults output.new };
}
