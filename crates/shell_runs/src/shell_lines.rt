// The lines of the input.
ghost use Rattle.shell_runs.specs.Asking.{shell_manner};

use crate::asks::{Answered, Asks};
use crate::mounted::Mounted;
use block_id::Memory;
use fs_model::Moment;
use host_attributes::Attributed;
use outside::{Keeper, Sink, Source, Vault};
use rand_core::Rng;
use run_status::Status;
use session_laws::answers::TextBuffer;
use session_laws::run_frame::line_io::LineReader;
use session_laws::session_lines::answer_lines;
use std::alloc::Global;

/// Each line after the password line, answered before the next is taken, at one moment.
#[derive(Drop)]
pub struct ShellLines {
    pub now: Moment,
}

impl Asks for ShellLines {
    ghost manner = { shell_manner };

    type Text = TextBuffer;

    fn text(alloc: Global) -> Result<TextBuffer, Memory> {
        TextBuffer::new(alloc)
    }

    fn ask<'a, I: Source, O: Sink, F: Attributed, V: Vault, K: Keeper, R: Rng>(
        self,
        alloc: Global,
        mounted: Mounted<'a, V, K, R>,
        reader: &mut LineReader,
        text: &mut TextBuffer,
        input: &mut I,
        output: &mut O,
        host: &mut F,
    ) -> Answered<'a, V, K, R> {
        let mut mounted = mounted;
        let end = answer_lines(alloc, &mut mounted, self.now, reader, text, input, output);
        Answered {
            mounted,
            end,
            own: Status::Done,
        }
    }
}
