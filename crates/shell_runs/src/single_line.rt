// One line.
ghost use Rattle.shell_runs.specs.Asking.{single_manner};

use crate::asks::{Answered, Asks};
use crate::mounted::Mounted;
use block_id::Memory;
use fs_model::Moment;
use host_attributes::Attributed;
use outside::{Keeper, Sink, Source, Vault};
use rand_core::Rng;
use run_status::Status;
use session_laws::answers::TextBuffer;
use session_laws::run_frame::line_io::LineReader;
use session_laws::session_lines::answer_single;
use std::alloc::Global;

/// This one line, at one moment.
#[derive(Drop)]
pub struct SingleLine {
    pub line: Vec<u8>,
    pub now: Moment,
}

impl Asks for SingleLine {
    ghost manner = { single_manner };

    type Text = TextBuffer;

    fn text(alloc: Global) -> Result<TextBuffer, Memory> {
        TextBuffer::new(alloc)
    }

    fn ask<'a, I: Source, O: Sink, F: Attributed, V: Vault, K: Keeper, R: Rng>(
        self,
        alloc: Global,
        mounted: Mounted<'a, V, K, R>,
        reader: &mut LineReader,
        text: &mut TextBuffer,
        input: &mut I,
        output: &mut O,
        host: &mut F,
    ) -> Answered<'a, V, K, R> {
        let mut mounted = mounted;
        let end = answer_single(alloc, &mut mounted, self.now, &self.line, text, output);
        Answered {
            mounted,
            end,
            own: Status::Done,
        }
    }
}
