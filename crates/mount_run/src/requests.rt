// The kernel's requests as what is asked of an opened file system.
ghost use Rattle.session_laws.specs.run_frame.Statuses.{IsOwn};
ghost use Rattle.mount_run.specs.Coming.{ServingEnds, mount_manner};

use block_id::Memory;
use fs_model::Moment;
use mount_serving::{Served, serve};
use outside::{Keeper, Sink, Source, Vault};
use rand_core::Rng;
use run_status::Status;
use shell_runs::host_attributes::Attributed;
use shell_runs::run_frame::line_io::{LineReader, write_all};
use shell_runs::run_frame::session_lines::End;
use shell_runs::{Answered, Asks, Mounted};
use std::alloc::Global;
use std::io::{Read, Write};
use std::time::Clock;

/// Requests of a mounted folder: the clock of their moments, a moment for where it isn't told, where they are read, where replies go, and where a
/// violation is told.
#[derive(Drop)]
pub struct MountRequests<'a, C, Q, W, E> {
    pub clock: &'a C,
    pub now: Moment,
    pub requests: &'a mut Q,
    pub replies: &'a mut W,
    pub notes: &'a mut E,
}

impl<C: Clock, Q: Read, W: Write, E: Write> Asks for MountRequests<'_, C, Q, W, E> {
    ghost manner = { mount_manner };

    type Text = ();

    fn text(alloc: Global) -> Result<(), Memory> {
        Ok(())
    }

    fn ask<'a, I: Source, O: Sink, F: Attributed, V: Vault, K: Keeper, R: Rng>(
        self,
        alloc: Global,
        mounted: Mounted<'a, V, K, R>,
        reader: &mut LineReader,
        text: &mut (),
        input: &mut I,
        output: &mut O,
        host: &mut F,
    ) -> Answered<'a, V, K, R> {
        let MountRequests {
            clock,
            now,
            requests,
            replies,
            notes,
        } = self;
        // (a byte that can't be told keeps nobody from being served)
        let _told = write_all(output, b".");
        let served = serve(alloc, mounted, clock, now, requests, replies, notes);
        let Served { host: mounted, end } = served;
        let ending = ending_of(end);
        let (end, own) = ending;
        Answered { mounted, end, own }
    }
}

/// How a session ends that served so, and the status of its own.
fn ending_of(end: mount_serving::End) -> (End, Status)
    ensures ends { ServingEnds result.0 result.1 }
    ensures own { IsOwn result.1 }
{
    match end {
        mount_serving::End::Unmounted => (End::Finished, Status::Done),
        mount_serving::End::Fault => (End::InputFault, Status::Done),
        mount_serving::End::Memory => (End::Finished, Status::Memory),
    }
}
