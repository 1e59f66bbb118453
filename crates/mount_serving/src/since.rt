// A host of which clauses know what led to it.
ghost use Rattle.std.specs.Prelude.{Option, None};
ghost use Rattle.mount_serving.specs.Since.{asked_hosting, asked_lawful};

use answers::{Answer, Host};
use fs_model::{Command, Moment};
use std::alloc::Global;
use std::marker::{Brand, PhantomData};

/// The host that serving began with. A call picks it, and no code reads it.
pub(crate) trait Since<H> {
    ghost start: { Option H };
}

impl<H> Since<H> for Brand {
    ghost start = { None };
}

/// A host to which exchanges led from that one on. Being ready says so: whoever asks it keeps that.
pub(crate) struct Asked<H, S> {
    pub host: H,
    pub since: PhantomData<S>,
}

impl<H: Host, S: Since<H>> Host for Asked<H, S> {
    ghost hosting = { asked_hosting H.hosting S.start };

    fn refuses(&self) -> bool {
        self.host.refuses()
    }

    fn answer(&mut self, alloc: Global, now: Moment, command: &Command) -> Answer {
        self.host.answer(alloc, now, command)
    }

    ghost lawful = { asked_lawful H.hosting S.start H.lawful };
}
