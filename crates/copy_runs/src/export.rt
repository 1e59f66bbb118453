// Exports under the password line of the input.
ghost use Rattle.copy_file.specs.copy_sessions.declared.way.Way.TheVariants.{Out};
ghost use Rattle.copy_runs.specs.Copies.{export_manner, export_times_manner};
ghost use Rattle.copy_runs.specs.Sessions.{export_carriage, export_times_carriage};

use crate::asker::MountAsker;
use crate::carrying::{Carries, copy_told};
use block_id::Memory;
use copy_attributes::export_with_attributes;
use copy_attributes::host_attributes::Attributed;
use copy_attributes::tree_copy::copy_laws::{Asker, CopyFail, Totals};
use copy_attributes::tree_copy::export;
use copy_file::copy_sessions::{CopyText, Way};
use copy_file::line_io::LineReader;
use fs_model::{Moment, Path};
use outside::{Keeper, Sink, Source, Vault};
use rand_core::Rng;
use shell_runs::{Answered, Asks, Mounted};
use std::alloc::Global;

/// What stands below this path, copied into a folder of the host, at one moment, and a line that says how that ended.
#[derive(Drop)]
pub struct Export {
    pub path: Path,
    pub now: Moment,
}

impl Carries for Export {
    ghost goes = { Out };

    ghost carriage = { export_carriage };

    fn way(&self) -> Way {
        Way::Out
    }

    fn carry<F: Attributed, A: Asker>(
        &self,
        alloc: Global,
        host: &mut F,
        asker: &mut A,
        path: &Path,
    ) -> Result<Totals, CopyFail> {
        export(alloc, host, asker, path)
    }
}

impl Asks for Export {
    ghost manner = { export_manner };

    type Text = CopyText;

    fn text(alloc: Global) -> Result<CopyText, Memory> {
        CopyText::new(alloc)
    }

    fn ask<'a, I: Source, O: Sink, F: Attributed, V: Vault, K: Keeper, R: Rng>(
        self,
        alloc: Global,
        mounted: Mounted<'a, V, K, R>,
        reader: &mut LineReader,
        text: &mut CopyText,
        input: &mut I,
        output: &mut O,
        host: &mut F,
    ) -> Answered<'a, V, K, R> {
        let mut asker = MountAsker {
            mounted,
            now: self.now,
            kept: None,
            stopped: 0,
        };
        let (end, own) = copy_told(alloc, &self, &mut asker, &self.path, host, text, output);
        let MountAsker {
            mounted,
            now: _,
            kept: _,
            stopped: _,
        } = asker;
        Answered { mounted, end, own }
    }
}

/// The same with the attributes of the rows, which are set behind the copy.
#[derive(Drop)]
pub struct ExportTimes {
    pub path: Path,
    pub now: Moment,
}

impl Carries for ExportTimes {
    ghost goes = { Out };

    ghost carriage = { export_times_carriage };

    fn way(&self) -> Way {
        Way::Out
    }

    fn carry<F: Attributed, A: Asker>(
        &self,
        alloc: Global,
        host: &mut F,
        asker: &mut A,
        path: &Path,
    ) -> Result<Totals, CopyFail> {
        export_with_attributes(alloc, host, asker, path)
    }
}

impl Asks for ExportTimes {
    ghost manner = { export_times_manner };

    type Text = CopyText;

    fn text(alloc: Global) -> Result<CopyText, Memory> {
        CopyText::new(alloc)
    }

    fn ask<'a, I: Source, O: Sink, F: Attributed, V: Vault, K: Keeper, R: Rng>(
        self,
        alloc: Global,
        mounted: Mounted<'a, V, K, R>,
        reader: &mut LineReader,
        text: &mut CopyText,
        input: &mut I,
        output: &mut O,
        host: &mut F,
    ) -> Answered<'a, V, K, R> {
        let mut asker = MountAsker {
            mounted,
            now: self.now,
            kept: None,
            stopped: 0,
        };
        let (end, own) = copy_told(alloc, &self, &mut asker, &self.path, host, text, output);
        let MountAsker {
            mounted,
            now: _,
            kept: _,
            stopped: _,
        } = asker;
        Answered { mounted, end, own }
    }
}
