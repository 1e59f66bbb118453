// Imports under the password line of the input.
ghost use Rattle.copy_file.specs.copy_sessions.declared.way.Way.TheVariants.{In};
ghost use Rattle.copy_runs.specs.Copies.{import_manner, import_times_manner};
ghost use Rattle.copy_runs.specs.Sessions.{import_carriage, import_times_carriage};

use crate::asker::MountAsker;
use crate::carrying::{Carries, copy_told};
use block_id::Memory;
use copy_attributes::host_attributes::Attributed;
use copy_attributes::import_with_attributes;
use copy_attributes::tree_copy::copy_laws::{Asker, CopyFail, Totals};
use copy_attributes::tree_copy::import;
use copy_file::copy_sessions::{CopyText, Way};
use copy_file::line_io::LineReader;
use fs_model::{Moment, Path};
use outside::{Keeper, Sink, Source, Vault};
use rand_core::Rng;
use shell_runs::{Answered, Asks, Mounted};
use std::alloc::Global;

/// A folder of the host, copied into the file system below this path, at one moment, and a line that says how that ended.
#[derive(Drop)]
pub struct Import {
    pub path: Path,
    pub now: Moment,
}

impl Carries for Import {
    ghost goes = { In };

    ghost carriage = { import_carriage };

    fn way(&self) -> Way {
        Way::In
    }

    fn carry<F: Attributed, A: Asker>(
        &self,
        alloc: Global,
        host: &mut F,
        asker: &mut A,
        path: &Path,
    ) -> Result<Totals, CopyFail> {
        import(alloc, host, asker, path)
    }
}

impl Asks for Import {
    ghost manner = { import_manner };

    type Text = CopyText;

    fn text(alloc: Global) -> Result<CopyText, Memory> {
        CopyText::new(alloc)
    }

    fn ask<'a, I: Source, O: Sink, F: Attributed, V: Vault, K: Keeper, R: Rng>(
        self,
        alloc: Global,
        mounted: Mounted<'a, V, K, R>,
        reader: &mut LineReader,
        text: &mut CopyText,
        input: &mut I,
        output: &mut O,
        host: &mut F,
    ) -> Answered<'a, V, K, R> {
        let mut asker = MountAsker {
            mounted,
            now: self.now,
            kept: None,
            stopped: 0,
        };
        let (end, own) = copy_told(alloc, &self, &mut asker, &self.path, host, text, output);
        let MountAsker {
            mounted,
            now: _,
            kept: _,
            stopped: _,
        } = asker;
        Answered { mounted, end, own }
    }
}

/// The same with the attributes of the folder's rows, which are given behind the copy.
#[derive(Drop)]
pub struct ImportTimes {
    pub path: Path,
    pub now: Moment,
}

impl Carries for ImportTimes {
    ghost goes = { In };

    ghost carriage = { import_times_carriage };

    fn way(&self) -> Way {
        Way::In
    }

    fn carry<F: Attributed, A: Asker>(
        &self,
        alloc: Global,
        host: &mut F,
        asker: &mut A,
        path: &Path,
    ) -> Result<Totals, CopyFail> {
        import_with_attributes(alloc, host, asker, path)
    }
}

impl Asks for ImportTimes {
    ghost manner = { import_times_manner };

    type Text = CopyText;

    fn text(alloc: Global) -> Result<CopyText, Memory> {
        CopyText::new(alloc)
    }

    fn ask<'a, I: Source, O: Sink, F: Attributed, V: Vault, K: Keeper, R: Rng>(
        self,
        alloc: Global,
        mounted: Mounted<'a, V, K, R>,
        reader: &mut LineReader,
        text: &mut CopyText,
        input: &mut I,
        output: &mut O,
        host: &mut F,
    ) -> Answered<'a, V, K, R> {
        let mut asker = MountAsker {
            mounted,
            now: self.now,
            kept: None,
            stopped: 0,
        };
        let (end, own) = copy_told(alloc, &self, &mut asker, &self.path, host, text, output);
        let MountAsker {
            mounted,
            now: _,
            kept: _,
            stopped: _,
        } = asker;
        Answered { mounted, end, own }
    }
}
