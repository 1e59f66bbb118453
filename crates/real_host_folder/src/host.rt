// A real folder as the folder of a copy.
ghost use Rattle.std.specs.Prelude.{◌≡◌, ◌≤◌, ◌<◌, ◌+◌, ◌^◌, length, IfOk, OnOk, OnErr, IsTrue, None};
ghost use Rattle.std.specs.declared.result.Result.TheVariants.{Ok};
ghost use Rattle.std.specs.Io.{ReadsAtMost};
ghost use Rattle.outside.specs.Causes.{GetHasCause, RoseBy};
ghost use Rattle.fs_model.specs.Fitting.{is_target};
ghost use Rattle.host_attributes.specs.Attributes.{AreWithin};
ghost use Rattle.host_attributes.specs.host_folder.Folders.{RowsRise};

use crate::attributes::attr_of;
use crate::error::HostError;
use crate::listing;
use crate::place::Place;
use crate::telling::Telling;
use crate::text::name_text;
use crate::way::{Access, Way};
use block_id::Failed;
use fs_model::{Attr, ByteText, Command, Kind, ListRow, Name, Path, RowList};
use host_attributes::host_folder::Folder;
use host_attributes::{Attributed, AttributedRow};
use outside::GetFail;
use std::alloc::Global;
use std::fs::{self, File};
use std::io::{self, ErrorKind, Write};
use std::os::unix::fs::FileExt;

/// Bytes of a file stand before this place.
const LAST_PLACE: u64 = 9_223_372_036_854_775_808;

/// A real folder, of which nothing is told. It is opened by the first call, and what lies in it is found by the folders on the way, which are held
/// open: no link below it is followed, and whatever is moved in the middle, no other folder is read or written. The block folder and
/// the state folder are neither copied nor filled. Each call that fails says on standard error what was wrong with what.
#[derive(Drop)]
pub struct RealHost<'a> {
    place: Place<'a>,
    telling: Telling<'a>,
    way: Way,
    /// Whether what is no row is left out of listings.
    leaves_out: bool,
    faults: u64,
}

impl<'a> RealHost<'a> {
    ghost use Rattle.real_host_folder.specs.Adapters.{host_faults};

    /// The folder at this path, of a run over this block folder and this state folder. No fault so far.
    pub fn new(rt: &HostRuntime, folder: &'a str, blocks: &'a str, state: &'a str) -> RealHost<'a>
        ensures { host_faults result ≡ 0 }
    {
        let place = Place {
            rt: *rt,
            folder,
            blocks,
            state,
        };
        RealHost {
            place,
            telling: Telling::new(place),
            way: Way::new(rt.alloc()),
            leaves_out: false,
            faults: 0,
        }
    }

    /// From here on it doesn't say how far it is.
    pub fn be_quiet(&mut self)
        ensures { host_faults self.new ≡ host_faults self.old }
    {
        self.telling.progress.hide();
    }

    /// From here on what is neither file, folder nor link is told and left out of listings. Else a listing fails by it.
    pub fn leave_out(&mut self)
        ensures { host_faults self.new ≡ host_faults self.old }
    {
        self.leaves_out = true;
    }
}

impl<'a> RealHost<'a> {
    /// Flushes what was made and isn't flushed yet. Where it is Ok and no call failed, all that was made is on the disk.
    pub fn end(&mut self) -> Result<(), Failed>
        ensures grows { self.old.faults ≤ self.new.faults }
        ensures cause { OnErr result (RoseBy 1 self.old.faults self.new.faults) }
        ensures quiet { OnOk result (self.new.faults ≡ self.old.faults) }
    {
        let left = self.way.leave();
        self.settle_all(&[], left)
    }

    /// The answer as a call gives it. A fault is told and counted; want of memory is none.
    fn settle<T: Drop>(&mut self, path: &Path, answer: Result<T, HostError>) -> Result<T, GetFail>
        ensures value { IfOk result (λ x. answer ≡ Ok x) }
        ensures cause { GetHasCause self.old.faults self.new.faults result }
    {
        match answer {
            Ok(value) => Ok(value),
            Err(HostError::Memory) => Err(GetFail::Memory),
            Err(error) => {
                self.telling.tell(path.names(), None, &error);
                self.faults = self.faults.saturating_add(1);
                Err(GetFail::Failed)
            }
        }
    }

    /// The same for a call that knows no want of memory: that is a fault.
    fn settle_all<T: Drop>(
        &mut self,
        names: &[Name],
        answer: Result<T, HostError>,
    ) -> Result<T, Failed>
        ensures value { IfOk result (λ x. answer ≡ Ok x) }
        ensures grows { self.old.faults ≤ self.new.faults }
        ensures cause { OnErr result (RoseBy 1 self.old.faults self.new.faults) }
        ensures quiet { OnOk result (self.new.faults ≡ self.old.faults) }
    {
        match answer {
            Ok(value) => Ok(value),
            Err(error) => {
                let wrong = match error {
                    HostError::Memory => HostError::Wrong("takes more memory than there is"),
                    other => other,
                };
                self.telling.tell(names, None, &wrong);
                self.faults = self.faults.saturating_add(1);
                Err(Failed)
            }
        }
    }

    fn rows(&mut self, path: &Path) -> Result<Vec<ListRow>, HostError>
        ensures order { IfOk result (λ rows. RowsRise rows.items) }
        ensures same { self.new.faults ≡ self.old.faults }
    {
        self.way.reach(self.place, path.names())?;
        let folder = self.way.path(self.place.rt.alloc(), ".")?;
        listing::rows(
            self.place,
            &mut self.telling,
            path.names(),
            folder.as_str(),
            self.leaves_out,
        )
    }

    /// Comes to the folder that the row lies in. The row's name.
    fn reach_row<'b>(&mut self, path: &'b Path) -> Result<&'b Name, HostError>
        ensures same { self.new.faults ≡ self.old.faults }
    {
        let Some((name, above)) = path.names().split_last() else {
            return Err(HostError::Wrong("is the folder itself"));
        };
        self.way.reach(self.place, above)?;
        Ok(name)
    }

    fn read_at(&mut self, path: &Path, from: u64, piece: &mut [u8]) -> Result<usize, HostError>
        ensures bound { IfOk result (λ n. n ≤ length piece.old) }
        ensures far { IfOk result (λ n. 0 < n → from + n ≤ 2 ^ 63) }
        ensures same { self.new.faults ≡ self.old.faults }
    {
        let name = self.reach_row(path)?;
        let file = self.way.file(self.place, name, Access::Read)?;
        let n = read_some_at(file, piece, from)?;
        if n > 0 && from.saturating_add(n as u64) > LAST_PLACE {
            return Err(HostError::Wrong("goes on beyond any file's end"));
        }
        Ok(n)
    }

    /// A link's target.
    fn target(&mut self, path: &Path) -> Result<ByteText, HostError>
        ensures fits { IfOk result (λ text. IsTrue (is_target text)) }
        ensures same { self.new.faults ≡ self.old.faults }
    {
        let name = self.reach_row(path)?;
        let alloc = self.place.rt.alloc();
        let link = self.way.path(alloc, name_text(name)?)?;
        let target = fs::read_link(&self.place.rt, link.as_str())?;
        fitting(alloc, target.into_string().into_bytes())
    }

    /// Makes a new row of this kind.
    fn make_row(&mut self, path: &Path, kind: Kind, target: &ByteText) -> Result<(), HostError>
        ensures same { self.new.faults ≡ self.old.faults }
    {
        let name = self.reach_row(path)?;
        match kind {
            Kind::Directory => self.way.make_folder(self.place, name),
            Kind::File => self.way.make_file(self.place, name),
            Kind::Link => self.way.make_link(self.place, name, target.as_slice()),
        }
    }

    /// The rows with their attributes. What is left out of them was told by an earlier listing.
    fn attributed_rows(&mut self, path: &Path) -> Result<Vec<AttributedRow>, HostError>
        ensures within { IfOk result (λ rows. AreWithin rows.items) }
        ensures same { self.new.faults ≡ self.old.faults }
    {
        self.telling.has_told = true;
        let rows = self.rows(path)?;
        let mut attributed = Vec::new(self.place.rt.alloc());
        for row in &rows {
            let found = self.way.look(self.place, &row.name)?;
            let Some(attr) = attr_of(row.kind, &found) else {
                return Err(HostError::Wrong("is another one now"));
            };
            let name = row.name.try_clone()?;
            attributed.push(AttributedRow { name, attr })?;
        }
        Ok(attributed)
    }

    fn dress(&mut self, path: &Path, attr: &Attr) -> Result<(), HostError>
        ensures same { self.new.faults ≡ self.old.faults }
    {
        let name = self.reach_row(path)?;
        self.way.dress(self.place, name, attr)
    }

    fn put_behind(&mut self, path: &Path, bytes: &[u8]) -> Result<(), HostError>
        ensures same { self.new.faults ≡ self.old.faults }
    {
        let name = self.reach_row(path)?;
        let file = self.way.file(self.place, name, Access::Append)?;
        Ok(file.write_all(bytes)?)
    }
}

/// Reads of the file from this place on. A read that was interrupted is tried again.
fn read_some_at(file: &File, piece: &mut [u8], from: u64) -> io::Result<usize>
    ensures { ReadsAtMost result piece.new }
{
    for _ in 0..u64::MAX {
        match file.read_at(piece, from) {
            Err(error) if error.kind() == ErrorKind::Interrupted => {}
            answer => return answer,
        }
    }
    Err(io::Error::from(ErrorKind::Interrupted))
}

/// The bytes as a link's target, where they can be one.
fn fitting(alloc: Global, bytes: Vec<u8>) -> Result<ByteText, HostError>
    ensures { IfOk result (λ text. IsTrue (is_target text)) }
{
    let copy = ByteText::new(bytes.clone()?);
    if Command::Symlink(copy, Path::root(alloc)).fits() {
        Ok(ByteText::new(bytes))
    } else {
        Err(HostError::Wrong("leads to what can't be a target"))
    }
}

impl Folder for RealHost<'_> {
    ghost use Rattle.real_host_folder.specs.Adapters.{host_faults};

    ghost tree = { λ _. None };

    ghost faults = { host_faults };

    fn list(&mut self, alloc: Global, path: &Path) -> Result<RowList, GetFail> {
        let _ = alloc;
        let answer = self.rows(path);
        match self.settle(path, answer) {
            Ok(rows) => Ok(RowList::new(rows)),
            Err(error) => Err(error),
        }
    }

    fn read(&mut self, path: &Path, from: u64, piece: &mut [u8]) -> Result<usize, Failed> {
        let answer = self.read_at(path, from, piece);
        if let Ok(n) = &answer {
            self.telling.progress.add(u64::from(from == 0), *n as u64);
        }
        self.settle_all(path.names(), answer)
    }

    fn link(&mut self, alloc: Global, path: &Path) -> Result<ByteText, GetFail> {
        let _ = alloc;
        let answer = self.target(path);
        self.settle(path, answer)
    }

    fn make(
        &mut self,
        alloc: Global,
        path: &Path,
        kind: Kind,
        target: &ByteText,
    ) -> Result<(), GetFail> {
        let _ = alloc;
        let answer = self.make_row(path, kind, target);
        if answer.is_ok() && kind == Kind::File {
            self.telling.progress.add(1, 0);
        }
        self.settle(path, answer)
    }

    fn append(&mut self, alloc: Global, path: &Path, bytes: &[u8]) -> Result<(), GetFail> {
        let _ = alloc;
        let answer = self.put_behind(path, bytes);
        if answer.is_ok() {
            self.telling.progress.add(0, bytes.len() as u64);
        }
        self.settle(path, answer)
    }
}

impl Attributed for RealHost<'_> {
    ghost use Rattle.real_host_folder.specs.Adapters.{host_faults};

    ghost attributes = { λ _. None };

    fn list_attributes(
        &mut self,
        alloc: Global,
        path: &Path,
    ) -> Result<Vec<AttributedRow>, GetFail> {
        let _ = alloc;
        let answer = self.attributed_rows(path);
        self.settle(path, answer)
    }

    fn set_attributes(&mut self, alloc: Global, path: &Path, attr: Attr) -> Result<(), GetFail> {
        let _ = alloc;
        let answer = self.dress(path, &attr);
        self.settle(path, answer)
    }
}
