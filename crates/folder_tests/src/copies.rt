// A real folder as that of a copy, whose calls a story is.
use crate::files::on_files;
use crate::places::{Places, make_places, remove_places};
use crate::stories::{Order, Stage, play};
use memory_host_folder::host_folder::Folder;
use memory_host_folder::{Row, appends, has_rows, leads, makes, path};
use outside::Failed;
use real_host_folder::RealHost;
use std::alloc::Global;
use std::test::Fail;

/// The parts of a text, or none.
pub fn parts_of<'a>(alloc: Global, text: &'a str, between: char) -> Option<Vec<&'a str>> {
    if text.is_empty() {
        return Some(Vec::new(alloc));
    }
    let parts: Vec<&str> = text.split(between).collect(alloc).ok()?;
    Some(parts)
}

/// The names of a path: `d/f`, or `n*70` for one name so often.
fn names_of<'a>(alloc: Global, text: &'a str) -> Option<Vec<&'a str>> {
    match text.split_once('*') {
        Some((name, count)) => Vec::from_elem(alloc, name, count.parse().ok()?).ok(),
        None => parts_of(alloc, text, '/'),
    }
}

/// Whether a listing fails.
fn fails_to_list<F: Folder>(alloc: Global, host: &mut F, names: &[&str]) -> Option<bool> {
    let at = path(alloc, names)?;
    Some(host.list(alloc, &at).is_err())
}

/// Whether the rows are these, parted by bars.
fn has<F: Folder>(alloc: Global, host: &mut F, names: &[&str], rows: &str) -> Option<bool> {
    let rows = parts_of(alloc, rows, '|')?;
    Some(has_rows(alloc, host, names, &rows))
}

/// Whether each folder on the way down this path is made.
fn makes_all<F: Folder>(alloc: Global, host: &mut F, names: &[&str]) -> bool {
    let mut made = true;
    for depth in 1..=names.len() {
        made = made && makes(alloc, host, &names[..depth], Row::Folder);
    }
    made
}

/// Whether each folder on the way up from this path, without its own, has this row alone.
fn has_above<F: Folder>(alloc: Global, host: &mut F, names: &[&str], row: &str) -> bool {
    let mut has = true;
    for back in 1..names.len() {
        has = has && has_rows(alloc, host, &names[..names.len() - back], &[row]);
    }
    has
}

/// Whether an order on the rows at this path comes out, where it is one.
fn on_rows<F: Folder>(
    alloc: Global,
    host: &mut F,
    names: &[&str],
    order: &Order<'_>,
) -> Option<bool> {
    match order.name {
        "rows" => has(alloc, host, names, order.text),
        "rows-above" => Some(has_above(alloc, host, names, order.text)),
        "fails-to-list" => fails_to_list(alloc, host, names),
        "adds-folder" => Some(makes(alloc, host, names, Row::Folder)),
        "adds-folders" => Some(makes_all(alloc, host, names)),
        "adds-file" => Some(makes(alloc, host, names, Row::File)),
        "adds-link" => Some(makes(alloc, host, names, Row::Link(order.text))),
        "appends" => Some(appends(alloc, host, names, order.text.as_bytes())),
        "leads" => Some(leads(alloc, host, names, order.text)),
        _ => None,
    }
}

/// Whether a read of three bytes from this place on gives these, or fails where the order says that.
fn reads<F: Folder>(
    alloc: Global,
    host: &mut F,
    names: &str,
    from: u64,
    order: &Order<'_>,
) -> Option<bool> {
    let at = path(alloc, &names_of(alloc, names)?)?;
    let mut piece = [0u8; 3];
    let read = host.read(&at, from, &mut piece);
    match read {
        Ok(n) if order.name == "reads" => Some(piece.get(..n) == Some(order.text.as_bytes())),
        Ok(_) => Some(false),
        Err(Failed) => Some(order.name == "fails-to-read"),
    }
}

/// Whether an order on a copy's folder comes out, where it is one.
fn on_copy<F: Folder>(alloc: Global, host: &mut F, order: &Order<'_>) -> Option<bool> {
    if order.name == "reads" || order.name == "fails-to-read" {
        let (names, from) = order
            .subject
            .split_once(" from ")
            .unwrap_or((order.subject, "0"));
        return reads(alloc, host, names, from.parse().ok()?, order);
    }
    let names = names_of(alloc, order.subject)?;
    on_rows(alloc, host, &names, order)
}

/// The folder of a copy.
#[derive(Drop)]
struct Copying<'a> {
    rt: HostRuntime,
    places: &'a Places,
    host: RealHost<'a>,
}

impl Stage for Copying<'_> {
    fn takes(&mut self, order: &Order<'_>) -> Option<bool> {
        if order.name == "ends" {
            return Some(self.host.end().is_ok());
        }
        match on_files(&self.rt, self.places.folder.as_str(), order) {
            Some(came_out) => Some(came_out),
            None => on_copy(self.rt.alloc(), &mut self.host, order),
        }
    }
}

/// A story of a copy's folder: the story's own, of a run over a block folder and a state folder that aren't there, where its
/// places aren't told. Its orders are those on files, and these:
///
/// | Order | Does or sees |
/// |---|---|
/// | `rows d: fa b\|ff` | the rows of a folder, each with `d`, `f` or `l` before its name |
/// | `rows-above n/n: dn` | each folder above has this row alone |
/// | `reads d/f from 3: de` | a read of three bytes from a place on, from 0 where it isn't told, gives these |
/// | `leads l: d/f` | a link has this target |
/// | `fails-to-list d`, `fails-to-read d/f` | these calls fail |
/// | `adds-folder d`, `adds-file d/f`, `adds-link l: d/f` | a row is made |
/// | `adds-folders n/n` | each folder on the way is made |
/// | `appends d/f: abc` | bytes are put behind a file's |
/// | `ends` | what was made is flushed |
pub fn play_copy(rt: &HostRuntime, names: &str, lines: &str) -> Result<(), Fail> {
    let nowhere = ". /nowhere/blocks /nowhere/state";
    let places = make_places(rt, if names.is_empty() { nowhere } else { names })?;
    let (first, second) = (places.first.as_str(), places.second.as_str());
    let mut copying = Copying {
        rt: *rt,
        places: &places,
        host: RealHost::new(rt, first, second, places.third.as_str()),
    };
    let played = play(&mut copying, lines);
    drop(copying);
    let removed = remove_places(rt, &places);
    played?;
    Ok(removed?)
}
