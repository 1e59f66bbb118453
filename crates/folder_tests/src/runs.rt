// Two runs over a block folder and their records, whose turns a story is.
use crate::calls::{on_keeper, on_vault};
use crate::counted_flushes::{CountedFile, CountedFlushes};
use crate::files::on_files;
use crate::places::{Places, make_places, place, remove_places};
use crate::stories::{Order, Stage, play};
use call_log::CallLog;
use outside::Memory;
use real_outside::{FlushHelper, FolderKeeper, FolderRun, FolderVault};
use std::alloc::Global;
use std::cell::Cell;
use std::fs::{self, File};
use std::test::Fail;

/// What the block folder and the record of each run share, and how many flushes succeed from here on.
#[derive(Drop)]
struct Shared {
    first: FolderRun,
    second: FolderRun,
    left: Cell<u32>,
}

fn new_shared(alloc: Global) -> Result<Shared, Memory> {
    Ok(Shared {
        first: FolderRun::new(alloc, 1)?,
        second: FolderRun::new(alloc, 2)?,
        left: Cell::new(u32::MAX),
    })
}

/// A run that has begun.
#[derive(Drop)]
struct Begun<'a> {
    vault: FolderVault<'a, CountedFlushes<'a>>,
    keeper: FolderKeeper<'a, CountedFlushes<'a>>,
}

/// The runs of a story that have begun, and whose turn it is.
#[derive(Drop)]
struct Turns<'a> {
    rt: HostRuntime,
    places: &'a Places,
    shared: &'a Shared,
    first: Option<Begun<'a>>,
    second: Option<Begun<'a>>,
    is_second: bool,
}

/// The record at this place, which the run reads, or doesn't look at.
fn make_keeper<'a>(
    rt: HostRuntime,
    record: &str,
    run: &'a FolderRun,
    left: &'a Cell<u32>,
    reads: bool,
) -> Result<FolderKeeper<'a, CountedFlushes<'a>>, Memory> {
    let host = CountedFlushes { host: rt, left };
    if reads {
        FolderKeeper::new(rt.alloc(), host, record, run, CallLog::new())
    } else {
        FolderKeeper::unread(rt.alloc(), host, record, run, CallLog::new())
    }
}

/// A run over the story's blocks and the record at this place.
fn make_begun<'a>(
    turns: &Turns<'a>,
    record: &str,
    run: &'a FolderRun,
    reads: bool,
) -> Option<Begun<'a>> {
    let left = &turns.shared.left;
    let keeper = make_keeper(turns.rt, record, run, left, reads).ok()?;
    let host = CountedFlushes {
        host: turns.rt,
        left,
    };
    let blocks = turns.places.first.as_str();
    Some(Begun {
        vault: FolderVault::new(host, blocks, run, CallLog::new()),
        keeper,
    })
}

/// Ends a run that has begun, and has that one begin in its place, or none.
fn set<'a>(place: &mut Option<Begun<'a>>, run: Option<Begun<'a>>) {
    *place = run;
}

/// Whether both runs begin, after those before have ended.
fn begin(turns: &mut Turns<'_>, reads: bool) -> bool {
    let (places, shared) = (turns.places, turns.shared);
    set(&mut turns.first, None);
    set(&mut turns.second, None);
    let first = make_begun(turns, places.second.as_str(), &shared.first, reads);
    set(&mut turns.first, first);
    let second = make_begun(turns, places.third.as_str(), &shared.second, reads);
    set(&mut turns.second, second);
    turns.is_second = false;
    turns.first.is_some() && turns.second.is_some()
}

/// A helper of the story's folder of this name: its answers stand in a file, and its requests go to another one, which is made.
fn make_helper<'a>(
    turns: &Turns<'a>,
    folder: &str,
    answers: &str,
    requests: &str,
) -> Option<FlushHelper<CountedFile<'a>>> {
    let (rt, top) = (turns.rt, turns.places.folder.as_str());
    let host = CountedFlushes {
        host: rt,
        left: &turns.shared.left,
    };
    let found = fs::metadata(&host, place(&rt, top, folder).ok()?).ok()?;
    let answers = fs::open(&host, place(&rt, top, answers).ok()?).ok()?;
    let requests = File::create_new(&host, place(&rt, top, requests).ok()?).ok()?;
    Some(FlushHelper::new(requests, answers, &found))
}

/// Whether the first run gets a helper of the folder that the order names, whose answers stand in a file.
fn lend(turns: &mut Turns<'_>, order: &Order<'_>) -> Option<bool> {
    let (folder, answers) = order.subject.split_once(' ')?;
    let helper = make_helper(turns, folder, answers, order.text)?;
    match &mut turns.first {
        Some(run) => run.keeper.lend(helper),
        None => return Some(false),
    }
    Some(true)
}

/// Whether a call of this run answers as the order says, where it is one.
fn on_run(alloc: Global, run: &mut Option<Begun<'_>>, order: &Order<'_>) -> Option<bool> {
    match run {
        Some(run) => match on_vault(alloc, &mut run.vault, order) {
            Some(came_out) => Some(came_out),
            None => on_keeper(alloc, &mut run.keeper, order),
        },
        None => None,
    }
}

/// Whether an order to the runs comes out, where it is one.
fn on_turns(turns: &mut Turns<'_>, order: &Order<'_>) -> Option<bool> {
    match order.name {
        "begin" => return Some(begin(turns, true)),
        "begin-unread" => return Some(begin(turns, false)),
        "first" => turns.is_second = false,
        "second" => turns.is_second = true,
        "end" => {
            set(&mut turns.first, None);
            turns.is_second = true;
        }
        "allows" => turns.shared.left.set(order.subject.parse().ok()?),
        "none-left" => return Some(turns.shared.left.get() == 0),
        "lends" => return lend(turns, order),
        _ if turns.is_second => return on_run(turns.rt.alloc(), &mut turns.second, order),
        _ => return on_run(turns.rt.alloc(), &mut turns.first, order),
    }
    Some(true)
}

impl Stage for Turns<'_> {
    fn takes(&mut self, order: &Order<'_>) -> Option<bool> {
        match on_files(&self.rt, self.places.folder.as_str(), order) {
            Some(came_out) => Some(came_out),
            None => on_turns(self, order),
        }
    }
}

/// A story of two runs of different numbers over one block folder, `b s s` where its places aren't told. Its orders are those
/// on files, those on the block folder and the record of the run whose turn it is, and these:
///
/// | Order | Does or sees |
/// |---|---|
/// | `begin` | those before end, both begin, and it is the first one's turn |
/// | `begin-unread` | the same, of runs that don't look at a record |
/// | `first`, `second` | it is this one's turn |
/// | `end` | the first ends, and it is the second one's turn |
/// | `allows 2` | from here on so many flushes succeed |
/// | `none-left` | none of them is left |
/// | `lends b answers: requests` | the first run gets a helper of this folder: its answers stand in a file, its requests are put into another one |
pub fn play_runs(rt: &HostRuntime, names: &str, lines: &str) -> Result<(), Fail> {
    let names = if names.is_empty() { "b s s" } else { names };
    let places = make_places(rt, names)?;
    let shared = new_shared(rt.alloc())?;
    let mut turns = Turns {
        rt: *rt,
        places: &places,
        shared: &shared,
        first: None,
        second: None,
        is_second: false,
    };
    let played = play(&mut turns, lines);
    drop(turns);
    let removed = remove_places(rt, &places);
    played?;
    Ok(removed?)
}
