// What the system gives the program.
ghost use Rattle.std.specs.Prelude.{◌≡◌, IfOk};
ghost use Rattle.real_outside.specs.FolderLog.{calls_of};
ghost use Rattle.real_host_folder.specs.Adapters.{host_faults};

use crate::host_word::take_folder;
use crate::options::{Options, no_options, take_options};
use crate::record_use::uses_record;
use crate::streams::hold_closed;
use call_log::CallLog;
use fs_model::Moment;
use outside::Memory;
use rand_chacha::ChaCha20Rng;
use rand_core::Rng;
use real_host_folder::RealHost;
use real_outside::{FlushHelper, FolderKeeper, FolderRun, FolderVault};
use run_status::Status;
use std::alloc::Global;
use std::env;
use std::fs::File;
use std::io::ErrorKind;
use std::time::{SystemTime, UNIX_EPOCH};

/// What the program is run with: the folders that its first two words name, the words after them, and this moment. The words of a copy have one
/// more folder, and perhaps options behind them, as those of a check have. These aren't among the words that are run.
#[derive(Drop)]
pub struct Inputs {
    blocks: String,
    state: String,
    /// The folder that a copy reads or fills. Without a copy there is none of this name.
    folder: String,
    options: Options,
    folders: FolderRun,
    /// What keeps files of the run from being taken for standard streams.
    closed: [Option<File>; 3],
    pub words: Vec<String>,
    pub now: Moment,
}

impl Inputs {
    /// What the system gives, and a generator of random bytes that the system's seed. The clock and those bytes are inputs:
    /// where either is refused, that is an input that failed. Words that are no text are of no known form.
    pub fn read(rt: &HostRuntime) -> Result<(Inputs, ChaCha20Rng), Status> {
        let closed = hold_closed(rt);
        let mut all = match env::args(rt) {
            Ok(all) => all,
            Err(error) if error.kind() == ErrorKind::OutOfMemory => return Err(Status::Memory),
            Err(_) => return Err(Status::Usage),
        };
        let (Some(_program), Some(blocks), Some(state)) = (all.next(), all.next(), all.next())
        else {
            return Err(Status::Usage);
        };
        if blocks.is_empty() || state.is_empty() {
            return Err(Status::Usage);
        }
        let mut words = Vec::new(rt.alloc());
        for word in all {
            if words.push(word).is_err() {
                return Err(Status::Memory);
            }
        }
        let folder = match take_folder(&mut words) {
            Some(folder) if folder.is_empty() => return Err(Status::Usage),
            Some(folder) => folder,
            None => String::new(rt.alloc()),
        };
        let options = take_options(&mut words);
        let now = read_clock(rt).ok_or(Status::InputFault)?;
        let Ok(mut chance) = rand::make_rng::<ChaCha20Rng, HostRuntime>(rt) else {
            return Err(Status::InputFault);
        };
        let number = chance.next_u64();
        match Inputs::new(rt.alloc(), blocks, state, words, now, number) {
            Ok(inputs) => Ok((inputs.holding(folder, options, closed), chance)),
            Err(Memory) => Err(Status::Memory),
        }
    }

    /// These folders, words and moment, of a run that no other run shares this number with, and that copies nothing.
    pub fn new(
        alloc: Global,
        blocks: String,
        state: String,
        words: Vec<String>,
        now: Moment,
        number: u64,
    ) -> Result<Inputs, Memory>
        ensures words { IfOk result (λ inputs. inputs.words ≡ words) }
        ensures now { IfOk result (λ inputs. inputs.now ≡ now) }
    {
        Ok(Inputs {
            blocks,
            state,
            folder: String::new(alloc),
            options: no_options(),
            folders: FolderRun::new(alloc, number)?,
            closed: [None, None, None],
            words,
            now,
        })
    }

    fn holding(self, folder: String, options: Options, closed: [Option<File>; 3]) -> Inputs {
        Inputs {
            folder,
            options,
            closed,
            ..self
        }
    }

    /// The folder of a copy. Without a copy each call on it fails.
    pub fn host(&self, rt: &HostRuntime) -> RealHost<'_>
        ensures { host_faults result ≡ 0 }
    {
        let mut host = RealHost::new(rt, &self.folder, &self.blocks, &self.state);
        if self.options.is_quiet {
            host.be_quiet();
        }
        if self.options.leaves_out {
            host.leave_out();
        }
        host
    }

    /// The block folder, after the calls of this log. For a check that isn't quiet, and for `migrate`, it tells how many blocks were read, where
    /// standard error is a terminal.
    pub fn vault(&self, rt: &HostRuntime, log: CallLog) -> FolderVault<'_, HostRuntime>
        ensures calls { result.calls ≡ calls_of log.events }
        ensures none { result.faults ≡ 0 }
    {
        let mut vault = FolderVault::new(*rt, &self.blocks, &self.folders, log);
        if reads_each_block(&self.words) && !self.options.is_quiet {
            vault.watch(*rt);
        }
        vault
    }

    /// The record in the state folder, whose file is read only where the words need it. These choices say which saves that will
    /// fail are kept. It gets the helper that flushes, where one was lent.
    pub fn make_keeper(
        &self,
        rt: &HostRuntime,
        choices: CallLog,
    ) -> Result<FolderKeeper<'_, HostRuntime>, Memory>
        ensures faults { IfOk result (λ keeper. keeper.faults ≡ 0) }
        ensures choices { IfOk result (λ keeper. keeper.choices ≡ choices.events) }
    {
        let helper = FlushHelper::lent(rt);
        let mut keeper = if uses_record(rt.alloc(), &self.words)? {
            FolderKeeper::new(rt.alloc(), *rt, &self.state, &self.folders, choices)?
        } else {
            FolderKeeper::unread(rt.alloc(), *rt, &self.state, &self.folders, choices)?
        };
        if let Some(helper) = helper {
            keeper.lend(helper);
        }
        Ok(keeper)
    }
}

/// Whether the words ask for a check, with `--all` or without, or for `migrate`.
fn reads_each_block(words: &[String]) -> bool {
    match words {
        [word] => word.as_str() == "check" || word.as_str() == "migrate",
        [word, option] => word.as_str() == "check" && option.as_str() == "--all",
        _ => false,
    }
}

/// This moment, where the clock tells it.
fn read_clock(rt: &HostRuntime) -> Option<Moment> {
    let now = SystemTime::now(rt).ok()?;
    let passed = now.duration_since(UNIX_EPOCH).ok()?;
    Moment::new(passed.as_secs(), passed.subsec_nanos())
}
