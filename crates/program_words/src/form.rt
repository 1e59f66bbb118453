// What the program can be asked for.

use crate::create_options::CreateOptions;
use fs_model::Path;

/// What the words ask for.
#[derive(Drop)]
pub enum Form {
    /// The lines of the input on a new plain tree.
    Trial,
    /// So many generated commands on a new plain tree.
    TrialGenerate(u64),
    /// A new file system.
    Create(CreateOptions),
    /// What a file system is made of.
    Info,
    /// Another password.
    Passwd,
    /// Each block, written anew in the newest format.
    Migrate,
    /// A session of the lines of the input.
    Shell,
    /// A session of so many generated commands.
    Generate(u64),
    /// A session of the one line that the words are.
    Command,
    /// A folder of the host, copied into the file system below this path.
    Import(Path),
    /// What stands below this path, copied into a folder of the host.
    Export(Path),
    /// The same copies, each row with its mode and its times.
    ImportTimes(Path),
    ExportTimes(Path),
    /// A new file at this path, of the bytes of the input.
    Put(Path),
    /// The bytes of the file at this path, as the output.
    Get(Path),
    /// Whether the whole file system is sound, and which path owns each block.
    Check,
    /// The same, and each block that is refused where it isn't; what is kept is never marked.
    Survey,
    /// The answer to the one line that the words behind `look` are, over the blocks that are found from the root on.
    Look,
}
