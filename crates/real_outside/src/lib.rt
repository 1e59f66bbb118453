//! The outside of the program: the block directory and the local record in real folders, and standard input and output, or
//! another reader and writer.
#![tactic(auto)]

mod error;
mod file_names;
mod files;
mod flush_helper;
mod folder_keeper;
mod folder_log;
mod folder_names;
mod folder_run;
mod folder_vault;
mod held_folder;
mod lock;
mod progress;
mod reader_source;
mod record_file;
mod state_folder;
mod stored_file;
mod writer_sink;

pub use flush_helper::FlushHelper;
pub use folder_keeper::FolderKeeper;
pub use folder_run::FolderRun;
pub use folder_vault::FolderVault;
pub use lock::Lock;
pub use reader_source::ReaderSource;
pub use writer_sink::WriterSink;
