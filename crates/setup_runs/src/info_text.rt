// What is told of a file system.
ghost use Rattle.std.specs.Prelude.{◌≡◌, ◌≤◌, ◌++◌, [], codes, vec_capacity};
ghost use Rattle.std.specs.Fmt.{decimal};
ghost use Rattle.block_id.specs.Name.{name_of};
ghost use Rattle.run_frame.specs.line_io.Streams.{stream_of};
ghost use Rattle.mount_migrating.specs.script_text.Appending.{Appends};
ghost use Rattle.mount_migrating.specs.script_text.Texts.{line, word};
ghost use Rattle.run_frame.specs.config_file.Settings.{settings_of, cipher_name};
ghost use Rattle.setup_runs.specs.InfoText.{ids_text, sealing_text, info_text};
ghost use Rattle.setup_runs.specs.Printing.{Printed};

use crate::print::print;
use block_id::{BlockId, Memory};
use mount_migrating::script_text::{push_bytes, push_decimal};
use outside::Sink;
use run_frame::config_file::{Cipher, Config, Opened};
use run_status::Status;
use scrypt_kdf::Params;

/// Bytes that the five lines have at most.
pub const MAX_TEXT: usize = 256;

/// Prints the five lines, by memory that was taken beforehand.
pub fn print_info<O: Sink>(opened: Opened, text: &mut Vec<u8>, output: &mut O) -> Status
    requires room { 256 ≤ vec_capacity text.old }
    requires empty { text.old.items ≡ [] }
    ensures printed { Printed (stream_of O.written O.faults output.old output.new) (info_text (settings_of opened.config) opened.params) result }
    ensures grows { O.faults output.old ≤ O.faults output.new }
{
    match push_info(text, &opened.config, &opened.params) {
        Ok(()) => print(text, output),
        Err(Memory) => unreachable!(),
    }
}

/// Appends the five lines.
fn push_info(text: &mut Vec<u8>, config: &Config, params: &Params) -> Result<(), Memory>
    ensures { Appends text.old text.new result (info_text (settings_of config.now) params.now) }
{
    push_ids(text, config)?;
    push_sealing(text, config, params)
}

/// Appends the lines of both ids.
fn push_ids(text: &mut Vec<u8>, config: &Config) -> Result<(), Memory>
    ensures { Appends text.old text.new result (ids_text (settings_of config.now)) }
{
    push_id(text, b"filesystem ", &config.fs_id)?;
    push_id(text, b"root ", &config.root)
}

/// Appends the lines of the cipher, the blocks' size and the parameters.
fn push_sealing(text: &mut Vec<u8>, config: &Config, params: &Params) -> Result<(), Memory>
    ensures { Appends text.old text.new result (sealing_text (settings_of config.now) params.now) }
{
    push_cipher(text, config.cipher)?;
    push_block_size(text, config.block_size)?;
    push_params(text, params)
}

/// Appends a line with a label and an id.
fn push_id(text: &mut Vec<u8>, label: &[u8], id: &BlockId) -> Result<(), Memory>
    ensures { Appends text.old text.new result (line (label.now ++ name_of id.now.0)) }
{
    push_bytes(text, label)?;
    push_bytes(text, &id.to_name())?;
    push_bytes(text, b"\n")
}

/// Appends the line of the cipher's name.
fn push_cipher(text: &mut Vec<u8>, cipher: Cipher) -> Result<(), Memory>
    ensures { Appends text.old text.new result (line (codes "cipher " ++ cipher_name cipher)) }
{
    match cipher {
        Cipher::Aes256Gcm => push_bytes(text, b"cipher aes-256-gcm\n"),
    }
}

/// Appends the line of the blocks' size.
fn push_block_size(text: &mut Vec<u8>, block_size: u32) -> Result<(), Memory>
    ensures { Appends text.old text.new result (line (codes "blocksize" ++ word (decimal block_size))) }
{
    push_bytes(text, b"blocksize")?;
    push_decimal(text, u64::from(block_size))?;
    push_bytes(text, b"\n")
}

/// Appends the line of the parameters.
fn push_params(text: &mut Vec<u8>, params: &Params) -> Result<(), Memory>
    ensures { Appends text.old text.new result (line (codes "scrypt" ++ word (decimal params.now.n) ++ word (decimal params.now.r) ++ word (decimal params.now.p))) }
{
    push_bytes(text, b"scrypt")?;
    push_decimal(text, params.n())?;
    push_decimal(text, u64::from(params.r()))?;
    push_decimal(text, u64::from(params.p()))?;
    push_bytes(text, b"\n")
}
