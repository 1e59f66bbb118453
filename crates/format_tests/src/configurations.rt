// Sealing and opening the files that another program made.
ghost use Rattle.config_file.specs.Settings.{IsBlockSize};

use crate::configuration_files::{SEALED, file_named};
use crate::rows::tell;
use crate::words::{bytes_of, number, say, words_of};
use block_id::BlockId;
use config_file::{Cipher, Config, ConfigError, Opened, SealDraws, open_config, seal_config};
use scrypt_kdf::Params;
use std::alloc::Global;
use std::test::Fail;

pub(crate) const PASSWORD: &[u8] = b"correct horse";

fn counted<const N: usize>(first: u8) -> [u8; N] {
    let mut bytes = [first; N];
    for i in 0..N {
        bytes[i] = first.wrapping_add((i % 251) as u8);
    }
    bytes
}

/// The configuration that the files hold.
fn config() -> Config
    ensures { IsBlockSize result.block_size }
{
    Config {
        root: BlockId(counted::<16>(0xf0)),
        key: counted::<32>(0x80),
        cipher: Cipher::Aes256Gcm,
        block_size: 16384,
        fs_id: BlockId(counted::<16>(0x10)),
    }
}

/// Its file, with counted bytes for what is drawn.
fn sealed(alloc: Global) -> Result<Vec<u8>, Fail> {
    let draws = SealDraws {
        scrypt_salt: counted::<32>(0),
        fill: counted::<960>(0),
        inner_iv: counted::<16>(0x40),
        outer_iv: counted::<16>(0x60),
    };
    let params = Params::new(16, 1, 1)?;
    Ok(seal_config(alloc, PASSWORD, &params, &draws, &config())?)
}

/// Seals the configuration.
pub(crate) fn seal(alloc: Global) -> Result<String, Fail> {
    let file = sealed(alloc)?;
    let wanted = bytes_of(alloc, SEALED)?;
    say(
        alloc,
        if file.as_slice() == wanted.as_slice() {
            "sealed"
        } else {
            "another file"
        },
    )
}

fn open(alloc: Global, password: &[u8], file: &[u8]) -> Result<Opened, ConfigError> {
    open_config(alloc, password, file)
}

/// Whether a file holds the configuration, and under which N, r and p, or why it isn't opened.
pub(crate) fn opened(alloc: Global, password: &[u8], file: &[u8]) -> Result<String, Fail> {
    match open(alloc, password, file) {
        Ok(opened) => {
            if opened.config != config() {
                return say(alloc, "another configuration");
            }
            let params = &opened.params;
            let (n, r, p) = (params.n(), params.r(), params.p());
            Ok(format!(in alloc; "the configuration under {n} {r} {p}")?)
        }
        Err(ConfigError::Form) => say(alloc, "form"),
        Err(ConfigError::Locked) => say(alloc, "locked"),
        Err(ConfigError::Inner) => say(alloc, "inner"),
        Err(_) => say(alloc, "memory"),
    }
}

/// Opens a file in which a byte is changed: its name, the place, and what is xored to the byte.
pub(crate) fn opened_file(alloc: Global, rest: &str) -> Result<String, Fail> {
    let [name, place, change, ..] = words_of(rest);
    let change: u8 = change.parse().unwrap_or(0);
    let mut file = bytes_of(alloc, file_named(name))?;
    if let Some(byte) = file.get_mut(number(place)) {
        *byte ^= change;
    }
    opened(alloc, PASSWORD, &file)
}

/// Opens the file under this password.
pub(crate) fn opened_under(alloc: Global, password: &str) -> Result<String, Fail> {
    let file = bytes_of(alloc, SEALED)?;
    opened(alloc, password.as_bytes(), &file)
}

/// Opens so many bytes from the front of the file, and these behind them.
pub(crate) fn opened_front(alloc: Global, rest: &str) -> Result<String, Fail> {
    let [len, more, ..] = words_of(rest);
    let mut file = bytes_of(alloc, SEALED)?;
    file.truncate(number(len));
    let more = bytes_of(alloc, more)?;
    file.extend_from_slice(&more)?;
    opened(alloc, PASSWORD, &file)
}

const FILES: &str = "seal-configuration = sealed
open sealed = the configuration under 16 1 1
open by-hand = the configuration under 16 1 1
open sealed 0 1 = form
open sealed 21 1 = form
open sealed 22 1 = form
open sealed 30 8 = form
open sealed 34 16 = form
open sealed 22 48 = locked
open sealed 38 1 = locked
open sealed 70 1 = locked
open sealed 1125 128 = locked
open-under = locked
open-under Correct horse = locked
open-front 1125 - = form
open-front 0 - = form
open-front 1126 00 = form
open other-cipher = inner
open with-exponent = inner
open small-blocks = inner";

#[test]
fn files_open_or_not(rt: HostRuntime) -> Result<(), Fail> {
    tell(&rt, FILES)
}
