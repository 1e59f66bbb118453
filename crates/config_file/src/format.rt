// The parts of the file, read.
ghost use Rattle.std.specs.Prelude.{◌≡◌, length, None, IfSome};
ghost use Rattle.std.specs.Option.{option_map};
ghost use Rattle.config_file.specs.Format.{HasForm, begins_with, cipher_field, cost_in, sealed_in, text_in};

use byte_fields::{u32_of, u64_of};
use scrypt_kdf::Params;

/// How many bytes the file has.
pub const FILE_LEN: usize = 1126;

pub(crate) const OUTER_FRONT: [u8; 22] = *b"cryfs.config;1;scrypt\0";

pub(crate) const INNER_FRONT: [u8; 21] = *b"cryfs.config.inner;0\0";

pub(crate) const CIPHER_FIELD: [u8; 12] = *b"aes-256-gcm\0";

/// The most bytes of JSON.
pub(crate) const MAX_JSON_LEN: usize = 896;

/// The parameters in a file of the outer form.
#[tactic(auto, unfolding(crate::specs::Format::cost_in))]
pub(crate) fn params_from(bytes: &[u8]) -> Option<Params>
    ensures form { IfSome result (λ cost. HasForm bytes.now) }
    ensures value { IfSome result (λ cost. cost ≡ cost_in bytes.now) }
    ensures none { result ≡ None → ¬ HasForm bytes.now }
{
    if bytes.len() != FILE_LEN || !bytes.starts_with(&OUTER_FRONT) {
        return None;
    }
    let n = u64_of(&bytes[22..30]);
    let r = u32_of(&bytes[30..34]);
    let p = u32_of(&bytes[34..38]);
    Params::new(n, r, p).ok()
}

/// The innermost part, sealed, in an inner part.
pub(crate) fn sealed_from(inner: &[u8]) -> Option<&[u8]>
    requires { length inner.now ≡ 1024 }
    ensures value { option_map (λ sealed. sealed.now) result ≡ sealed_in inner.now }
    ensures len { IfSome result (λ sealed. length sealed.now ≡ 932) }
{
    if !inner.starts_with(&INNER_FRONT) {
        return None;
    }
    if !names_cipher(&inner[21..]) {
        return None;
    }
    Some(&inner[33..965])
}

/// Whether what stands behind the front begins with the name of the cipher that is known.
fn names_cipher(rest: &[u8]) -> bool
    ensures { result ≡ begins_with rest.now cipher_field }
{
    rest.starts_with(&CIPHER_FIELD)
}

/// The JSON in an innermost part.
#[tactic(auto, unfolding(crate::specs::Format::text_in))]
pub(crate) fn text_from(innermost: &[u8]) -> Option<&[u8]>
    requires { length innermost.now ≡ 900 }
    ensures { option_map (λ text. text.now) result ≡ text_in innermost.now }
{
    let len = u32_of(&innermost[0..4]) as usize;
    if len > MAX_JSON_LEN {
        return None;
    }
    Some(&innermost[4..4 + len])
}
