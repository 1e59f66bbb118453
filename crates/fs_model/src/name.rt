// A name in a directory.
ghost use Rattle.std.specs.Prelude.{◌≡◌, IfOk};
ghost use Rattle.std.specs.Option.{SomeIff};
ghost use Rattle.fs_model.specs.Names.{IsName, is_name, is_dots, is_reserved};
ghost use Rattle.std.specs.List.{list_any};

use crate::command::has_zero;
use crate::limits::MAX_NAME;
use block_id::Memory;
use std::marker::Model;

/// 1 to 255 bytes without `/` and zero, not `.` or `..`.
#[derive(Drop)]
pub struct Name {
    bytes: Vec<u8>,
}

impl Model for Name {
    ghost use Rattle.std.specs.Prelude.{List, ℕ};

    ghost Value = { List ℕ };

    ghost use Rattle.fs_model.specs.Names.{IsName};

    ghost view = { λ n. n.bytes.items };

    ghost invariant = { λ n. IsName n.bytes.items };
}

impl Name {
    /// None exactly where the bytes aren't a name.
    pub fn new(bytes: Vec<u8>) -> Option<Name>
        ensures { SomeIff result (IsName bytes.items) bytes.items }
    {
        if has_name_form(&bytes) {
            Some(Name { bytes })
        } else {
            None
        }
    }

    /// The bytes.
    pub fn as_slice(&self) -> &[u8]
        ensures value { result.now ≡ self.now }
        ensures name { IsName result.now }
    {
        self.bytes.as_slice()
    }

    /// The same name.
    pub fn try_clone(&self) -> Result<Name, Memory>
        ensures { IfOk result (λ copy. copy ≡ self.now) }
    {
        Ok(Name {
            bytes: self.bytes.clone()?,
        })
    }
}

/// Whether the bytes are a name: 1 to 255 without reserved ones, and no dots alone.
pub fn has_name_form(bytes: &[u8]) -> bool
    ensures { result ≡ is_name bytes.now }
{
    if bytes.is_empty() || bytes.len() > MAX_NAME {
        return false;
    }
    !has_reserved(bytes) && !has_dots_alone(bytes)
}

fn has_reserved(bytes: &[u8]) -> bool
    ensures { result ≡ list_any is_reserved bytes.now }
{
    has_zero(bytes) || bytes.contains(&b'/')
}

/// `.` or `..`
pub fn has_dots_alone(bytes: &[u8]) -> bool
    ensures { result ≡ is_dots bytes.now }
{
    match bytes {
        [a] => *a == b'.',
        [a, b] => *a == b'.' && *b == b'.',
        _ => false,
    }
}
