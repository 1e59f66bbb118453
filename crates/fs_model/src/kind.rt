// The byte of a kind, in a blob's header and in an entry of a directory.
ghost use Rattle.std.specs.Prelude.{◌≡◌, Some};
ghost use Rattle.fs_model.specs.Kinds.{byte_of, kind_at};
ghost use Rattle.fs_model.specs.declared.attr.Kind.{Kind as KindText};

use crate::Kind;

/// 0 for a directory, 1 for a file, 2 for a link.
pub fn kind_byte(kind: Kind) -> u8
    ensures { result ≡ byte_of kind }
{
    match kind {
        Kind::Directory => 0,
        Kind::File => 1,
        Kind::Link => 2,
    }
}

/// The kind of this byte; None above 2.
pub fn kind_from(byte: u8) -> Option<Kind>
    ensures value { result ≡ kind_at byte }
    ensures only { (kind : KindText) → byte ≡ byte_of kind → result ≡ Some kind }
{
    match byte {
        0 => Some(Kind::Directory),
        1 => Some(Kind::File),
        2 => Some(Kind::Link),
        _ => None,
    }
}
