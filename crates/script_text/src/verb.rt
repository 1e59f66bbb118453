// The names of commands.
ghost use Rattle.std.specs.Prelude.{◌≡◌};
ghost use Rattle.script_text.specs.Grammar.{name_of, verb_of};

/// A command without what it names.
#[derive(Clone, Copy)]
pub enum Verb {
    List,
    Stat,
    Mkdir,
    Rmdir,
    Mkfile,
    Rm,
    Mv,
    Symlink,
    Readlink,
    Write,
    Read,
    Truncate,
    Chmod,
    Chown,
    Utime,
    Sync,
}

/// All of them.
pub const VERBS: [Verb; 16] = [
    Verb::List,
    Verb::Stat,
    Verb::Mkdir,
    Verb::Rmdir,
    Verb::Mkfile,
    Verb::Rm,
    Verb::Mv,
    Verb::Symlink,
    Verb::Readlink,
    Verb::Write,
    Verb::Read,
    Verb::Truncate,
    Verb::Chmod,
    Verb::Chown,
    Verb::Utime,
    Verb::Sync,
];

/// The name that a command's line begins with.
fn name_of(verb: Verb) -> &'static [u8]
    ensures { result.now ≡ name_of verb }
{
    match verb {
        Verb::List => b"ls",
        Verb::Stat => b"stat",
        Verb::Mkdir => b"mkdir",
        Verb::Rmdir => b"rmdir",
        Verb::Mkfile => b"mkfile",
        Verb::Rm => b"rm",
        Verb::Mv => b"mv",
        Verb::Symlink => b"symlink",
        Verb::Readlink => b"readlink",
        Verb::Write => b"write",
        Verb::Read => b"read",
        Verb::Truncate => b"truncate",
        Verb::Chmod => b"chmod",
        Verb::Chown => b"chown",
        Verb::Utime => b"utime",
        Verb::Sync => b"sync",
    }
}

/// The command of a name.
#[tactic(auto, unfolding(crate::specs::Grammar::verb_of))]
pub fn verb_of(name: &[u8]) -> Option<Verb>
    ensures { result ≡ verb_of name.now }
{
    VERBS.iter().copied().find(|verb| name_of(*verb) == name)
}
