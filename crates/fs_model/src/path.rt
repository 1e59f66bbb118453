// A path of the tree.
ghost use Rattle.std.specs.Prelude.{◌≡◌, [], ◌∷◌, ◌++◌, All, OnOk, OnErr};
ghost use Rattle.fs_model.specs.Names.{IsName};

use crate::Name;
use block_id::Memory;
use std::alloc::Global;
use std::marker::Model;

/// The names from the root on. The root has none.
#[derive(Drop)]
pub struct Path {
    names: Vec<Name>,
}

impl Model for Path {
    ghost use Rattle.std.specs.Prelude.{List, ℕ};

    ghost Value = { List (List ℕ) };

    ghost use Rattle.std.specs.Prelude.{All};
    ghost use Rattle.fs_model.specs.Names.{IsName};

    ghost view = { λ p. p.names.items };

    ghost invariant = { λ p. All IsName p.names.items };
}

impl Path {
    /// The path of no names.
    pub fn root(alloc: Global) -> Path
        ensures { result ≡ [] }
    {
        Path {
            names: Vec::new(alloc),
        }
    }

    /// The names from the root on.
    pub fn names(&self) -> &[Name]
        ensures { result.now ≡ self.now }
    {
        self.names.as_slice()
    }

    /// Each element is a name.
    pub fn holds_names(&self)
        ensures { All IsName self.now }
    {
        let _names = &self.names;
    }

    /// Puts the name last. After `Memory` the path is as before, and the name is gone.
    pub fn push(&mut self, name: Name) -> Result<(), Memory>
        ensures ok { OnOk result (self.new ≡ self.old ++ name ∷ []) }
        ensures err { OnErr result (self.new ≡ self.old) }
    {
        let _bytes = name.as_slice();
        self.names.push(name)?;
        Ok(())
    }
}
