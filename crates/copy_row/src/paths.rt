// Paths made of other paths.
ghost use Rattle.std.specs.Prelude.{◌≡◌, ◌≤◌, ◌↔◌, ◌∷◌, ◌++◌, [], IfOk, IsTrue};
ghost use Rattle.copy_laws.specs.Ends.{text_size};

use block_id::Memory;
use fs_model::{MAX_PATH_TEXT, Name, Path};
use std::alloc::Global;

/// The same path.
pub fn copy_path(alloc: Global, path: &Path) -> Result<Path, Memory>
    ensures { IfOk result (λ copy. copy ≡ path.now) }
{
    let mut copy = Path::root(alloc);
    for name in path.names() {
        copy.push(name.try_clone()?)?;
    }
    Ok(copy)
}

/// The path of this name in a directory.
pub fn child_of(alloc: Global, path: &Path, name: &Name) -> Result<Path, Memory>
    ensures { IfOk result (λ child. child ≡ path.now ++ name.now ∷ []) }
{
    let mut child = copy_path(alloc, path)?;
    child.push(name.try_clone()?)?;
    Ok(child)
}

/// Whether the text of the path, which isn't the root, is within its limit.
pub fn is_short(path: &Path) -> bool
    ensures { IsTrue result ↔ (text_size path.now ≤ MAX_PATH_TEXT) }
{
    let mut left = MAX_PATH_TEXT;
    for name in path.names() {
        let len = name.as_slice().len();
        if left <= len {
            return false;
        }
        left -= len + 1;
    }
    true
}
