// Paths of rows in the folder and in the tree.
ghost use Rattle.std.specs.Prelude.{◌≡◌, ◌∷◌, ◌++◌, [], IfOk};
ghost use Rattle.copy_times.specs.Giving.{IsDeepOrMemory};

use block_id::Memory;
use copy_row::copy_laws::CopyFail;
use copy_row::{child_of, copy_path};
use fs_model::{Name, Path};
use std::alloc::Global;

/// Directories that lie in one another, the first of them the folder itself. A path has room for 2,048 names, so the last one is empty
/// in any tree.
pub const MOST_DEEP: u16 = 2_049;

/// The paths of this name in the directory at these two.
pub fn child_paths(
    alloc: Global,
    from: &Path,
    to: &Path,
    name: &Name,
) -> Result<(Path, Path), Memory>
    ensures { IfOk result (λ paths. (paths.0 ≡ from.now ++ name.now ∷ []) × (paths.1 ≡ to.now ++ name.now ∷ [])) }
{
    let from = child_of(alloc, from, name)?;
    let to = child_of(alloc, to, name)?;
    Ok((from, to))
}

/// Why a copy ends at a directory whose rows no path has room for.
pub fn too_deep(alloc: Global, path: &Path) -> CopyFail
    ensures { IsDeepOrMemory path.now result }
{
    match copy_path(alloc, path) {
        Ok(path) => CopyFail::LongPath(path),
        Err(Memory) => CopyFail::Memory,
    }
}
