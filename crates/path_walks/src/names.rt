// The last name of a path.
ghost use Rattle.std.specs.Prelude.{◌≡◌, [], ◌∷◌, MatchOption};
ghost use Rattle.fs_model.specs.Tree.{upward};

use fs_model::Name;

/// The last name, and the names of its directory. The root has none.
pub fn split_last(names: &[Name]) -> Option<(&Name, &[Name])>
    ensures { MatchOption result (upward names.now ≡ []) (λ parts. upward names.now ≡ parts.0.now ∷ upward parts.1.now) }
{
    if names.is_empty() {
        return None;
    }
    let last = names.len() - 1;
    Some((&names[last], &names[..last]))
}
