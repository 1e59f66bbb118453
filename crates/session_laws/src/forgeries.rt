// What a session answered before a forged file came.
ghost use Rattle.mount.specs.mount_core.Showing.{ShowsFiles};
ghost use Rattle.session_laws.specs.Forgeries.{RepliesStayRight};

use outside::{Keeper, Vault};

/// Whatever the block directory returns in a session of a mount that was opened from a kept tree: its answers are the plain
/// tree's up to the line in which the directory gave the first forged file of a block, or up to the end.
pub fn replies_stay_right<V: Vault, K: Keeper>()
    ensures { RepliesStayRight ShowsFiles V.trace V.faults K.Keeper }
{}
