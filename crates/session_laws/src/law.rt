// What one run leaves is what the next one needs.
ghost use Rattle.mount.specs.mount_core.Showing.{ShowsFiles};
ghost use Rattle.session_laws.specs.Histories.{RunsCompose, RunsComposeFromCreate, RefusedIsUnforged, HonestRunOpensOnly, HonestRunIsUnforged, HonestRunsCompose, HonestRunIsCalm, HonestRunsAreCalm};

/// Whatever the block directory returns, loses or refuses in any list of runs: each answers as a session of the plain tree from
/// the tree that the one before it left, which is that of a kept point of its own session; a check leaves that tree, and so do
/// blocks that are written anew. Or, once there was a violation or a bad check, it is refused. One that only looks leaves both that
/// tree and a mark. The premise is that nothing that opens was forged. Where opening stopped at what it found for the configuration, as at another file system's, none was.
pub fn runs_compose()
    ensures all { RunsCompose ShowsFiles }
    ensures from_create { RunsComposeFromCreate ShowsFiles }
    ensures refused { RefusedIsUnforged }
{}

/// That premise is met over a directory that gives what was last written: nothing that opens was forged in a run from a kept tree
/// on, nor in any list of them, where each password opens the configuration that is kept or finds it locked. Nor does
/// any other configuration open in such a run, nor is there a violation in one, nor a check that is bad.
pub fn honest_runs_are_unforged()
    ensures only { HonestRunOpensOnly }
    ensures one { HonestRunIsUnforged ShowsFiles }
    ensures all { HonestRunsCompose ShowsFiles }
    ensures calm { HonestRunIsCalm ShowsFiles }
    ensures all_calm { HonestRunsAreCalm ShowsFiles }
{}
