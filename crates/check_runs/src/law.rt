// What loads gave came by gets, one for each.
ghost use Rattle.std.specs.Prelude.{◌≡◌, [], List};
ghost use Rattle.std.specs.declared.option.Option.{Option};
ghost use Rattle.check_walk.specs.Given.{Given, GaveBy};
ghost use Rattle.block_versions.specs.Held.{Held};
ghost use Rattle.block_versions.specs.Loads.{loads_by};
ghost use Rattle.outside.specs.Trace.{Call};
ghost use Rattle.check_runs.specs.Reads.{GivesReads};

/// Over a store with nothing to be written, loads that gave payloads leave what is held, and made one get for each, in order, and no other call.
pub fn gave_reads<T>()
    ensures { (held : T → Held) (trace : T → Option (List Call)) (a b : T) (given : Given) → (held a).list ≡ [] → GaveBy (loads_by held trace) a given b
        → (held b ≡ held a) × GivesReads (held a) (trace a) given (trace b) }
{}
