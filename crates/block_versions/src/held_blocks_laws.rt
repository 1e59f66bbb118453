// What holds of what a store keeps as such.
ghost use Rattle.std.specs.Prelude.{◌≡◌, ℕ, List};
ghost use Rattle.std.specs.declared.option.Option.{Option};
ghost use Rattle.outside.specs.Trace.{Call};
ghost use Rattle.outside.specs.Honest.{count_told};
ghost use Rattle.store_api.specs.Content.{SameContent};
ghost use Rattle.block_versions.specs.Reads.{after_read};
ghost use Rattle.block_versions.specs.Held.{Held, wanted};
ghost use Rattle.block_versions.specs.Soundness.{SoundBy};
ghost use Rattle.block_versions.specs.Forgeries.{forged};

/// A read of the configuration's file leaves a sound store sound, with its content, and is no forgery.
pub fn config_is_no_block()
    ensures sound { (h : Held) (trace : Option (List Call)) (max : ℕ) (answer : Option (List ℕ)) → SoundBy h trace → SoundBy h (after_read trace max answer) }
    ensures content { (h : Held) (trace : Option (List Call)) (max : ℕ) (answer : Option (List ℕ)) → SameContent (wanted h trace) (wanted h (after_read trace max answer)) }
    ensures forgeries { (opens : List ℕ → List ℕ → Option (List ℕ)) (size : ℕ) (trace : Option (List Call)) (max : ℕ) (answer : Option (List ℕ))
        → count_told (forged opens size) (after_read trace max answer) ≡ count_told (forged opens size) trace }
{}
