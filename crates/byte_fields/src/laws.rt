// What holds of fields as such.
ghost use Rattle.std.specs.Prelude.{◌^◌, ℕ};
ghost use Rattle.std.specs.Int.{w16, w32, w64};
ghost use Rattle.byte_fields.specs.Fields.{AreNumbers, AreFronts};

/// A number below the limit of its width is read as it was written, whatever follows it; what is read was written so;
/// and no two numbers are written alike.
pub fn fields_of_numbers()
    ensures two { AreNumbers w16 (2 ^ 16) }
    ensures four { AreNumbers w32 (2 ^ 32) }
    ensures eight { AreNumbers w64 (2 ^ 64) }
{}

/// So many bytes are read as they stand, whatever follows them, and what is read stands so; an id is sixteen.
pub fn fields_of_bytes()
    ensures { (n : ℕ) → AreFronts n }
{}
