// What holds of the structures as such.
ghost use Rattle.fuse_messages.specs.Laws.{StructuresHaveOneReading};

/// What the kernel wrote of a structure is read as it wrote it, whatever follows; and what is read stands there so.
pub fn structures_have_one_reading()
    ensures { StructuresHaveOneReading }
{}
