// What holds of fields, whatever follows them.
ghost use Rattle.aeg_wire.specs.Fields.{IsReadAgain, AreDistinct};

/// What was written is read again, whatever follows it.
pub fn read_again()
    ensures { IsReadAgain }
{}

/// No spelling of a field begins another of the same kind.
pub fn no_field_begins_another()
    ensures { AreDistinct }
{}
