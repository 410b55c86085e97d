//! Laws of byte strings.

ghost use Rattle.std.specs.Thread.{IsSend, IsSync};
ghost use Rattle.byte_box.specs.contracts.string.ByteBox as byte_box_type;

/// A byte string may be sent to another thread, and read on several.
pub fn strings_cross()
    ensures send { IsSend byte_box_type.the_row }
    ensures sync { IsSync byte_box_type.the_row }
{}
