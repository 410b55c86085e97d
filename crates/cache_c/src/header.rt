//! What the header for C repeats.

ghost use Rattle.cache_c.specs.Header.{RequestNumbers, AnswerNumbers, OtherNumbers};
ghost use Rattle.cache_c.specs.Header.{StructSizes, FieldOrders};

/// The header's numbers, the sizes of its structs and the order of their fields are those of this
/// crate: it can't be compiled with the header, and C reads these by position.
pub fn header_is_right()
    ensures requests { RequestNumbers }
    ensures answers { AnswerNumbers }
    ensures others { OtherNumbers }
    ensures sizes { StructSizes }
    ensures orders { FieldOrders }
{}
