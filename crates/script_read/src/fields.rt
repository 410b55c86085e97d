//! The fields of an iterator's items.

ghost use Rattle.std.specs.Prelude.{◌≡◌};
ghost use Rattle.script_read.specs.Arguments.{bit_in, field_bit};
ghost use Rattle.script_read.specs.Gives.{bits_of};

use crate::keyword::is_word;

/// A field of an iterator's items.
#[derive(Clone, Copy)]
pub struct Field {
    /// Its name in scripts and in the output.
    pub name: &'static [u8],
    /// The bit by which it is selected.
    pub bit: u16,
}

/// The fields, by their bits from 0 on.
pub const FIELDS: [Field; 9] = [
    Field {
        name: b"key",
        bit: 1,
    },
    Field {
        name: b"value",
        bit: 2,
    },
    Field {
        name: b"num_hits",
        bit: 4,
    },
    Field {
        name: b"mtime",
        bit: 8,
    },
    Field {
        name: b"creation_time",
        bit: 16,
    },
    Field {
        name: b"deletion_time",
        bit: 32,
    },
    Field {
        name: b"access_time",
        bit: 64,
    },
    Field {
        name: b"mem_size",
        bit: 128,
    },
    Field {
        name: b"ttl",
        bit: 256,
    },
];

// The bit of the first of these fields that has the name.
fn bit_in(fields: &[Field], name: &[u8]) -> Option<u16>
    ensures { result ≡ bit_in (bits_of fields.now) name.now }
{
    for field in fields {
        if is_word(name, field.name) {
            return Some(field.bit);
        }
    }
    None
}

// The bit of the field of this name.
pub(crate) fn field_bit(name: &[u8]) -> Option<u16>
    ensures { result ≡ field_bit name.now }
{
    bit_in(&FIELDS, name)
}
