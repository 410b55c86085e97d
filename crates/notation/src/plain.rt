//! Values that are a string or an integer: they have one place, and are read at once.

ghost use Rattle.std.specs.Prelude.{◌≡◌, ◌<◌, ◌^◌, false, [], ◌∷◌, length, Ok, Err};
ghost use Rattle.std.specs.Prelude.{IfOk, IfErr, IfSome, IfNone};
ghost use Rattle.php_graph.specs.declared.kind.Kind.TheVariants.{Str, Int};
ghost use Rattle.php_graph.specs.Graph.{IsGraph};
ghost use Rattle.notation.specs.Reading.{reading_of};
ghost use Rattle.notation.specs.Plain.{begins_string, begins_integer};

use crate::fault::Fault;
use crate::tokens::{integer, string};
use php_graph::{Bytes, Graph, Kind};
use seg_words::words_in;
use std::alloc::{AllocError, Global};

/// The bytes of the string whose text is in front, and what follows its text; nothing if no string
/// begins there. Otherwise the first fault from the left. It allocates no memory.
pub fn read_string(bytes: &[u8]) -> Result<Option<(&[u8], &[u8])>, Fault>
    ensures found { IfOk result (λ read. IfSome read (λ x.
        reading_of bytes.now ≡ Ok (Str x.0.now ∷ [], x.1.now))) }
    ensures short { IfOk result (λ read. IfSome read (λ x. length x.0.now < 2 ^ 32)) }
    ensures less { IfOk result (λ read. IfSome read (λ x. length x.1.now < length bytes.now)) }
    ensures other { IfOk result (λ read. IfNone read (begins_string bytes.now ≡ false)) }
    ensures fault { IfErr result (λ fault. reading_of bytes.now ≡ Err fault) }
{
    match bytes {
        [b's', behind @ ..] => Ok(Some(string(behind)?)),
        _ => Ok(None),
    }
}

/// The integer whose text is in front, and what follows its text; nothing if no integer begins
/// there. Otherwise the first fault from the left. It allocates no memory.
pub fn read_integer(bytes: &[u8]) -> Result<Option<(i64, &[u8])>, Fault>
    ensures found { IfOk result (λ read. IfSome read (λ x.
        reading_of bytes.now ≡ Ok (Int x.0 ∷ [], x.1.now))) }
    ensures less { IfOk result (λ read. IfSome read (λ x. length x.1.now < length bytes.now)) }
    ensures other { IfOk result (λ read. IfNone read (begins_integer bytes.now ≡ false)) }
    ensures fault { IfErr result (λ fault. reading_of bytes.now ≡ Err fault) }
{
    match bytes {
        [b'i', behind @ ..] => Ok(Some(integer(behind)?)),
        _ => Ok(None),
    }
}

// The value that is this string.
pub(crate) fn string_graph(alloc: Global, text: &[u8]) -> Result<Graph, AllocError>
    requires { length text.now < 2 ^ 32 }
    ensures is { IfOk result (λ graph. graph ≡ Str text.now ∷ []) }
    ensures graph { IfOk result (λ graph. IsGraph graph) }
{
    let bytes = Bytes::of(alloc, text)?;
    let words = 1 + u64::from(words_in(bytes.as_slice().len() as u32));
    Ok(Graph::from_places(Kind::Str(bytes), Vec::new(alloc), words))
}

// The value that is this integer.
pub(crate) fn integer_graph(alloc: Global, number: i64) -> Graph
    ensures is { result ≡ Int number ∷ [] }
    ensures graph { IsGraph result }
{
    Graph::from_places(Kind::Int(number), Vec::new(alloc), 2)
}
