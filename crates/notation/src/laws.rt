//! Laws of texts of values.

ghost use Rattle.std.specs.Prelude.{◌≡◌, ◌++◌, ◌<◌, ◌≤◌, ◌^◌, ℕ, List, length, Ok, MatchResult};
ghost use Rattle.std.specs.List.{AllByRecursion};
ghost use Rattle.php_graph.specs.declared.kind.Kind.{Kind};
ghost use Rattle.php_graph.specs.Graph.{IsGraph};
ghost use Rattle.notation.specs.Notation.{text_of, text_from};
ghost use Rattle.notation.specs.Reading.{reading_of};

use php_graph::{graphs_are_written, integer_texts, written_graphs};

/// Reading gives what is spelled: the text of a value that was read is before what was left, and
/// the text of a value is read, whatever follows it. What is read of bytes is a value.
pub fn readings_are_spellings()
    ensures takes { (bytes : List ℕ) (g : List Kind) (rest : List ℕ) → IsGraph g
        → reading_of bytes ≡ Ok (g, rest) → bytes ≡ text_of g ++ rest }
    ensures again { (g : List Kind) (rest : List ℕ) → IsGraph g → reading_of (text_of g ++ rest)
        ≡ Ok (g, rest) }
    ensures graph { (bytes : List ℕ) (g : List Kind) (rest : List ℕ)
        → AllByRecursion (λ b. b < 256) bytes → reading_of bytes ≡ Ok (g, rest) → IsGraph g }
{
    integer_texts();
    graphs_are_written();
    written_graphs();
}

/// What reading a value leaves, and the bytes from its first fault on, are no more than the bytes.
pub fn readings_stay_inside()
    ensures { (bytes : List ℕ) → MatchResult (reading_of bytes)
        (λ x. length x.1 ≤ length bytes) (λ fault. fault.left ≤ length bytes) }
{}

/// No text of a value is a prefix of another, whatever is added to the numbers of places: two texts
/// that continue to the same bytes are of one value, and the same bytes follow them.
pub fn texts_tell_values_apart()
    ensures { (base : ℕ) (g h : List Kind) (x y : List ℕ) → base < 2 ^ 56 → IsGraph g → IsGraph h
        → text_from base g ++ x ≡ text_from base h ++ y → (g ≡ h) × (x ≡ y) }
{
    integer_texts();
}
