//! What follows from the definition of images.

ghost use Rattle.value_image.specs.Laws.{ImagesAreRuns, RunsAreWritten, RunsStand, BytesArePacked};
ghost use Rattle.std.specs.Prelude.{◌≡◌, ℕ, ◌+◌, ◌<◌, ◌≤◌, List, ◌++◌, length, take, drop};
ghost use Rattle.std.specs.Prelude.{slice_index};
ghost use Rattle.php_graph.specs.declared.kind.Kind.{Kind};
ghost use Rattle.php_graph.specs.Graph.{IsGraph};
ghost use Rattle.seg_words.specs.Layout.{words_in};
ghost use Rattle.php_graph.specs.Size.{image_length};
ghost use Rattle.php_graph.specs.ByteStrings.{AreBytes};
ghost use Rattle.seg_words.specs.Blocks.{MayStore};
ghost use Rattle.value_image.specs.PackedBytes.{bytes_of, words_of};
ghost use Rattle.value_image.specs.Rows.{written, MayWrite, StandsAt};
ghost use Rattle.value_image.specs.Image.{IsImageOf, image_of};

/// An image is one run of words, those of its places one after the other.
pub fn images_are_runs()
    ensures { ImagesAreRuns }
{}

/// The same words are the image of at most one graph.
pub fn images_differ()
    ensures { (row : List ℕ) (at len : ℕ) (g h : List Kind) → IsImageOf row at len g
        → IsImageOf row at len h → g ≡ h }
{}

/// A run that is written changes only its own words, and what may be stored is unchanged.
pub fn runs_are_written()
    ensures { RunsAreWritten }
{}

/// A run is in a row word by word, and its parts are there one after the other.
pub fn runs_stand()
    ensures { RunsStand }
{}

/// Byte strings of one length have the same words only if they are the same, and can be read back
/// from them.
pub fn bytes_are_packed()
    ensures { BytesArePacked }
{}
