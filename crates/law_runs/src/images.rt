//! What a source means that is loaded line by line.

ghost use Rattle.std.specs.Prelude.{◌≡◌, ℕ, List};
ghost use Rattle.mx_word.specs.Ranges.{AreBytes};
ghost use Rattle.mx_files.specs.Loading.{source_image};
ghost use Rattle.mx_files.specs.Sources.{source_meaning};

/// A source that is loaded line by line comes to what it means in two passes: the image of all its
/// statements, in which every label is known before a byte is placed, or the refusal of the source.
pub fn sources_are_loaded_as_they_mean()
    ensures { (source : List ℕ) → AreBytes source → source_image source ≡ source_meaning source }
{}
