//! What holds of every listing.

ghost use Rattle.std.specs.Prelude.{◌≡◌, ◌<◌, ◌≤◌, ◌-◌, ◌^◌, ◌++◌, ◌∷◌, [], true, ℕ, List, None, Ok, Some, drop, length};
ghost use Rattle.std.specs.List.{AllPairs, Contains};
ghost use Rattle.mx_word.specs.Ranges.{AreBytes};
ghost use Rattle.mx_asm.specs.Image.{symbols_of};
ghost use Rattle.mx_asm.specs.Laws.{statements_of};
ghost use Rattle.mx_asm.specs.Pages.{run_refusal};
ghost use Rattle.mx_asm.specs.Refusal.{refusal};
ghost use Rattle.mx_asm.specs.Whole.{Line, lines_items, lines_refusal};
ghost use Rattle.mx_asm.specs.declared.refused.Refused.{Refused};
ghost use Rattle.mx_files.specs.declared.refusal.Refusal.{Refusal};
ghost use Rattle.mx_view.specs.Cells.{cells_of};
ghost use Rattle.mx_view.specs.Laws.{AreApart, ListsEachLine, ListsImage, ShowsImage};
ghost use Rattle.mx_view.specs.ListingParts.{each_line_once, lines_at_address};
ghost use Rattle.mx_view.specs.Listing.{added_items, cells_after, listed_after, lines_listed, refusal_in, symbols_listed};
ghost use Rattle.mx_view.specs.Refusals.{IsEarlier, faults_in, refusals_of};
ghost use Rattle.mx_view.specs.Rows.{Meaning, is_loaded_at, listed_line};
ghost use Rattle.mx_view.specs.declared.cells.Cell.{Cell};
ghost use Rattle.mx_view.specs.declared.cells.Wanted.TheVariants.{All, Holding};

/// The items that lines add, one line after another, are the items of all lines: those that the object of a source
/// has before its end, and that mean its image. The tetras that the lines load, one line after another, are all tetras
/// that these items load, in order and each at its address.
#[tactic(auto, using(crate::proofs::EveryCell::cells))]
pub fn every_loaded_tetra_is_listed()
    ensures items { (before : List Line) (line : Line) →
        lines_items (before ++ line ∷ []) ≡ lines_items before ++ added_items before line }
    ensures tetras { (lines : List Line) → cells_after All [] lines ≡ cells_of All 0 (lines_items lines) }
{}

/// A line that is listed shows the tetra of each address that it loads, and no address twice.
pub fn a_line_shows_each_tetra_once()
    ensures once { (m : Meaning) (number : ℕ) (line : Line) (cells : List Cell) →
        AreApart (listed_line m number line cells).cells }
    ensures all { (m : Meaning) (n : ℕ) (l : Line) (cells : List Cell) (a : ℕ) →
        is_loaded_at (listed_line m n l cells).cells a ≡ is_loaded_at cells a }
{}

/// Of an address those lines are shown that the listing has with a tetra that holds it, each with this tetra alone.
#[tactic(auto, using(crate::proofs::WhereLaws::addresses))]
pub fn the_listed_tetra_that_holds_an_address_is_shown()
    ensures { (source : List ℕ) (a : ℕ) →
        lines_listed (Holding a) source ≡ lines_at_address a (lines_listed All source) }
{}

/// Of a source that is not refused when it is run, each tetra that is shown is the one that the image of the two
/// passes has at its address, and all its symbols are listed in the byte order of their names.
#[tactic(auto, using(crate::proofs::TwoPassViews::views))]
pub fn the_image_and_the_symbols_are_shown()
    ensures tetra { (source : List ℕ) (c : Cell) → run_refusal source ≡ None → c.address < 2 ^ 63 →
        ShowsImage source c }
    ensures symbols { (text : List ℕ) → AreBytes text → run_refusal text ≡ None →
        symbols_listed text ≡ symbols_of (statements_of text) }
{}

/// The tetras of a listing, joined, are the image: of a source that is not refused when it is run, the image of the
/// two passes has at each address the tetra that the listing shows there, and 0 where the listing shows none.
#[tactic(auto, using(crate::proofs::JoinedTetras::joining))]
pub fn the_listing_is_the_image()
    ensures { (source : List ℕ) (a : ℕ) → AreBytes source → run_refusal source ≡ None → a < 2 ^ 63 →
        ListsImage source a }
{}

/// Each line of a source that is not refused is listed once, in order, with its number, its text and its tetras. Of a
/// source that is refused at a line, so are all lines up to this one, and no later line.
#[tactic(auto, using(crate::proofs::LinesOnce::each_once))]
pub fn each_line_is_listed_once_in_order()
    ensures accepted { (source : List ℕ) (m : Meaning) → refusal source ≡ None →
        ListsEachLine m source }
    ensures refused { (m : Meaning) (before later : List Line) (line : Line) (r : Refused) →
        lines_refusal before ≡ None → lines_refusal (before ++ line ∷ []) ≡ Some r →
        listed_after m All [] (before ++ line ∷ later) ≡ each_line_once m [] (before ++ line ∷ []) }
{}

/// Faults are told in the order of their lines, and no line is told twice: of any two faults of a source that each have a line, the
/// first is at an earlier one.
#[tactic(auto, using(crate::proofs::LinesInOrder::orders))]
pub fn no_line_is_told_twice()
    ensures { (source : List ℕ) → AllPairs IsEarlier (faults_in source).faults }
{}

/// What a run of a source is refused for is among its faults.
#[tactic(auto, using(crate::proofs::FirstFaults::tellings))]
pub fn the_refusal_of_a_run_is_told()
    ensures { (source : List ℕ) (r : Refusal) → Some r ≡ refusal_in source →
        Contains (refusals_of (faults_in source).faults) r }
{}
