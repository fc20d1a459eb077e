//! What the items of a source mean, and what an object is written from.

ghost use Rattle.std.specs.Prelude.{◌≡◌, ◌+◌, ◌++◌, ◌∷◌, [], ℕ, List, Err, None, Ok, Some, is_some, length, not};
ghost use Rattle.std.specs.List.{AllByRecursion};
ghost use Rattle.mx_word.specs.Ranges.{AreBytes};
ghost use Rattle.mx_mmo.specs.Meaning.{PagesFull, meaning};
ghost use Rattle.mx_mmo.specs.declared.items.Item.{Item};
ghost use Rattle.mx_stmt.specs.Encoding.{StatementTree};
ghost use Rattle.mx_asm.specs.Emission.{emission};
ghost use Rattle.mx_asm.specs.Fitting.{AreWritable};
ghost use Rattle.mx_asm.specs.Image.{image};
ghost use Rattle.mx_asm.specs.Laws.{Emits, HasSymbols, IsShort, lines_fault, meaning_of, sights_of_lines};
ghost use Rattle.mx_asm.specs.Laws.{sights_of_source, source_fault, statements_of};
ghost use Rattle.mx_asm.specs.Pages.{AreAccepted, has_room, loaded_image, outlined, page_fault};
ghost use Rattle.mx_asm.specs.Pages.{page_refusal, run_refusal};
ghost use Rattle.mx_asm.specs.Refusal.{refusal};
ghost use Rattle.mx_asm.specs.TwoPass.{Sight};
ghost use Rattle.mx_asm.specs.Whole.{Line};

/// What the statements of a source emit sets up its image: memory, pages, lines and global registers.
/// Where the image would have more than 65,536 pages, the items have no meaning for that reason.
pub fn items_mean_the_image()
    ensures { (statements : List StatementTree) → AreAccepted statements →
        meaning (emission statements) ≡ loaded_image statements }
{}

/// The items of the lines of a source, refused or not, are loaded unless the statements that are
/// accepted touch more than 65,536 pages; no other fault comes. A statement is refused for its pages
/// exactly where there are too many, and it is on the line with which they become too many.
pub fn lines_are_loaded_where_there_is_room()
    ensures fault { (lines : List Line) → AllByRecursion AreBytes lines →
        lines_fault lines ≡ page_fault (sights_of_lines lines) }
    ensures first { (statements : List Sight) →
        is_some (page_refusal statements) ≡ not (has_room (outlined statements)) }
    ensures line { (lines later : List Line) (line : Line) → page_fault (sights_of_lines lines) ≡ None →
        page_fault (sights_of_lines (lines ++ line ∷ [])) ≡ Some PagesFull →
        page_refusal (sights_of_lines (lines ++ line ∷ later)) ≡ Some (length lines + 1) }
{}

/// What a source that is not refused is assembled into means its image, unless that has too many
/// pages; one that is not refused when it is run means its image, and one that is refused for its pages
/// alone means nothing, for that reason. What any source gives is loaded unless its accepted statements
/// touch too many pages.
pub fn sources_mean_their_images()
    ensures image { (source : List ℕ) → AreBytes source → refusal source ≡ None →
        meaning_of source ≡ loaded_image (statements_of source) }
    ensures run { (source : List ℕ) → AreBytes source → run_refusal source ≡ None →
        meaning_of source ≡ Ok (image (statements_of source)) }
    ensures pages { (source : List ℕ) (line : ℕ) → AreBytes source → refusal source ≡ None →
        page_refusal (sights_of_source source) ≡ Some line → meaning_of source ≡ Err PagesFull }
    ensures fault { (source : List ℕ) → AreBytes source →
        source_fault source ≡ page_fault (sights_of_source source) }
{}

/// An object can be written from the items and the trie that a source of bytes is assembled into, the
/// trie is read as the symbols of the source, and the object is not too long to be read.
pub fn objects_can_be_written()
    ensures writable { (text : List ℕ) (items : List Item) (trie : List ℕ) → AreBytes text →
        Emits text items trie → AreWritable items trie }
    ensures symbols { (text : List ℕ) (items : List Item) (trie : List ℕ) → AreBytes text →
        Emits text items trie → HasSymbols text trie }
    ensures short { (text : List ℕ) (items : List Item) (trie : List ℕ) → AreBytes text →
        Emits text items trie → IsShort items trie }
{}
