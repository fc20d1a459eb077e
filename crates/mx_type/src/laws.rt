//! What holds of listings over their definitions alone.

ghost use Rattle.std.specs.Prelude.{◌≡◌, ◌↔◌, ℕ, List, Ok};
ghost use Rattle.mx_word.specs.declared.symbols.Symbol.{Symbol};
ghost use Rattle.mx_mmo.specs.Meaning.{Loading, nothing, take_item, take_items};
ghost use Rattle.mx_mmo.specs.Valid.{Valid};
ghost use Rattle.mx_mmo.specs.declared.items.Item.{Item};
ghost use Rattle.mx_stab.specs.Grammar.{IsTrie};
ghost use Rattle.mx_type.specs.Lambda.{lambda_after, lambda_of};
ghost use Rattle.mx_type.specs.Listing.{IsListing};
ghost use Rattle.mx_type.specs.Texts.{listing_text};

/// Lambda is that of the meaning of items: an item that means something moves it so, and where items
/// mean something, lambda after them is where their meaning has it.
#[tactic(auto, using(crate::proofs::Lambdas::meaning))]
pub fn lambda_is_that_of_the_meaning()
    ensures item { (s t : Loading) (item : Item) → take_item s item ≡ Ok t → t.lambda ≡ lambda_after s.lambda item }
    ensures items { (items : List Item) (s : Loading) → take_items items (Ok nothing) ≡ Ok s →
        lambda_of items ≡ s.lambda }
{}

/// A text is the listing of items and of a trie exactly where it is what a lister gives for them,
/// joined.
pub fn a_listing_is_what_is_joined()
    ensures { (text : List ℕ) (items : List Item) (trie : List ℕ) (symbols : List Symbol) → IsTrie trie symbols →
        IsListing text items trie ↔ (text ≡ listing_text items trie symbols) }
{}

/// A text is the listing of at most one list of items and one trie, where the items are those of an
/// object.
pub fn a_listing_loses_nothing()
    ensures items { (text : List ℕ) (items others : List Item) (trie other : List ℕ) → Valid items → Valid others →
        IsListing text items trie → IsListing text others other → items ≡ others }
    ensures trie { (text : List ℕ) (items others : List Item) (trie other : List ℕ) → Valid items → Valid others →
        IsListing text items trie → IsListing text others other → trie ≡ other }
{}
