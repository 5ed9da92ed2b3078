//! What follows for whoever reads a book page by page.

ghost use Rattle.std.specs.Prelude.{◌≡◌, ◌<◌, ◌+◌, ◌↔◌, ◌++◌, ℕ, Bool, List, length};
ghost use Rattle.solution_book.specs.declared.reader.Page.{Page};
ghost use Rattle.solution_book.specs.Editions.{StartsWith};
ghost use Rattle.solution_book.specs.Pages.{IsPageOf};

/// A page is shorter than was asked for exactly where some place was asked for and the list has
/// fewer places.
pub fn pages_are_short_at_the_end()
    ensures { (from most : ℕ) (list : List (List Bool)) (page : Page) → IsPageOf from most list page
        → (length page.solids.items < most) ↔ ((0 < most) × (length list < from + most)) }
{}

/// The same page of a list that goes on begins with what it was.
pub fn pages_only_grow()
    ensures { (from most : ℕ) (list later : List (List Bool)) (page again : Page)
        → StartsWith later list → IsPageOf from most list page → IsPageOf from most later again
        → StartsWith again.solids.items page.solids.items }
{}

/// What was read of a list, and the next page of a list that goes on from it, are again a beginning
/// of that list.
pub fn pages_are_one_list()
    ensures { (read list later : List (List Bool)) (most : ℕ) (page : Page)
        → StartsWith list read → StartsWith later list → IsPageOf (length read) most later page
        → StartsWith later (read ++ page.solids.items) }
{}
