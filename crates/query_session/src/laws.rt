//! What follows for readers, and that lines are read as they are spelled.

ghost use Rattle.std.specs.Prelude.{◌≡◌, ◌<◌, ◌≤◌, ◌+◌, ◌-◌, ℕ, Bool, List, [], Some, true, length, get_or};
ghost use Rattle.solution_book.specs.declared.reader.Page.{Page};
ghost use Rattle.solution_book.specs.Editions.{EditionParts, ReaderParts, Looked, StartsWith};
ghost use Rattle.solution_book.specs.Pages.{IsPageOf};
ghost use Rattle.query_session.specs.declared.ask.Ask.{Ask};
ghost use Rattle.query_session.specs.declared.ask.Asking.{Asking};
ghost use Rattle.query_session.specs.Askings.{asking_line, readers_line, may_read, may_stand};
ghost use Rattle.query_session.specs.SessionLines.{asking_of_line, readers_of_line};
ghost use Rattle.query_session.specs.Tales.{AreTaken, ArePagesOfOneList, seen_solids};

/// The pages that a reader takes are of one list that grows, and the list that it sees at last
/// begins with all of theirs.
pub fn pages_are_of_one_list()
    ensures { (before after last : ReaderParts) (script : List Ask) (pages : List Page)
        (e : EditionParts) → AreTaken before script pages after → Looked after last e
        → ArePagesOfOneList (seen_solids before.edition) script pages e.solids }
{}

/// A place that a page held, and that lies within what is asked of a list that goes on from that of
/// the page, is in the page of that list, with the same solid.
pub fn pages_keep_what_was_seen()
    ensures { (from most again longest place : ℕ) (list later : List (List Bool))
        (page other : Page) → IsPageOf from most list page → StartsWith later list
        → IsPageOf again longest later other
        → from ≤ place → place < from + length page.solids.items
        → again ≤ place → place < again + longest
        → (place < again + length other.solids.items)
        × (get_or other.solids.items (place - again) []
        ≡ get_or page.solids.items (place - from) []) }
{}

/// Lines are read as they are spelled, and no other line is read.
pub fn askings_are_read_as_spelled()
    ensures asking { (readers : ℕ) (a : Asking) → may_read readers ≡ true
        → may_stand readers a ≡ true → asking_of_line readers (asking_line a) ≡ Some a }
    ensures only { (readers : ℕ) (line : List ℕ) (a : Asking) → asking_of_line readers line ≡ Some a
        → (may_stand readers a ≡ true) × (line ≡ asking_line a) }
    ensures readers { (n : ℕ) → may_read n ≡ true → readers_of_line (readers_line n) ≡ Some n }
    ensures only_readers { (line : List ℕ) (n : ℕ) → readers_of_line line ≡ Some n
        → (may_read n ≡ true) × (line ≡ readers_line n) }
{}
