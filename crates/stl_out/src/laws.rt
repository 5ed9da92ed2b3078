//! The laws of the triangles of a solid's boundary. Each is the contract of a function that does
//! nothing.

ghost use Rattle.std.specs.Prelude.{◌≡◌, Bool, true, List, [], ◌∷◌, ◌++◌, ℕ, codes, IsTrue};
ghost use Rattle.face_laws.specs.GridFaces.{Planes, AreCellsOf, numbered_fullness};
ghost use Rattle.face_laws.specs.GridRounds.{Rises};
ghost use Rattle.solid_model.specs.declared.cell.Axis.{Axis};
ghost use Rattle.solid_model.specs.declared.cell.Cell.{Cell};
ghost use Rattle.solid_model.specs.declared.segment.Segment.{Segment};
ghost use Rattle.solid_model.specs.declared.segment.Style.{Style};
ghost use Rattle.solid_model.specs.Cells.{is_full, IsSolid};
ghost use Rattle.solid_model.specs.Grid.{Coordinates, AreGridCoordinates, IsUnionOf};
ghost use Rattle.lemmas.specs.Lists.{Member};
ghost use Rattle.solid_model.specs.Matching.{Matches};
ghost use Rattle.stl_out.specs.declared.rectangle.Rectangle.{Rectangle};
ghost use Rattle.stl_out.specs.Closed.{Close, CoverBoundary};
ghost use Rattle.stl_out.specs.Rectangles.{AreRectanglesOf, all_triangles, AreTrianglesOf};
ghost use Rattle.stl_out.specs.SmallStl.{brick_coordinates, brick_triangles, first_triangle};
ghost use Rattle.stl_out.specs.SolidStl.{IsSolidStl};
ghost use Rattle.stl_out.specs.StlText.{facet_text, stl_text, IsStlOf};

/// The triangles close: each directed edge occurs in them as often as its reverse, also where two
/// parts of the solid touch along an edge alone.
pub fn triangles_close()
    ensures { (planes : Planes) (full : Cell → Bool) (list : List Cell)
        → ((n : Cell) → IsTrue (full n) → Member list n)
        → (rs : List Rectangle) → AreRectanglesOf full rs → Close (all_triangles planes rs) }
{}

/// The rectangles cover the boundary: each unit square, with its outward side, lies in one of them
/// where it is a boundary square of the solid, and else in none.
pub fn rectangles_cover_the_boundary()
    ensures { (planes : Planes) → ((a : Axis) → Rises (planes a))
        → (numbered full : Cell → Bool) → AreCellsOf planes numbered full
        → (rs : List Rectangle) → AreRectanglesOf numbered rs → CoverBoundary planes full rs }
{}

/// What is called the text of a solid is that of the triangles of rectangles: the triangles close,
/// and the rectangles cover just the solid's boundary. Each matching solid is one.
pub fn stl_texts_close_and_cover()
    ensures { (s : List Cell) → IsSolid s → (text : List ℕ) → IsSolidStl s text
        → (planes : Planes) × (rs : List Rectangle) × (text ≡ stl_text (all_triangles planes rs))
        × Close (all_triangles planes rs) × CoverBoundary planes (is_full s) rs }
{}

/// A solid has one list of boundary rectangles, and the chosen cells of a grid have one.
pub fn one_list_of_rectangles()
    ensures one { (full : Cell → Bool) (rs ss : List Rectangle) → AreRectanglesOf full rs
        → AreRectanglesOf full ss → rs ≡ ss }
    ensures some { (coordinates : Coordinates) (chosen : List Bool)
        → (rs : List Rectangle) × AreRectanglesOf (numbered_fullness coordinates chosen) rs }
{}

/// The triangles of a brick whose sides differ, and the text of the first one, written out by hand.
pub fn small_stl()
    ensures brick { AreTrianglesOf brick_coordinates (true ∷ []) brick_triangles }
    ensures facet { facet_text first_triangle ≡ codes "facet normal -1 0 0\nouter loop\n"
        ++ codes "vertex -1 0 0\nvertex -1 0 5\nvertex -1 2 5\nendloop\nendfacet\n" }
{}

/// A solid has one STL text: that between the grid coordinates of its own drawing. And the text of
/// the grid cells that a matching solid fills, on the drawing's grid, is that text, so it isn't
/// lacking.
pub fn one_stl_of_a_solid()
    ensures one { (s : List Cell) (text other : List ℕ) → IsSolidStl s text → IsSolidStl s other
        → text ≡ other }
    ensures own { (drawing : Segment → Style) (coordinates : Coordinates)
        → ((a : Axis) → AreGridCoordinates drawing a (coordinates a)) → (s : List Cell)
        → Matches drawing s → (chosen : List Bool) → IsUnionOf coordinates chosen (is_full s)
        → (text : List ℕ) → IsStlOf coordinates chosen text → IsSolidStl s text }
{}
