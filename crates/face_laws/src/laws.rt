//! The laws of the face list of a solid. Each is the contract of a function that does nothing.

ghost use Rattle.std.specs.Prelude.{◌≡◌, Bool, not, ℕ, List, map, ℤ, pos, ◌<ℤ◌, IsTrue};
ghost use Rattle.solid_model.specs.declared.cell.Axis.{Axis};
ghost use Rattle.solid_model.specs.declared.cell.Cell.{Cell};
ghost use Rattle.solid_model.specs.declared.face.Out.{Out};
ghost use Rattle.solid_model.specs.declared.face.Out.TheVariants.{PlusX, PlusZ};
ghost use Rattle.solid_model.specs.Cells.{is_full};
ghost use Rattle.solid_model.specs.Edges.{is_edge};
ghost use Rattle.solid_model.specs.Faces.{outward, right_axis, up_axis, place, is_boundary, BeginsLeast, AreLoopsOf, FaceParts, FaceBefore, AreFacesOf};
ghost use Rattle.solid_model.specs.Grid.{Coordinates, IsUnionOf};
ghost use Rattle.face_laws.specs.GridFaces.{Planes, AreCellsOf, face_in_space, grid_planes, numbered_fullness};
ghost use Rattle.face_laws.specs.GridRounds.{Rises, grid_point, AreSquaresOf, last_side};
ghost use Rattle.lemmas.specs.Lists.{Member, Ascends};
ghost use Rattle.solid_model.specs.Orders.{ComesBefore};
ghost use Rattle.solid_model.specs.Rounds.{Spot, West, South, spot_after, Side, end_of, left_square, is_border, following, turns, further, sides_from, IsRound, round_sides, round_corners, AreJoined};
ghost use Rattle.face_laws.specs.SmallFaces.{faces_apart, first_square, unit_cube_faces, hollow_cube, middle_square, void_loops, pierced_plate, pierced_loops, twice_pierced_plate, twice_pierced_loops};
ghost use Rattle.solid_model.specs.SmallSolids.{unit_cube};

/// A face goes on across its squares' sides exactly where no edge of the solid is, whichever of the
/// two squares at a side is known to be a boundary square: the one above it or the one below it,
/// the one on its right or the one on its left. So the loops of faces run along edges, and no edge
/// lies within a face.
pub fn faces_end_at_edges()
    ensures above { (full : Cell → Bool) (at : ℤ) (q : Spot) (out : Out)
        → IsTrue (is_boundary full out at q)
        → is_edge full (right_axis out) (place out at q)
        ≡ not (is_boundary full out at (spot_after South q)) }
    ensures below { (full : Cell → Bool) (at : ℤ) (q : Spot) (out : Out)
        → IsTrue (is_boundary full out at (spot_after South q))
        → is_edge full (right_axis out) (place out at q) ≡ not (is_boundary full out at q) }
    ensures right { (full : Cell → Bool) (at : ℤ) (q : Spot) (out : Out)
        → IsTrue (is_boundary full out at q)
        → is_edge full (up_axis out) (place out at q)
        ≡ not (is_boundary full out at (spot_after West q)) }
    ensures left { (full : Cell → Bool) (at : ℤ) (q : Spot) (out : Out)
        → IsTrue (is_boundary full out at (spot_after West q))
        → is_edge full (up_axis out) (place out at q) ≡ not (is_boundary full out at q) }
{}

/// The border of squares in a plane goes on from each of its sides to another one, and no two of
/// its sides go on to the same one. So it goes round and round, in loops that have no side in
/// common. Each stays on one face: the squares on the left of its sides are joined.
pub fn following_is_one_to_one()
    ensures border { (squares : Spot → Bool) (s : Side) → IsTrue (is_border squares s)
        → IsTrue (is_border squares (following squares s)) }
    ensures one { (squares : Spot → Bool) (s t : Side) → IsTrue (is_border squares s)
        → IsTrue (is_border squares t) → following squares s ≡ following squares t → s ≡ t }
    ensures joined { (squares : Spot → Bool) (s : Side) → IsTrue (is_border squares s)
        → AreJoined squares (left_square s) (left_square (following squares s)) }
{}

/// A solid has one list of faces: whoever finds them all, each with all its loops, in their order,
/// finds this list.
pub fn one_list_of_faces()
    ensures { (full : Cell → Bool) (fs gs : List FaceParts) → AreFacesOf full fs
        → AreFacesOf full gs → fs ≡ gs }
{}

/// It can't be that a solid has no list of faces, with all loops of each, in their order. So what
/// is asked of a program that lists them can be given.
pub fn no_solid_lacks_faces()
    ensures { (s : List Cell)
        → ((faces : List FaceParts) → AreFacesOf (is_full s) faces → ⊥) → ⊥ }
{}

/// The side of a round that ends at its least point ends at a corner, and each other side of the
/// round ends at a later point. So the round may begin there, its first corner is the least one,
/// and it passes that corner once.
pub fn least_sides_end_at_corners()
    ensures begins { (squares : Spot → Bool) (out : Out) (at : ℤ) (s : Side) (n : ℕ)
        → IsTrue (is_border squares s) → further squares n (following squares s) ≡ s
        → (Member (sides_from squares n (following squares s)) s → ⊥)
        → ((t : Side) → Member (round_sides squares s n) t
        → ComesBefore (place out at (end_of t)) (place out at (end_of s)) → ⊥)
        → IsRound squares s n × BeginsLeast (map (place out at) (round_corners squares s n)) }
    ensures others { (squares : Spot → Bool) (out : Out) (at : ℤ) (s : Side) (n : ℕ)
        → IsTrue (is_border squares s) → further squares n (following squares s) ≡ s
        → (Member (sides_from squares n (following squares s)) s → ⊥)
        → ((t : Side) → Member (round_sides squares s n) t
        → ComesBefore (place out at (end_of t)) (place out at (end_of s)) → ⊥)
        → (t : Side) → Member (sides_from squares n (following squares s)) t
        → ComesBefore (place out at (end_of s)) (place out at (end_of t)) }
{}

/// Each side of a face's border, beyond which the face doesn't go on, is on one round that begins
/// at its least corner, and so on one loop.
pub fn each_side_is_on_one_loop()
    ensures some { (s : List Cell) (out : Out) (at : ℤ) (r : Side)
        → IsTrue (is_border (is_boundary (is_full s) out at) r)
        → (t : Side) × (n : ℕ) × IsRound (is_boundary (is_full s) out at) t n
        × BeginsLeast (map (place out at) (round_corners (is_boundary (is_full s) out at) t n))
        × Member (round_sides (is_boundary (is_full s) out at) t n) r }
    ensures one { (squares : Spot → Bool) (out : Out) (at : ℤ) (s t r : Side) (n m : ℕ)
        → IsRound squares s n → IsRound squares t m
        → BeginsLeast (map (place out at) (round_corners squares s n))
        → BeginsLeast (map (place out at) (round_corners squares t m))
        → Member (round_sides squares s n) r → Member (round_sides squares t m) r
        → (s ≡ t) × (n ≡ m) }
{}

/// Faces of a union of grid cells lie in planes at grid coordinates, and their corners are grid
/// points: both coordinates of a point where a border turns are grid coordinates.
pub fn corners_are_grid_points()
    ensures planes { (coordinates : Coordinates) → ((a : Axis) → Ascends ◌<ℤ◌ (coordinates a))
        → (chosen : List Bool) (full : Cell → Bool) → IsUnionOf coordinates chosen full
        → (out : Out) (at : ℤ) (q : Spot) → IsTrue (is_boundary full out at q)
        → Member (coordinates (outward out).axis) at }
    ensures corners { (coordinates : Coordinates) → ((a : Axis) → Ascends ◌<ℤ◌ (coordinates a))
        → (chosen : List Bool) (full : Cell → Bool) → IsUnionOf coordinates chosen full
        → (out : Out) (at : ℤ) (s : Side) → IsTrue (is_border (is_boundary full out at) s)
        → IsTrue (turns (is_boundary full out at) s)
        → Member (coordinates (right_axis out)) (end_of s).u
        × Member (coordinates (up_axis out)) (end_of s).v }
{}

/// Grid squares are squares of a plane too, counted by number. Where unit squares make them up,
/// each round of the grid squares' border is a round of the unit squares' border, from the last
/// unit side of its first side on, with the same corners; and each unit side of the border that
/// ends where two lines cross is the last one of a side of the grid squares' border, and turns as
/// that does.
pub fn grid_rounds_are_unit_rounds()
    ensures rounds { (cells squares : Spot → Bool) (across up : ℤ → ℤ) → Rises across → Rises up
        → AreSquaresOf across up cells squares → (s : Side) (n : ℕ) → IsRound cells s n
        → (m : ℕ) × IsRound squares (last_side across up s) m
        × (round_corners squares (last_side across up s) m
        ≡ map (grid_point across up) (round_corners cells s n))
        × ((x : Side) → Member (round_sides cells s n) x
        → Member (round_sides squares (last_side across up s) m) (last_side across up x)) }
    ensures ends { (cells squares : Spot → Bool) (across up : ℤ → ℤ) → Rises across → Rises up
        → AreSquaresOf across up cells squares → (r : Side) (n : Spot)
        → IsTrue (is_border squares r) → end_of r ≡ grid_point across up n
        → (s : Side) × IsTrue (is_border cells s) × (last_side across up s ≡ r)
        × (turns cells s ≡ turns squares r) }
{}

/// Counted by number, grid cells are unit cells once more, and those that are full make a solid of
/// their own. Its faces, as they stand in space, are the faces of the solid that the grid cells
/// make up. So it is enough to look at grid cells: for a union of grid cells, at those that are
/// chosen.
pub fn faces_of_grid_cells()
    ensures cells { (planes : Planes) → ((a : Axis) → Rises (planes a))
        → (numbered full : Cell → Bool) → AreCellsOf planes numbered full
        → (list : List Cell) → ((n : Cell) → IsTrue (numbered n) → Member list n)
        → (faces : List FaceParts) → AreFacesOf numbered faces
        → AreFacesOf full (map (face_in_space planes) faces) }
    ensures union { (coordinates : Coordinates) → ((a : Axis) → Ascends ◌<ℤ◌ (coordinates a))
        → (chosen : List Bool) (full : Cell → Bool) → IsUnionOf coordinates chosen full
        → (faces : List FaceParts) → AreFacesOf (numbered_fullness coordinates chosen) faces
        → AreFacesOf full (map (face_in_space (grid_planes coordinates)) faces) }
{}

/// Small face lists, written out by hand. The unit cube has six faces of one square each, gone
/// round to the left as seen from outside. Of two cubes in a row those of one side come by their
/// planes, and those of one plane by their first corners. A void has faces too, seen from within
/// it. From above, a plate with a square hole shows its outline and, the other way round, its hole.
/// Where two holes touch at a corner, two ways go on, and the loop turns left: so both holes are in
/// one loop, which passes that corner twice.
pub fn small_faces()
    ensures cube { AreFacesOf (is_full unit_cube) unit_cube_faces }
    ensures order { Ascends FaceBefore faces_apart }
    ensures void { AreLoopsOf (is_boundary hollow_cube PlusX (pos 1)) (place PlusX (pos 1))
        middle_square void_loops }
    ensures hole { AreLoopsOf (is_boundary pierced_plate PlusZ (pos 1)) (place PlusZ (pos 1))
        first_square pierced_loops }
    ensures holes { AreLoopsOf (is_boundary twice_pierced_plate PlusZ (pos 1))
        (place PlusZ (pos 1)) first_square twice_pierced_loops }
{}
