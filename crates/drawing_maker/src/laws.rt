//! The law of the cubes of made solids.

ghost use Rattle.std.specs.Prelude.{◌≡◌, codes};
ghost use Rattle.drawing_maker.specs.SmallCubes.{cubes_text};

/// The cubes of two numbers, as another program computed them after the reference code of PCG32:
/// `E` for a cube with eight voids, `H` for a hollow cube, `U` for a unit cube, and the scale.
pub fn small_cubes()
    ensures three { cubes_text 3 ≡ codes " E6 U4 E2 H4 H8 H4 H3 U7 U5 H4 H4 U3 U6 H5" }
    ensures eleven { cubes_text 11 ≡ codes " E9 U1 U7 H6 U6 U1 U9 U7 H7 U7 H4 H2 H4 U6" }
{}
