//! The cubes of a made solid, by the words of a generator (PCG32, O'Neill 2014).

ghost use Rattle.std.specs.Prelude.{◌≡◌, ◌≤◌, ◌+◌, ◌*◌, ◌%◌, ◌&&◌, not, IfOk};
ghost use Rattle.rand_pcg.specs.Pcg.{pcg32};
ghost use Rattle.drawing_maker.specs.Cubes.{next_origin};
ghost use Rattle.drawing_maker.specs.Made.{kind_by, scale_by, has_eight_voids, made_cubes};

use crate::cube::{Cube, Kind};
use rand_core::utils::NextWord;
use rand_pcg::Lcg64Xsh32;
use solid_model::Memory;
use std::alloc::Global;

/// The stream of the generator.
const STREAM: u64 = 54;

/// How many cubes stand behind the first one.
const LATER_PIECES: u32 = 13;

/// The kind that a word gives, where only one cube with eight voids stands so far, or more.
fn kind_by(alone: bool, word: u32) -> Kind
    ensures { result ≡ kind_by alone (word % 8) }
{
    match word % 8 {
        0 if alone => Kind::EightVoids,
        0..=4 => Kind::HollowCube,
        _ => Kind::UnitCube,
    }
}

/// The scale that a word gives.
fn scale_by(word: u32) -> u32
    ensures scale { result ≡ scale_by word }
    ensures few { result ≤ 9 }
{
    1 + word % 9
}

/// The next cube behind the first one, by two words: its kind, then its scale.
fn draw_cube(generator: &mut Lcg64Xsh32, alone: bool, origin: u32) -> Cube
    ensures cube { let kind = pcg32 generator.old in let scale = pcg32 kind.1 in
        result ≡ record {
          kind = kind_by alone (kind.0 % 8);
          scale = scale_by scale.0;
          origin = origin;
        } }
    ensures next { generator.new ≡ (pcg32 (pcg32 generator.old).1).1 }
    ensures few { result.scale ≤ 9 }
{
    let kind = kind_by(alone, generator.next_word());
    let scale = scale_by(generator.next_word());
    Cube {
        kind,
        scale,
        origin,
    }
}

/// The first cube: one with eight voids, whatever its first word is.
fn draw_first(generator: &mut Lcg64Xsh32) -> Cube
    ensures cube { let kind = pcg32 generator.old in let scale = pcg32 kind.1 in
        result ≡ record { kind = Kind.EightVoids; scale = scale_by scale.0; origin = 0 } }
    ensures next { generator.new ≡ (pcg32 (pcg32 generator.old).1).1 }
    ensures few { result.scale ≤ 9 }
{
    // Its word is drawn and has no effect.
    let _kind = generator.next_word();
    let scale = scale_by(generator.next_word());
    Cube {
        kind: Kind::EightVoids,
        scale,
        origin: 0,
    }
}

/// Where the next cube begins: behind a gap of 1.
fn next_origin(cube: Cube) -> u32
    requires scale { cube.scale ≤ 9 }
    requires origin { cube.origin ≤ 1000 }
    ensures origin { result ≡ next_origin cube }
    ensures near { result ≤ cube.origin + 46 }
{
    cube.origin + cube.scale * cube.kind.side() + 1
}

/// Only one cube with eight voids still stands behind the cube, if only one stood before it.
fn is_still_alone(alone: bool, cube: Cube) -> bool
    ensures { result ≡ (alone && not (has_eight_voids cube.kind)) }
{
    alone && !matches!(cube.kind, Kind::EightVoids)
}

/// The cubes of a number, in a row; an Err is out of memory.
pub fn made_cubes(alloc: Global, n: u64) -> Result<Vec<Cube>, Memory>
    ensures { IfOk result (λ cubes. cubes.items ≡ made_cubes n) }
{
    let mut generator = Lcg64Xsh32::new(n, STREAM);
    let first = draw_first(&mut generator);
    let mut cubes = Vec::new(alloc);
    cubes.push(first)?;
    let mut origin = next_origin(first);
    let mut alone = true;
    for _made in 0..LATER_PIECES {
        let cube = draw_cube(&mut generator, alone, origin);
        cubes.push(cube)?;
        origin = next_origin(cube);
        alone = is_still_alone(alone, cube);
    }
    Ok(cubes)
}
