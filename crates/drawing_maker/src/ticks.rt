//! The ticks of a row of cubes: the coordinates along an axis at which a part of a cube begins,
//! or the cube ends. A row is diagonal, so that they are the same along each axis.

ghost use Rattle.std.specs.Prelude.{◌≡◌, ◌≤◌, ◌+◌, ◌++◌, List, map, pos, IfOk, OnOk};
ghost use Rattle.std.specs.List.{flat_map};
ghost use Rattle.drawing_maker.specs.Rows.{tick_after, cube_ticks, row_ticks, coordinates_of_ticks, AreSmall};

use crate::cube::Cube;
use solid_model::Memory;
use std::alloc::Global;

/// A part of a cube along an axis: which of its places, from 0 on.
#[derive(Clone, Copy)]
pub struct Part {
    pub cube: Cube,
    pub place: u32,
}

/// A coordinate of a row along an axis, and what lies before it: a part of a cube, or nothing.
#[derive(Clone, Copy)]
pub struct Tick {
    pub at: u32,
    pub before: Option<Part>,
}

/// Adds the ticks of a cube.
fn push_ticks(ticks: &mut Vec<Tick>, cube: Cube) -> Result<(), Memory>
    requires scale { cube.scale ≤ 9 }
    requires origin { cube.origin ≤ 1000 }
    ensures { OnOk result (ticks.new.items ≡ ticks.old.items ++ cube_ticks cube) }
{
    ticks.push(Tick {
        at: cube.origin,
        before: None,
    })?;
    for place in 0..cube.kind.side() {
        ticks.push(Tick {
            at: cube.origin + cube.scale * (place + 1),
            before: Some(Part { cube, place }),
        })?;
    }
    Ok(())
}

/// The ticks of a row of cubes; an Err is out of memory.
pub fn ticks_of(alloc: Global, cubes: &[Cube]) -> Result<Vec<Tick>, Memory>
    requires { AreSmall cubes.now }
    ensures { IfOk result (λ ticks. ticks.items ≡ row_ticks cubes.now) }
{
    let mut ticks = Vec::new(alloc);
    for cube in cubes {
        push_ticks(&mut ticks, *cube)?;
    }
    Ok(ticks)
}

/// Their coordinates; an Err is out of memory.
pub fn coordinates_of(alloc: Global, ticks: &[Tick]) -> Result<Vec<i64>, Memory>
    ensures { IfOk result (λ coordinates. coordinates.items ≡ coordinates_of_ticks ticks.now) }
{
    let mut coordinates = Vec::new(alloc);
    for tick in ticks {
        coordinates.push(i64::from(tick.at))?;
    }
    Ok(coordinates)
}
