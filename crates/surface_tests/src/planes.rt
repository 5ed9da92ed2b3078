//! Squares whose loops were found by hand.

use faces::{PlaneLoop, Squares, plane_loops, plane_squares};
use solid_model::Out;
use std::alloc::Global;
use std::fmt::Write;
use std::test::Fail;
use test_files::{Row, numbers, rows_of, rows_tell};

/// The sizes of a plate, a digit each; its squares, row by row from the lowest one up; whether
/// points come by v, then u (`up`), or by u, then v (`right`); and the loops. Each loop is told by
/// its square and its corners, two digits each.
const PLANES: &str = "\
111; .; up
111; #; up -> 00: 00 10 11 01
111; #; right -> 00: 00 10 11 01
331; ###/#.#/###; up -> 00: 00 30 33 03, 10: 11 12 22 21
331; ###/#.#/###; right -> 00: 00 30 33 03, 10: 11 12 22 21
221; #./.#; up -> 00: 00 10 11 01, 11: 11 21 22 12
221; #./.#; right -> 00: 00 10 11 01, 11: 11 21 22 12
221; .#/#.; up -> 10: 10 20 21 11, 01: 01 11 12 02
221; .#/#.; right -> 01: 01 11 12 02, 10: 10 20 21 11
441; ####/#.##/##.#/####; up -> 00: 00 40 44 04, 10: 11 12 22 23 33 32 22 21
441; ####/#.##/##.#/####; right -> 00: 00 40 44 04, 10: 11 12 22 23 33 32 22 21
441; ####/##.#/#.##/####; up -> 00: 00 40 44 04, 20: 21 22 12 13 23 22 32 31
441; ####/##.#/#.##/####; right -> 00: 00 40 44 04, 11: 12 13 23 22 32 31 21 22";

/// The squares that a row begins with: the upper sides of the cells of a plate.
fn read_squares(alloc: Global, sizes: &str, rows: &str) -> Result<Squares, Fail> {
    let cells = rows_of(alloc, numbers(sizes), rows)?;
    Ok(plane_squares(alloc, &cells, Out::PlusZ, 1)?)
}

/// A loop, as a row has it.
fn tell_loop(along: &PlaneLoop, told: &mut String) -> Result<(), Fail> {
    write!(told, "{}{}:", along.square.u, along.square.v)?;
    for corner in &along.corners {
        write!(told, " {}{}", corner.u, corner.v)?;
    }
    Ok(())
}

/// All loops of a row's squares, as the row has them.
fn told_loops(alloc: Global, row: Row<'_>) -> Result<String, Fail> {
    let [sizes, rows, order, ..] = row.parts;
    let squares = read_squares(alloc, sizes, rows)?;
    let mut told = String::new(alloc);
    for along in &plane_loops(alloc, &squares, order == "up")? {
        if !told.is_empty() {
            told.push_str(", ")?;
        }
        tell_loop(along, &mut told)?;
    }
    Ok(told)
}

#[test]
fn loops_are_those_found_by_hand(rt: HostRuntime) -> Result<(), Fail> {
    rows_tell(PLANES, |row| told_loops(rt.alloc(), row))
}
