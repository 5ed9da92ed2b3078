//! The plan of a problem: its columns, the cells of its blocks, and the lines beside them.

ghost use Rattle.std.specs.Prelude.{◌≡◌, ◌==◌, ◌&&◌, ◌||◌, ◌<◌, ◌≤◌, ℕ, [], length, slice_index_or, All, None, is_some, vec_capacity, IsTrue, IfOk, IfSome};
ghost use Rattle.solid_model.specs.Demands.{lines_at, lines_along, lines_in};
ghost use Rattle.solid_model.specs.Wire.{is_drawn_view};
ghost use Rattle.line_demands.specs.Gathered.{place_in_view, place_numbered, block_of_place, IsListed, AreAddedTo, IsGathered, AreGatheredTo, AreTouchedBy, AreTouchedTo, AllEmpty, AreMoreSides};
ghost use Rattle.line_demands.specs.KeptColumns.{column_count, AreSides};
ghost use Rattle.line_demands.specs.Touching.{view_width, view_height};
ghost use Rattle.solid_model.specs.declared.cell.Axis.{Axis};
ghost use Rattle.line_demands.specs.Lines.{AreMarked, AreBeside, AreBrokenTo};
ghost use Rattle.line_demands.specs.Spans.{AreWithin};
ghost use Rattle.line_demands.specs.SightCells.{AreColumnCells};
ghost use Rattle.lemmas.specs.Bits.{is_set};
ghost use Rattle.solid_model.specs.Frames.{frame_of};
ghost use Rattle.solid_model.specs.PerAxis.{numbers_of};
ghost use Rattle.solid_model.specs.GridBox.{grid_sizes, axis_across};

use crate::beside::{all_columns, beside_of, first_column};
use crate::known::KnownColumn;
use crate::lines::{Beside, break_line, can_be_met};
use crate::plan::{LineList, SpanList};
use crate::sight::{ColumnCells, cells_of_column};
use solid_model::{LineId, Memory, PerAxis, Problem, View, number_on};
use std::alloc::Global;

/// Where a column stands.
#[derive(Clone, Copy, Debug)]
pub struct ColumnPlace {
    pub view: View,
    pub right: usize,
    pub up: usize,
}

/// Where a column of a view stands, by its place among those of the view.
fn place_in(sizes: PerAxis, view: View, place: usize) -> ColumnPlace
    requires { 0 < view_width (numbers_of sizes) view }
    ensures { result ≡ place_in_view (numbers_of sizes) view place }
{
    let width = sizes.along(view.frame().along(false).axis);
    ColumnPlace {
        view,
        right: place % width,
        up: place / width,
    }
}

/// Where the column of a number stands.
fn place_of_column(sizes: PerAxis, number: usize) -> ColumnPlace
    requires few { (a : Axis) → numbers_of sizes a ≤ 63 }
    requires there { number < column_count (numbers_of sizes) }
    ensures { result ≡ place_numbered (numbers_of sizes) number }
{
    let top = first_column(sizes, View::Top);
    let side = first_column(sizes, View::Side);
    if number < top {
        return place_in(sizes, View::Front, number);
    }
    if number < side {
        return place_in(sizes, View::Top, number - top);
    }
    place_in(sizes, View::Side, number - side)
}

/// The number that stands at a place of a list, or none.
fn listed(numbers: &[Option<u16>], at: usize) -> Option<u16>
    ensures { result ≡ slice_index_or numbers.now at None }
{
    if at < numbers.len() {
        numbers[at]
    } else {
        None
    }
}

/// The block of the cell at a depth of a column that stands there.
pub fn block_at_depth(
    problem: &Problem,
    sizes: PerAxis,
    place: ColumnPlace,
    cells: ColumnCells,
    depth: usize,
) -> Option<u16>
    requires sizes { numbers_of sizes ≡ grid_sizes problem.now.grid }
    requires few { (a : Axis) → numbers_of sizes a ≤ 63 }
    requires right { place.right < view_width (numbers_of sizes) place.view }
    requires up { place.up < view_height (numbers_of sizes) place.view }
    requires depth { depth < numbers_of sizes (frame_of place.view).away.axis }
    requires cells { AreColumnCells (numbers_of sizes) place cells }
    requires few_first { cells.first ≤ 266304 }
    requires few_step { cells.step ≤ 266304 }
    ensures block { result ≡ block_of_place problem.now place depth }
    ensures below { IfSome result (λ b. b < problem.now.blocks.count) }
{
    problem.known();
    let along = number_on(sizes, place.view.frame().away, depth);
    listed(problem.blocks().numbers(), cells.first + along * cells.step)
}

/// Adds the cell at a depth of a column to the spans of its block.
fn add_cell(
    block: Option<u16>,
    number: u32,
    depth: usize,
    may: u64,
    spans: &mut [SpanList],
    on: &mut LineList,
) -> Result<u64, Memory>
    requires depth { depth < 64 }
    requires below { IfSome block (λ b. b < length spans.old) }
    ensures may { IfOk result (λ cells. (k : ℕ) → is_set cells k
        ≡ (is_set may k || ((depth == k) && is_some block))) }
    ensures spans { IfOk result (λ _. AreAddedTo block number depth spans.old spans.new) }
    ensures on { IfOk result (λ _. IsListed block on.old on.new) }
{
    match block {
        Some(block) => {
            spans[usize::from(block)].add(number, depth)?;
            on.add_once(u32::from(block))?;
            Ok(may | 1 << depth)
        }
        None => Ok(may),
    }
}

/// The cells of a column: those of blocks may be full.
fn add_column(
    problem: &Problem,
    number: usize,
    spans: &mut [SpanList],
    on: &mut LineList,
) -> Result<KnownColumn, Memory>
    requires there { number < column_count (grid_sizes problem.now.grid) }
    requires count { length spans.old ≡ problem.now.blocks.count }
    requires none { on.old ≡ [] }
    requires few { number < 65536 }
    ensures { IfOk result (λ column. IsGathered problem.now number spans.old spans.new on.new
        column) }
{
    let sizes = problem.grid().sizes();
    let place = place_of_column(sizes, number);
    let cells = cells_of_column(sizes, place.view.frame(), place.right, place.up);
    let mut may: u64 = 0;
    for depth in 0..sizes.along(place.view.frame().away.axis) {
        let block = block_at_depth(problem, sizes, place, cells, depth);
        may = add_cell(block, number as u32, depth, may, spans, on)?;
    }
    Ok(KnownColumn { full: 0, may })
}

/// The columns.
pub fn gather_columns(
    alloc: Global,
    problem: &Problem,
    spans: &mut [SpanList],
    on: &mut Vec<LineList>,
) -> Result<Vec<KnownColumn>, Memory>
    requires count { length spans.old ≡ problem.now.blocks.count }
    requires none { All (λ ss. ss ≡ []) spans.old }
    requires empty { on.old.items ≡ [] }
    ensures { IfOk result (λ columns. AreGatheredTo problem.now
        (column_count (grid_sizes problem.now.grid))
        spans.new columns.items on.new.items) }
{
    problem.known();
    let count = all_columns(problem.grid().sizes());
    let mut columns = Vec::with_capacity(alloc, count + 1)?;
    for number in 0..count {
        let mut blocks = LineList::new(alloc);
        columns.push_reserved(add_column(problem, number, spans, &mut blocks)?);
        on.push(blocks)?;
    }
    Ok(columns)
}

/// No spans of any block.
pub fn empty_spans(alloc: Global, count: usize) -> Result<Vec<SpanList>, Memory>
    ensures { IfOk result (λ spans. AllEmpty count spans.items) }
{
    let mut spans = Vec::with_capacity(alloc, count)?;
    for _made in 0..count {
        spans.push(SpanList::new(alloc))?;
    }
    Ok(spans)
}

/// No lines of any block.
pub fn empty_lists(alloc: Global, count: usize) -> Result<Vec<LineList>, Memory>
    ensures { IfOk result (λ lists. AllEmpty count lists.items) }
{
    let mut lists = Vec::with_capacity(alloc, count)?;
    for _made in 0..count {
        lists.push(LineList::new(alloc))?;
    }
    Ok(lists)
}

/// The lines of a view, level or upright, at one position.
fn add_lines_at(
    problem: &Problem,
    view: View,
    upright: bool,
    at: usize,
    sides: &mut Vec<Beside>,
) -> Result<(), Memory>
    requires shown { IsTrue (is_drawn_view problem.now.grid view) }
    requires there { at ≤ grid_sizes problem.now.grid (axis_across view upright) }
    requires few { at ≤ 63 }
    ensures { IfOk result (λ _. AreMoreSides problem.now (lines_at problem.now.grid view upright at)
        63 sides.old.items sides.new.items) }
{
    for cell in 0..problem.grid().cells_along(view, upright) {
        let line = LineId {
            view,
            upright,
            at: at as u8,
            cell: cell as u8,
        };
        sides.push(beside_of(problem.grid(), line))?;
    }
    Ok(())
}

/// The lines of a view, level or upright.
fn add_lines(
    problem: &Problem,
    view: View,
    upright: bool,
    sides: &mut Vec<Beside>,
) -> Result<(), Memory>
    requires { IsTrue (is_drawn_view problem.now.grid view) }
    ensures { IfOk result (λ _. AreMoreSides problem.now (lines_along problem.now.grid view upright)
        4032 sides.old.items sides.new.items) }
{
    for at in 0..problem.grid().cells_across(view, upright) + 1 {
        add_lines_at(problem, view, upright, at, sides)?;
    }
    Ok(())
}

/// The lines of a view. One that is missing demands nothing, and has none.
fn add_view(problem: &Problem, view: View, sides: &mut Vec<Beside>) -> Result<(), Memory>
    ensures { IfOk result (λ _. AreMoreSides problem.now (lines_in problem.now.grid view)
        8064 sides.old.items sides.new.items) }
{
    if !problem.grid().shows(view) {
        return Ok(());
    }
    add_lines(problem, view, false, sides)?;
    add_lines(problem, view, true, sides)?;
    Ok(())
}

/// All lines, in their order.
pub fn all_sides(alloc: Global, problem: &Problem) -> Result<Vec<Beside>, Memory>
    ensures sides { IfOk result (λ sides. AreSides problem.now sides.items) }
    ensures few { IfOk result (λ sides. length sides.items ≤ 24192) }
{
    let mut sides = Vec::new(alloc);
    add_view(problem, View::Front, &mut sides)?;
    add_view(problem, View::Top, &mut sides)?;
    add_view(problem, View::Side, &mut sides)?;
    Ok(sides)
}

/// Lists a line with the blocks of a column.
fn touch(on: &[u32], line: u32, touched: &mut [LineList]) -> Result<(), Memory>
    requires { All (λ b. b < length touched.old) on.now }
    ensures { IfOk result (λ _. AreTouchedBy line on.now touched.old touched.new) }
{
    for block in on {
        touched[*block as usize].add_once(line)?;
    }
    Ok(())
}

/// The lines beside the cells of each block.
pub fn touch_all(on: &[LineList], sides: &[Beside], touched: &mut [LineList]) -> Result<(), Memory>
    requires on { All (λ bs. All (λ b. b < length touched.old) bs) on.now }
    requires sides { AreBeside (length on.now) sides.now }
    requires none { All (λ ls. ls ≡ []) touched.old }
    requires few { length sides.now < 4294967296 }
    ensures { IfOk result (λ _. AreTouchedTo sides.now on.now (length touched.old)
        (length sides.now) touched.new) }
{
    for line in 0..sides.len() {
        let beside = sides[line];
        touch(on[beside.after as usize].as_slice(), line as u32, touched)?;
        touch(on[beside.before as usize].as_slice(), line as u32, touched)?;
    }
    Ok(())
}

/// Marks all lines that can't be met.
pub fn break_all(columns: &[KnownColumn], sides: &[Beside], met: &mut [bool], broken: &mut Vec<u32>)
    requires within { AreWithin columns.now }
    requires sides { AreBeside (length columns.now) sides.now }
    requires few { length sides.now < 4294967296 }
    requires count { length met.old ≡ length sides.now }
    requires marked { AreMarked met.old broken.old.items }
    requires none { broken.old.items ≡ [] }
    requires room { length met.old ≤ vec_capacity broken.old }
    ensures marked { AreMarked met.new broken.new.items }
    ensures room { vec_capacity broken.new ≡ vec_capacity broken.old }
    ensures broken { AreBrokenTo columns.now sides.now (length sides.now) broken.new.items }
{
    for line in 0..sides.len() {
        if !can_be_met(columns, sides[line]) {
            break_line(met, broken, line as u32);
        }
    }
}
