//! The way from a file's bytes to its problem, stage by stage: the pairs of the file's text, the
//! lines that it keeps, their drawing in three views, the drawing's grid, the grid's pseudo wire
//! frame, virtual faces and blocks.

ghost use Rattle.std.specs.Prelude.{◌≡◌, ◌⊎◌, ◌≤◌, ℕ, false, length, drop, Some, IfOk, OnOk, IsErrOf};
ghost use Rattle.dxf_groups.specs.Groups.{IsReadThrough};
ghost use Rattle.dxf_groups.specs.Pairs.{pairs_of, rest_of_text};
ghost use Rattle.dxf_entities.specs.Forms.{six_views, three_views};
ghost use Rattle.file_problem.specs.Inputs.{HasEmptyView, HasFineAxis, HasFurther, HasProblem, IsFaultOfLines, IsFileFault, input_in};
ghost use Rattle.solid_model.specs.declared.fault.Fault.{Fault};
ghost use Rattle.solid_model.specs.declared.fault.Fault.TheVariants.{TooLong};
ghost use Rattle.solid_model.specs.declared.fault.Refused.TheVariants as refused;
ghost use Rattle.solid_model.specs.Blocks.{HasTooManyBlocks, IsBlocksOf};
ghost use Rattle.solid_model.specs.Drawings.{drawing_of, IsShown};
ghost use Rattle.solid_model.specs.Limits.{most_blocks, most_decimals, most_file_bytes, most_text_bytes};
ghost use Rattle.solid_model.specs.Panels.{IsGridOf};

use crate::cuts::first_uncut;
use blocks::blocks_of;
use dxf_entities::{LayerSet, ReadingForm, entities_in};
use dxf_groups::Groups;
use further_views::{Further, further_of};
use grid::grid_of;
use pseudo_wire::wire_of;
use solid_model::{Blocks, Fault, Grid, Problem, Refused, SheetLine};
use std::alloc::Global;
use views::drawing_of_views;
use virtual_faces::faces_of;

/// The grid of the drawing of lines.
fn grid_of_lines(alloc: Global, lines: &[SheetLine], two_views: bool) -> Result<Grid, Refused>
    ensures grid { IfOk result (IsGridOf (drawing_of lines.now)) }
    ensures shown { OnOk result (IsShown two_views lines.now) }
    ensures fault { (fault : Fault) → IsErrOf result (refused.Fault fault)
        → HasEmptyView two_views lines.now fault ⊎ HasFineAxis two_views lines.now fault }
{
    let drawing = drawing_of_views(alloc, lines, two_views)?;
    grid_of(alloc, &drawing)
}

/// The blocks of a grid.
fn blocks_of_grid(alloc: Global, grid: &Grid) -> Result<Blocks, Refused>
    ensures blocks { IfOk result (λ blocks. IsBlocksOf grid.now blocks) }
    ensures few { IfOk result (λ blocks. blocks.count ≤ most_blocks) }
    ensures many { (fault : Fault) → IsErrOf result (refused.Fault fault)
        → (count : ℕ) × (fault ≡ Fault.TooManyBlocks count) × HasTooManyBlocks grid.now count }
{
    let wire = wire_of(alloc, grid)?;
    let faces = faces_of(alloc, grid, &wire)?;
    blocks_of(alloc, grid, &faces)
}

/// The grid and the blocks of the drawing of lines.
fn problem_of_lines(alloc: Global, lines: &[SheetLine], two_views: bool) -> Result<Problem, Refused>
    ensures shown { OnOk result (IsShown two_views lines.now) }
    ensures grid { IfOk result (λ problem. IsGridOf (drawing_of lines.now) problem.grid) }
    ensures blocks { IfOk result (λ problem. IsBlocksOf problem.grid problem.blocks) }
    ensures few { IfOk result (λ problem. problem.blocks.count ≤ most_blocks) }
    ensures fault { (fault : Fault) → IsErrOf result (refused.Fault fault)
        → IsFaultOfLines two_views lines.now fault }
{
    let grid = grid_of_lines(alloc, lines, two_views)?;
    let blocks = blocks_of_grid(alloc, &grid)?;
    Ok(Problem::new(grid, blocks))
}

/// The grid and the blocks of the drawing of a reader's text, which is read in this form, and what
/// its other layers ask for; or the text's first fault. `NoCut` comes last.
fn read(
    alloc: Global,
    groups: &mut Groups,
    form: ReadingForm,
    two_views: bool,
) -> Result<(Problem, Further), Refused>
    requires { groups.old.left ≡ pairs_of groups.old.text }
    ensures problem { (most : ℕ) → length groups.old.text ≤ most
        → IfOk result (λ found.
        HasFurther (input_in form two_views most groups.old.text) found.0 found.1) }
    ensures fault { (most : ℕ) → length groups.old.text ≤ most
        → (fault : Fault) → IsErrOf result (refused.Fault fault)
        → IsFileFault (input_in form two_views most groups.old.text) fault }
    ensures through { OnOk result (IsReadThrough groups.old groups.new) }
{
    let (lines, others) = entities_in(alloc, groups, form)?;
    let problem = problem_of_lines(alloc, lines.as_slice(), two_views)?;
    if let Some(line) = first_uncut(problem.grid(), others.as_slice()) {
        return Err(Refused::Fault(Fault::NoCut { line }));
    }
    let further = further_of(alloc, others.as_slice())?;
    Ok((problem, further))
}

/// The grid and the blocks of the drawing of a file whose coordinates have so many decimals, or the
/// file's first fault; Memory comes when out of memory. The file has at most 16,777,216 bytes, and
/// there are at most 6 decimals.
pub fn problem_of(alloc: Global, file: Vec<u8>, decimals: u8) -> Result<Problem, Refused>
    requires short { length file.items ≤ most_file_bytes }
    requires decimals { decimals ≤ most_decimals }
    ensures problem { IfOk result (λ problem.
        HasProblem (input_in (three_views decimals) false most_file_bytes file.items) problem) }
    ensures fault { (fault : Fault) → IsErrOf result (Refused.Fault fault)
        → IsFileFault (input_in (three_views decimals) false most_file_bytes file.items) fault }
{
    let form = ReadingForm::new(LayerSet::Main, decimals);
    let (problem, _) = read(alloc, &mut Groups::new(file), form, false)?;
    Ok(problem)
}

/// The same of a file whose six views are read, with the further ones of which a line covers
/// something: of each the runs, shifted so that its least right and its least up coordinate are 0.
/// The first fault of a line of any of the six layers is one of the file.
pub fn problem_of_six(
    alloc: Global,
    file: Vec<u8>,
    decimals: u8,
) -> Result<(Problem, Further), Refused>
    requires short { length file.items ≤ most_file_bytes }
    requires decimals { decimals ≤ most_decimals }
    ensures problem { IfOk result (λ found.
        HasFurther (input_in (six_views decimals) false most_file_bytes file.items)
        found.0 found.1) }
    ensures fault { (fault : Fault) → IsErrOf result (Refused.Fault fault)
        → IsFileFault (input_in (six_views decimals) false most_file_bytes file.items) fault }
{
    read(
        alloc,
        &mut Groups::new(file),
        ReadingForm::new(LayerSet::Six, decimals),
        false,
    )
}

/// The bytes from a place of a text on. They are moved to its front, and no memory is taken.
fn bytes_from(text: Vec<u8>, place: usize) -> Vec<u8>
    requires { place ≤ length text.items }
    ensures { result.items ≡ drop place text.items }
{
    let mut bytes = text;
    let len = bytes.len() - place;
    bytes.copy_within(place.., 0);
    bytes.truncate(len);
    bytes
}

/// The grid and the blocks of the drawing of a text that is read in this form, its further views,
/// and the bytes behind the line of its end pair's value; or the text's first fault. One view may
/// be missing with `two_views`. The text has at most 134,217,728 bytes. Memory comes when out of
/// memory.
pub fn problem_with_rest(
    alloc: Global,
    text: Vec<u8>,
    form: ReadingForm,
    two_views: bool,
) -> Result<(Problem, Further, Vec<u8>), Refused>
    requires { length text.items ≤ most_text_bytes }
    ensures problem { (most : ℕ) → length text.items ≤ most
        → IfOk result (λ found.
        HasFurther (input_in form two_views most text.items) found.0 found.1) }
    ensures rest { IfOk result (λ found. rest_of_text text.items ≡ Some found.2.items) }
    ensures few { IfOk result (λ found. length found.2.items ≤ most_text_bytes) }
    ensures fault { (most : ℕ) → length text.items ≤ most
        → (fault : Fault) → IsErrOf result (refused.Fault fault)
        → IsFileFault (input_in form two_views most text.items) fault }
{
    let mut groups = Groups::new(text);
    let (problem, further) = read(alloc, &mut groups, form, two_views)?;
    let place = groups.after_end().unwrap();
    let rest = bytes_from(groups.into_text(), place);
    Ok((problem, further, rest))
}

/// The same where the three views alone are read and coordinates have no decimals; it is never a
/// fault that the text is too long.
pub fn problem_and_rest(alloc: Global, text: Vec<u8>) -> Result<(Problem, Vec<u8>), Refused>
    requires { length text.items ≤ most_text_bytes }
    ensures problem { IfOk result (λ found.
        HasProblem (input_in (three_views 0) false most_text_bytes text.items) found.0) }
    ensures rest { IfOk result (λ found. rest_of_text text.items ≡ Some found.1.items) }
    ensures fault { (fault : Fault) → IsErrOf result (refused.Fault fault)
        → IsFileFault (input_in (three_views 0) false most_text_bytes text.items) fault }
    ensures not_long { IsErrOf result (refused.Fault TooLong) → ⊥ }
{
    let form = ReadingForm::new(LayerSet::Main, 0);
    let (problem, _, rest) = problem_with_rest(alloc, text, form, false)?;
    Ok((problem, rest))
}
