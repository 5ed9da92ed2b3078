//! The texts of solids, one after another in the same buffers.
//!
//! One solid's text is held at a time, with the lines of its planes and of the solid before it: so
//! memory doesn't go with how many solids are told.

ghost use Rattle.std.specs.Prelude.{◌≡◌, ◌≤◌, Bool, List, IfOk};
ghost use Rattle.report.specs.Texts.{solid_text};
ghost use Rattle.solid_model.specs.declared.cell.Cell.{Cell};
ghost use Rattle.solid_model.specs.Choices.{cells_of_choice};
ghost use Rattle.solid_model.specs.Faces.{FaceParts, AreFacesOf};
ghost use Rattle.solid_model.specs.Grid.{IsUnionOf};
ghost use Rattle.solid_model.specs.Limits.{most_decimals};
ghost use Rattle.solid_model.specs.Panels.{coordinates_of};
ghost use Rattle.solid_model.specs.Volumes.{volume_of};

use crate::plane_texts::PlaneTexts;
use crate::solid::push_solid_line;
use crate::volumes::{block_volumes, chosen_sum};
use cell_rows::{BlockRows, CellRows};
use solid_model::{Choice, Memory, Problem};
use std::alloc::Global;
use std::marker::Model;

/// What the texts of all solids of a problem need, made once. Contracts see the problem, and how
/// many decimals coordinates have.
#[derive(Debug, Drop)]
pub struct SolidTexts<'a> {
    problem: &'a Problem,
    decimals: u8,
    blocks: BlockRows<'a>,
    volumes: Vec<u128>,
}

impl<'a> Model for SolidTexts<'a> {
    ghost use Rattle.std.specs.Prelude.{◌≡◌, ◌≤◌};
    ghost use Rattle.report.specs.Texts.{TextsParts};
    ghost use Rattle.report.specs.Volumes.{AreVolumes};
    ghost use Rattle.solid_model.specs.Limits.{most_decimals};
    ghost use Rattle.solid_model.specs.Panels.{coordinates_of};

    ghost Value = { TextsParts };

    ghost view = { λ s. record { problem = s.problem.now; decimals = s.decimals } };

    ghost invariant = { λ s. (s.blocks ≡ s.problem.now.blocks)
        × AreVolumes (coordinates_of s.problem.now.grid) s.problem.now.blocks.numbers
        s.volumes.items
        × (s.decimals ≤ most_decimals) };
}

/// Buffers for one solid at a time: its rows of cells, the lines of its faces, and its text.
#[derive(Debug, Drop)]
pub struct SolidBuffers {
    pub rows: CellRows,
    pub planes: PlaneTexts,
    pub text: Vec<u8>,
}

impl<'a> SolidTexts<'a> {
    ghost use Rattle.std.specs.Prelude.{◌≡◌, ◌≤◌, IfOk};
    ghost use Rattle.solid_model.specs.Limits.{most_decimals};

    /// The texts of the solids of a problem. Planes and coordinates are told as numbers of units of
    /// ten to the power of minus `decimals`, which are at most 6: each is divided by ten to that
    /// power, and has so many digits behind the point. An `Err` is out of memory.
    pub fn of(alloc: Global, problem: &'a Problem, decimals: u8) -> Result<SolidTexts<'a>, Memory>
        requires { decimals ≤ most_decimals }
        ensures { IfOk result (λ texts. (texts.problem ≡ problem.now)
            × (texts.decimals ≡ decimals)) }
    {
        let blocks = BlockRows::of(alloc, problem)?;
        let volumes = block_volumes(alloc, problem)?;
        Ok(SolidTexts {
            problem,
            decimals,
            blocks,
            volumes,
        })
    }
}

impl SolidTexts<'_> {
    ghost use Rattle.std.specs.Prelude.{◌≡◌, Bool, List, IfOk, OnOk};
    ghost use Rattle.report.specs.Texts.{solid_text};
    ghost use Rattle.solid_model.specs.declared.cell.Cell.{Cell};
    ghost use Rattle.solid_model.specs.Choices.{cells_of_choice};
    ghost use Rattle.solid_model.specs.Faces.{FaceParts, AreFacesOf};
    ghost use Rattle.solid_model.specs.Grid.{IsUnionOf};
    ghost use Rattle.solid_model.specs.Panels.{coordinates_of};
    ghost use Rattle.solid_model.specs.Volumes.{volume_of};

    /// Buffers for these texts. An `Err` is out of memory.
    pub fn buffers(&self, alloc: Global) -> Result<SolidBuffers, Memory>
        ensures { IfOk result (λ buffers. buffers.rows.sizes ≡ self.now.problem.blocks.sizes) }
    {
        let rows = CellRows::blank(alloc, self.problem)?;
        let planes = PlaneTexts::of(alloc, self.problem.grid(), self.decimals)?;
        Ok(SolidBuffers {
            rows,
            planes,
            text: Vec::new(alloc),
        })
    }

    /// Makes the text of the solid of this number that a choice of the problem's blocks fills, in
    /// the place of what the buffers held: a line `solid K choice C volume V faces F`, and then a
    /// line for each face, `face D at P` with ` loop x,y,z x,y,z ..` for each of its loops. An `Err`
    /// is out of memory.
    pub fn tell(
        &self,
        alloc: Global,
        number: u32,
        choice: &Choice,
        buffers: &mut SolidBuffers,
    ) -> Result<(), Memory>
        requires { buffers.old.rows.sizes ≡ self.now.problem.blocks.sizes }
        ensures sizes { buffers.new.rows.sizes ≡ self.now.problem.blocks.sizes }
        ensures text { OnOk result ((faces : List FaceParts)
            × ((full : Cell → Bool) → IsUnionOf (coordinates_of self.now.problem.grid)
            (cells_of_choice self.now.problem.blocks.numbers choice.now) full
            → AreFacesOf full faces)
            × (buffers.new.text.items ≡ solid_text self.now.decimals number choice.now
            (volume_of (coordinates_of self.now.problem.grid)
            (cells_of_choice self.now.problem.blocks.numbers choice.now)) faces)) }
    {
        buffers.rows.fill(&self.blocks, choice);
        let grid = self.problem.grid();
        buffers
            .planes
            .update(alloc, grid, self.decimals, &buffers.rows)?;
        let volume = chosen_sum(self.volumes.as_slice(), choice);
        let faces = buffers.planes.count();
        buffers.text.clear();
        push_solid_line(&mut buffers.text, number, choice, volume, faces)?;
        buffers.planes.push(&mut buffers.text)?;
        Ok(())
    }
}

/// The text of the solid of this number that a choice of a problem's blocks fills, as
/// [`SolidTexts::tell`] makes it, with at most 6 decimals. An `Err` is out of memory.
pub fn solid_text(
    alloc: Global,
    problem: &Problem,
    number: u32,
    choice: &Choice,
    decimals: u8,
) -> Result<Vec<u8>, Memory>
    requires { decimals ≤ most_decimals }
    ensures { IfOk result (λ text. (faces : List FaceParts)
        × ((full : Cell → Bool) → IsUnionOf (coordinates_of problem.now.grid)
        (cells_of_choice problem.now.blocks.numbers choice.now) full → AreFacesOf full faces)
        × (text.items ≡ solid_text decimals number choice.now
        (volume_of (coordinates_of problem.now.grid)
        (cells_of_choice problem.now.blocks.numbers choice.now)) faces)) }
{
    let texts = SolidTexts::of(alloc, problem, decimals)?;
    let mut buffers = texts.buffers(alloc)?;
    texts.tell(alloc, number, choice, &mut buffers)?;
    Ok(buffers.text)
}
