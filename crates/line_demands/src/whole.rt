//! Whether a solid matches, once every block is decided: all drawn lines are looked at together.
//!
//! A search asks it at full length only where no line is broken, so that a broken one costs a look.

ghost use Rattle.std.specs.Prelude.{◌≡◌, ◌↔◌, ◌<◌, false, length, IsTrue, IfOk};
ghost use Rattle.solid_model.specs.declared.segment.Style.TheVariants.{Blank};
ghost use Rattle.lemmas.specs.Lists.{Each};
ghost use Rattle.line_demands.specs.Lines.{AreBeside};
ghost use Rattle.line_demands.specs.WholeChoices.{AreDrawnOf, ListDrawn, AreStylesOf, ArePackedOf, DrawTheirStyles};

use crate::known::KnownColumn;
use crate::lines::Beside;
use column_lanes::{style_byte, styles};
use solid_model::{Memory, Style};
use std::alloc::Global;

/// The lines that are drawn, by their numbers in the order of all lines.
#[derive(Debug, Drop)]
pub struct DrawnLines {
    numbers: Vec<usize>,
    /// The full cells of the columns after and before each, and the styles that they draw, as they
    /// were looked at last.
    after: Vec<u64>,
    before: Vec<u64>,
    drawn: Vec<u8>,
    /// Their own styles.
    wanted: Vec<u8>,
}

/// Something is drawn.
fn is_drawn(style: Style) -> bool
    ensures { result ≡ false → style ≡ Blank }
{
    match style {
        Style::Blank => false,
        Style::Dashed => true,
        Style::Solid => true,
    }
}

/// The numbers of the lines that are drawn, in their order. An `Err` is out of memory.
pub fn drawn_lines(alloc: Global, sides: &[Beside]) -> Result<Vec<usize>, Memory>
    ensures { IfOk result (λ numbers. ListDrawn sides.now (length sides.now) numbers.items) }
{
    let mut numbers = Vec::new(alloc);
    for number in 0..sides.len() {
        if is_drawn(sides[number].style) {
            numbers.push(number)?;
        }
    }
    Ok(numbers)
}

/// The styles of lines, by their numbers, as bytes. An `Err` is out of memory.
pub fn wanted_styles(alloc: Global, sides: &[Beside], numbers: &[usize]) -> Result<Vec<u8>, Memory>
    requires { Each (λ n. n < length sides.now) numbers.now }
    ensures count { IfOk result (λ bytes. length bytes.items ≡ length numbers.now) }
    ensures styles { IfOk result (λ bytes. AreStylesOf sides.now numbers.now bytes.items) }
{
    let mut bytes = Vec::with_capacity(alloc, numbers.len())?;
    for number in numbers {
        bytes.push(style_byte(sides[*number].style))?;
    }
    Ok(bytes)
}

/// Puts the full cells of the columns after and before each of some lines, told by their numbers.
fn pack(
    columns: &[KnownColumn],
    sides: &[Beside],
    numbers: &[usize],
    after: &mut [u64],
    before: &mut [u64],
)
    requires columns { AreBeside (length columns.now) sides.now }
    requires lines { Each (λ n. n < length sides.now) numbers.now }
    requires after { length after.old ≡ length numbers.now }
    requires before { length before.old ≡ length numbers.now }
    ensures { ArePackedOf columns.now sides.now numbers.now (length numbers.now) after.new
        before.new }
{
    for place in 0..numbers.len() {
        let beside = sides[numbers[place]];
        after[place] = columns[beside.after as usize].full;
        before[place] = columns[beside.before as usize].full;
    }
}

impl DrawnLines {
    /// The lines among these that are drawn. An `Err` is out of memory.
    pub fn of(alloc: Global, sides: &[Beside]) -> Result<DrawnLines, Memory>
        ensures { IfOk result (λ lines. AreDrawnOf sides.now lines) }
    {
        let numbers = drawn_lines(alloc, sides)?;
        let count = numbers.len();
        let after = vec![in alloc; 0; count]?;
        let before = vec![in alloc; 0; count]?;
        let drawn = vec![in alloc; 0; count]?;
        let wanted = wanted_styles(alloc, sides, numbers.as_slice())?;
        Ok(DrawnLines {
            numbers,
            after,
            before,
            drawn,
            wanted,
        })
    }

    /// Whether the full cells of the columns beside each of them draw its style.
    pub fn are_drawn_by(&mut self, columns: &[KnownColumn], sides: &[Beside]) -> bool
        requires columns { AreBeside (length columns.now) sides.now }
        requires lines { AreDrawnOf sides.now self.old }
        ensures lines { AreDrawnOf sides.now self.new }
        ensures drawn { IsTrue result ↔ DrawTheirStyles columns.now sides.now self.old.numbers.items }
    {
        pack(
            columns,
            sides,
            self.numbers.as_slice(),
            self.after.as_mut_slice(),
            self.before.as_mut_slice(),
        );
        styles(
            self.after.as_slice(),
            self.before.as_slice(),
            self.drawn.as_mut_slice(),
        );
        self.drawn.as_slice() == self.wanted.as_slice()
    }
}
