//! The text of a fault.
//!
//! A function of its own, with a contract: the texts of `thiserror`, with which faults are
//! declared, have none.

ghost use Rattle.std.specs.Prelude.{◌≡◌, ◌++◌, codes, IfOk, OnOk};
ghost use Rattle.std.specs.Option.{option_map};
ghost use Rattle.report.specs.FaultText.{plain, at_line, at_code, in_view, too_many, names_of};
ghost use Rattle.report.specs.FaultText.{letter_of, part_text, parts_text, fault_text};
ghost use Rattle.solid_model.specs.Frames.{layer_name};

use crate::text::push_number;
use itoa::Integer;
use solid_model::{Axis, Fault, Memory, View};
use std::alloc::Global;
use std::marker::Model;

/// What the text of a fault tells: its number and name, and what it names.
#[derive(Drop)]
struct FaultNames {
    name: &'static str,
    line: Option<u32>,
    code: Option<i32>,
    view: Option<View>,
    axis: Option<Axis>,
    count: Option<u32>,
}

impl Model for FaultNames {
    ghost use Rattle.report.specs.FaultText.{FaultNames};

    ghost Value = { FaultNames };

    ghost view = { λ s. record {
      name = s.name.now;
      line = s.line;
      code = s.code;
      view = s.view;
      axis = s.axis;
      count = s.count;
    } };
}

/// It names nothing.
fn plain(name: &'static str) -> FaultNames
    ensures { result ≡ plain name.now }
{
    FaultNames {
        name,
        line: None,
        code: None,
        view: None,
        axis: None,
        count: None,
    }
}

/// It names a line.
fn at_line(name: &'static str, line: u32) -> FaultNames
    ensures { result ≡ at_line name.now line }
{
    let mut names = plain(name);
    names.line = Some(line);
    names
}

/// It names the line of a coordinate, and its group code.
fn at_code(name: &'static str, line: u32, code: i32) -> FaultNames
    ensures { result ≡ at_code name.now line code }
{
    let mut names = at_line(name, line);
    names.code = Some(code);
    names
}

/// It names an empty view.
fn in_view(name: &'static str, view: View) -> FaultNames
    ensures { result ≡ in_view name.now view }
{
    let mut names = plain(name);
    names.view = Some(view);
    names
}

/// It names how many there are, along an axis where it is one.
fn too_many(name: &'static str, axis: Option<Axis>, count: u32) -> FaultNames
    ensures { result ≡ too_many name.now axis count }
{
    let mut names = plain(name);
    names.axis = axis;
    names.count = Some(count);
    names
}

/// What each fault tells.
fn names_of(fault: Fault) -> FaultNames
    ensures { result ≡ names_of fault }
{
    match fault {
        Fault::Binary { line } => at_line("F1 Binary", line),
        Fault::BadCode { line } => at_line("F2 BadCode", line),
        Fault::NoValue { line } => at_line("F3 NoValue", line),
        Fault::NoEof { line } => at_line("F4 NoEof", line),
        Fault::BadSection { line } => at_line("F5 BadSection", line),
        Fault::BadNumber { line, code } => at_code("F6 BadNumber", line, code),
        Fault::NotWhole { line, code } => at_code("F7 NotWhole", line, code),
        Fault::TooFar { line, code } => at_code("F8 TooFar", line, code),
        Fault::Missing { line, code } => at_code("F9 Missing", line, code),
        Fault::Repeated { line, code } => at_code("F10 Repeated", line, code),
        Fault::Oblique { line } => at_line("F11 Oblique", line),
        Fault::Linetype { line } => at_line("F12 Linetype", line),
        Fault::Geometry { line } => at_line("F13 Geometry", line),
        Fault::EmptyView { view } => in_view("F14 EmptyView", view),
        Fault::TooManyLines { line } => at_line("F15 TooManyLines", line),
        Fault::TooLong => plain("F16 TooLong"),
        Fault::TooFine { axis, count } => too_many("F17 TooFine", Some(axis), count),
        Fault::TooManyBlocks { count } => too_many("F18 TooManyBlocks", None, count),
        Fault::Curved { line } => at_line("F19 Curved", line),
        Fault::SectionName { line } => at_line("F20 SectionName", line),
        Fault::NoCut { line } => at_line("F21 NoCut", line),
    }
}

/// The letter of an axis.
fn letter_of(axis: Axis) -> &'static str
    ensures { result.now ≡ letter_of axis }
{
    match axis {
        Axis::X => "x",
        Axis::Y => "y",
        Axis::Z => "z",
    }
}

/// Adds a number after a word for it, where there is one.
fn push_number_part<I: Integer>(
    text: &mut Vec<u8>,
    word: &str,
    part: Option<I>,
) -> Result<(), Memory>
    ensures { OnOk result (text.new.items
        ≡ text.old.items ++ part_text word.now (option_map I.text part)) }
{
    match part {
        Some(number) => {
            text.extend_from_slice(word.as_bytes())?;
            push_number(text, number)
        }
        None => Ok(()),
    }
}

/// Adds a view by its layer, where there is one.
fn push_view(text: &mut Vec<u8>, view: Option<View>) -> Result<(), Memory>
    ensures { OnOk result (text.new.items
        ≡ text.old.items ++ part_text (codes " view ") (option_map layer_name view)) }
{
    match view {
        Some(view) => {
            text.extend_from_slice(b" view ")?;
            text.extend_from_slice(view.layer().as_bytes())?;
            Ok(())
        }
        None => Ok(()),
    }
}

/// Adds an axis by its letter, where there is one.
fn push_axis(text: &mut Vec<u8>, axis: Option<Axis>) -> Result<(), Memory>
    ensures { OnOk result (text.new.items
        ≡ text.old.items ++ part_text (codes " axis ") (option_map letter_of axis)) }
{
    match axis {
        Some(axis) => {
            text.extend_from_slice(b" axis ")?;
            text.extend_from_slice(letter_of(axis).as_bytes())?;
            Ok(())
        }
        None => Ok(()),
    }
}

/// Adds what is named.
fn push_parts(text: &mut Vec<u8>, names: &FaultNames) -> Result<(), Memory>
    ensures { OnOk result (text.new.items ≡ text.old.items ++ parts_text names.now) }
{
    push_number_part(text, " line ", names.line)?;
    push_number_part(text, " code ", names.code)?;
    push_view(text, names.view)?;
    push_axis(text, names.axis)?;
    push_number_part(text, " count ", names.count)
}

/// What is written for a fault: `fault`, its number and name, and what it names, as in
/// `fault F7 NotWhole line 12 code 10`. An `Err` is out of memory.
pub fn fault_text(alloc: Global, fault: &Fault) -> Result<Vec<u8>, Memory>
    ensures { IfOk result (λ text. text.items ≡ fault_text fault.now) }
{
    let names = names_of(*fault);
    let mut text = Vec::from_slice(alloc, b"fault ")?;
    text.extend_from_slice(names.name.as_bytes())?;
    push_parts(&mut text, &names)?;
    text.extend_from_slice(b"\n")?;
    Ok(text)
}
