//! What the reader of a text's pairs gives: those that are wanted, and a fault again at every later
//! call.

use dxf_groups::{CodeTest, Groups};
use std::alloc::Global;
use std::fmt::Write;
use std::test::Fail;
use test_files::{Row, file_bytes, rows_tell};

/// A row a text, with `|` for the end of a line, and the greatest code that is wanted; and what the
/// reader of its pairs answers to three calls.
const ANSWERS: &str = "\
0|SECTION|2|ENTITIES|0|EOF; 2 -> 0, 2, end
0|SECTION|2|ENTITIES|0|EOF; 1 -> 0, end, end
0|EOF|x; 9999 -> end, end, end
5|A0|8|FRONT|-3|x|999|0|0|LINE|0|EOF; 5 -> 5, -3, 0
5|A0|8|FRONT|-3|x|999|0|0|LINE|0|EOF; -1 -> -3, 0, end
999|0|999|EOF|0|LINE; 9999 -> 0, NoEof { line: 7 }, NoEof { line: 7 }
0|SECTION|x|0|0|EOF; 9999 -> 0, BadCode { line: 3 }, BadCode { line: 3 }
8|x|y|0|0|EOF; 7 -> BadCode { line: 3 }, BadCode { line: 3 }, BadCode { line: 3 }
0|SECTION|0; 9999 -> 0, NoValue { line: 3 }, NoValue { line: 3 }
8|x|8; 7 -> NoValue { line: 3 }, NoValue { line: 3 }, NoValue { line: 3 }
0|SECTION|; 9999 -> 0, NoEof { line: 3 }, NoEof { line: 3 }
AutoCAD Binary DXF; 9999 -> Binary { line: 1 }, Binary { line: 1 }, Binary { line: 1 }";

/// The codes up to this one.
#[derive(Clone, Copy)]
struct UpTo(i32);

impl CodeTest for UpTo {
    ghost use Rattle.std.specs.Prelude.{int_le};

    ghost wanted = { λ s code. int_le code s.0 };

    fn wants(&self, code: i32) -> bool {
        code <= self.0
    }
}

/// Adds what a reader answers to one call.
fn push_answer(told: &mut String, groups: &mut Groups, test: &UpTo) -> Result<(), Fail> {
    told.push_str(if told.is_empty() { "" } else { ", " })?;
    match groups.next(test) {
        Ok(Some(pair)) => write!(told, "{}", pair.code)?,
        Ok(None) => told.push_str("end")?,
        Err(fault) => write!(told, "{fault:?}")?,
    }
    Ok(())
}

/// What the reader of a row's text answers, as the row has it.
fn told_answers(alloc: Global, row: Row<'_>) -> Result<String, Fail> {
    let [lines, most, ..] = row.parts;
    let text = lines.replace(alloc, "|", "\n")?;
    let test = UpTo(most.parse()?);
    let mut groups = Groups::new(file_bytes(text)?);
    let mut told = String::new(alloc);
    for _call in 0..3 {
        push_answer(&mut told, &mut groups, &test)?;
    }
    Ok(told)
}

#[test]
fn wanted_pairs_are_given(rt: HostRuntime) -> Result<(), Fail> {
    rows_tell(ANSWERS, |row| told_answers(rt.alloc(), row))
}
