//! The maximal runs of a grid's segments.

ghost use Rattle.std.specs.Prelude.{◌≡◌, ◌<◌, ◌*◌, ◌-◌, length, ◌<ℤ◌, IfOk};
ghost use Rattle.lemmas.specs.Lists.{Each, Ascends};
ghost use Rattle.solid_model.specs.Runs.{AreRuns};
ghost use Rattle.redraw.specs.GridRuns.{IsStretchEnd, IsWithLine, AreRunsOn};

use solid_model::{Run, Style};
use std::alloc::{AllocError, Global};

/// The first cell behind one that has another style, or how many cells there are, where all of them
/// have this style.
fn stretch_end(styles: &[Style], from: usize) -> usize
    requires { from < length styles.now }
    ensures { IsStretchEnd styles.now from result }
{
    for cell in from + 1..styles.len() {
        if styles[cell] != styles[from] {
            return cell;
        }
    }
    styles.len()
}

/// The runs, and those of a later line: its cells have these styles, and these ends, one more than
/// there are cells.
fn with_line(
    mut runs: Vec<Run>,
    at: i64,
    ends: &[i64],
    styles: &[Style],
) -> Result<Vec<Run>, AllocError>
    requires ends { Ascends ◌<ℤ◌ ends.now }
    requires count { length styles.now ≡ length ends.now - 1 }
    requires runs { AreRuns runs.items }
    requires earlier { Each (λ r. r.at <ℤ at) runs.items }
    ensures { IfOk result (λ more. IsWithLine at ends.now styles.now runs.items more.items) }
{
    let mut cell = 0;
    while cell < styles.len() {
        let end = stretch_end(styles, cell);
        if styles[cell] != Style::Blank {
            runs.push(Run {
                at,
                from: ends[cell],
                to: ends[end],
                style: styles[cell],
            })?;
        }
        cell = end;
    }
    Ok(runs)
}

/// The runs of the cells that lie between these ends on these lines, and have these styles, line by
/// line.
pub fn runs_on(
    alloc: Global,
    lines: &[i64],
    ends: &[i64],
    styles: &[Style],
) -> Result<Vec<Run>, AllocError>
    requires lines { Ascends ◌<ℤ◌ lines.now }
    requires ends { Ascends ◌<ℤ◌ ends.now }
    requires count { length styles.now ≡ length lines.now * (length ends.now - 1) }
    ensures { IfOk result (λ runs. AreRunsOn lines.now ends.now styles.now runs.items) }
{
    let width = ends.len().saturating_sub(1);
    let mut runs = Vec::new(alloc);
    for (place, line) in lines.iter().enumerate() {
        let first = place * width;
        runs = with_line(runs, *line, ends, &styles[first..first + width])?;
    }
    Ok(runs)
}
