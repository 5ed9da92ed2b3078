//! Runs that a settled piece of a stroke is joined to.

ghost use Rattle.std.specs.Prelude.{◌≡◌, ◌≢◌, IfOk};
ghost use Rattle.solid_model.specs.declared.segment.Style.TheVariants.{Blank};
ghost use Rattle.solid_model.specs.Runs.{AreRuns};
ghost use Rattle.views.specs.Joined.{run_of, goes_on, as_far_as, EndBy, AreWith};

use crate::strokes::Stroke;
use solid_model::Run;
use std::alloc::AllocError;

/// The piece, as a run.
fn run_of(piece: Stroke) -> Run
    ensures { result ≡ run_of piece }
{
    Run {
        at: piece.at,
        from: piece.from,
        to: piece.to,
        style: piece.style,
    }
}

/// The piece goes on with the run: it begins where the run ends, in the same style.
fn goes_on(run: Run, piece: Stroke) -> bool
    ensures { result ≡ goes_on run piece }
{
    run.at == piece.at && run.to == piece.from && run.style == piece.style
}

/// The run, as far as the piece goes.
fn as_far_as(run: Run, piece: Stroke) -> Run
    ensures { result ≡ as_far_as run piece }
{
    Run {
        to: piece.to,
        ..run
    }
}

/// The runs and then the piece, which is joined to the last run where it goes on with it. A piece
/// of no length changes nothing.
pub fn with_piece(mut runs: Vec<Run>, piece: Stroke) -> Result<Vec<Run>, AllocError>
    requires runs { AreRuns runs.items }
    requires before { EndBy piece.at piece.from runs.items }
    requires drawn { piece.style ≢ Blank }
    ensures { IfOk result (λ joined. AreWith piece runs.items joined.items) }
{
    if piece.to <= piece.from {
        return Ok(runs);
    }
    match runs.pop() {
        None => runs.push(run_of(piece))?,
        Some(last) if goes_on(last, piece) => runs.push(as_far_as(last, piece))?,
        Some(last) => {
            runs.push(last)?;
            runs.push(run_of(piece))?;
        }
    }
    Ok(runs)
}
