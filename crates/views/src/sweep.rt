//! One sweep over the strokes of a view and kind, which makes runs of them.

ghost use Rattle.std.specs.Prelude.{◌≡◌, ℤ, IfOk};
ghost use Rattle.solid_model.specs.Runs.{AreRuns, run_style};
ghost use Rattle.views.specs.Strokes.{AreInOrder, stroke_style};

use crate::joined::with_piece;
use crate::strokes::Stroke;
use solid_model::{Run, Style};
use std::alloc::{AllocError, Global};

/// How far the sweep has come: on the line `at` it stands at `from`. All that is drawn before is in
/// the runs; of the strokes that begin before, the solid ones reach as far as `solid_to`, and the
/// dashed ones as far as `dashed_to`.
#[derive(Debug, Drop)]
struct Sweep {
    runs: Vec<Run>,
    at: i64,
    from: i64,
    solid_to: i64,
    dashed_to: i64,
}

impl Sweep {
    ghost use Rattle.std.specs.Prelude.{◌≡◌, [], ℤ, ◌≤ℤ◌, ◌<ℤ◌, IfOk};
    ghost use Rattle.solid_model.specs.Runs.{AreRuns, run_style};
    ghost use Rattle.views.specs.Strokes.{BeginsFrom};
    ghost use Rattle.views.specs.Sweeps.{solid_piece, dashed_piece, seen_style};
    ghost use Rattle.views.specs.Sweeps.{HasSeen, HasSeenAs, HasSeenWith, KeepsRuns, IsSweepAt};

    /// A sweep that stands where the first stroke begins, and has seen nothing.
    fn before(alloc: Global, first: &Stroke) -> Sweep
        ensures sweep { KeepsRuns result }
        ensures place { IsSweepAt first.now.at first.now.from result }
        ensures drawn { HasSeen [] result }
    {
        Sweep {
            runs: Vec::new(alloc),
            at: first.at,
            from: first.from,
            solid_to: first.from,
            dashed_to: first.from,
        }
    }

    /// What is drawn solid before `until` on the line.
    fn solid_piece(&self, until: i64) -> Stroke
        ensures { result ≡ solid_piece self.now until }
    {
        Stroke {
            at: self.at,
            from: self.from,
            to: self.solid_to.min(until),
            style: Style::Solid,
        }
    }

    /// What is drawn dashed before `until`, which begins where nothing solid is left.
    fn dashed_piece(&self, until: i64) -> Stroke
        ensures { result ≡ dashed_piece self.now until }
    {
        Stroke {
            at: self.at,
            from: self.from.max(self.solid_to),
            to: self.dashed_to.min(until),
            style: Style::Dashed,
        }
    }

    /// Everything before `until` on the line goes into the runs.
    fn settled(self, until: i64) -> Result<Sweep, AllocError>
        requires sweep { KeepsRuns self }
        requires until { self.from ≤ℤ until }
        ensures sweep { IfOk result KeepsRuns }
        ensures place { IfOk result (IsSweepAt self.at until) }
        ensures solid { IfOk result (λ settled. settled.solid_to ≡ self.solid_to) }
        ensures dashed { IfOk result (λ settled. settled.dashed_to ≡ self.dashed_to) }
        ensures drawn { IfOk result (HasSeenAs self) }
    {
        let solid = self.solid_piece(until);
        let dashed = self.dashed_piece(until);
        let runs = with_piece(with_piece(self.runs, solid)?, dashed)?;
        Ok(Sweep {
            runs,
            at: self.at,
            from: until,
            solid_to: self.solid_to,
            dashed_to: self.dashed_to,
        })
    }

    /// On to a later line, when nothing reaches beyond the place on this one.
    fn moved_to(self, at: i64, from: i64) -> Sweep
        requires sweep { KeepsRuns self }
        requires later { self.at <ℤ at }
        requires solid { self.solid_to ≤ℤ self.from }
        requires dashed { self.dashed_to ≤ℤ self.from }
        ensures sweep { KeepsRuns result }
        ensures place { IsSweepAt at from result }
        ensures drawn { HasSeenAs self result }
    {
        Sweep {
            runs: self.runs,
            at,
            from,
            solid_to: from,
            dashed_to: from,
        }
    }

    /// With the stroke, which begins where the sweep stands.
    fn reaching(self, stroke: &Stroke) -> Sweep
        requires sweep { KeepsRuns self }
        requires place { IsSweepAt stroke.now.at stroke.now.from self }
        ensures sweep { KeepsRuns result }
        ensures place { IsSweepAt stroke.now.at stroke.now.from result }
        ensures drawn { HasSeenWith stroke.now self result }
    {
        let mut reaching = self;
        match stroke.style {
            Style::Solid => reaching.solid_to = reaching.solid_to.max(stroke.to),
            Style::Dashed => reaching.dashed_to = reaching.dashed_to.max(stroke.to),
            Style::Blank => {}
        }
        reaching
    }

    /// With the next stroke: what ends before it begins is settled.
    fn with(self, stroke: &Stroke) -> Result<Sweep, AllocError>
        requires sweep { KeepsRuns self }
        requires next { BeginsFrom self.at self.from stroke.now }
        ensures sweep { IfOk result KeepsRuns }
        ensures place { IfOk result (IsSweepAt stroke.now.at stroke.now.from) }
        ensures drawn { IfOk result (HasSeenWith stroke.now self) }
    {
        let sweep = if stroke.at == self.at {
            self.settled(stroke.from)?
        } else {
            self.settled(i64::MAX)?.moved_to(stroke.at, stroke.from)
        };
        Ok(sweep.reaching(stroke))
    }

    /// The runs of all that it has seen.
    fn finished(self) -> Result<Vec<Run>, AllocError>
        requires { KeepsRuns self }
        ensures runs { IfOk result (λ runs. AreRuns runs.items) }
        ensures drawn { IfOk result (λ runs. (j z : ℤ)
            → run_style runs.items j z ≡ seen_style self j z) }
    {
        Ok(self.settled(i64::MAX)?.runs)
    }
}

/// The runs of these strokes, which are in order by line and then start: solid ones win over dashed
/// ones, and what overlaps or meets in one style is one run.
pub fn runs_of(alloc: Global, strokes: &[Stroke]) -> Result<Vec<Run>, AllocError>
    requires { AreInOrder strokes.now }
    ensures runs { IfOk result (λ runs. AreRuns runs.items) }
    ensures drawn { IfOk result (λ runs. (j z : ℤ)
        → run_style runs.items j z ≡ stroke_style strokes.now j z) }
{
    let mut sweep = match strokes.first() {
        None => return Ok(Vec::new(alloc)),
        Some(first) => Sweep::before(alloc, first),
    };
    for stroke in strokes {
        sweep = sweep.with(stroke)?;
    }
    sweep.finished()
}
