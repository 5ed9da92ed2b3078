//! The run of a command.

ghost use Rattle.std.specs.Prelude.{◌≡◌, false, true, length, map, string_bytes, Err};
ghost use Rattle.replies.specs.declared.status.Answer.TheVariants as answers;
ghost use Rattle.replies.specs.declared.status.Failure.TheVariants.{ReadFault, WriteFault};
ghost use Rattle.file_problem.specs.Inputs.{IsFileFault};
ghost use Rattle.recon_run.specs.Answers.{CanEnd};
ghost use Rattle.recon_run.specs.Endings.{AnswersOrFails, Ends, OfInput, OfSearch, owed_to};
ghost use Rattle.recon_run.specs.Owed.{most_read, owed_for, reads_source};
ghost use Rattle.replies.specs.Status.{Status, status_code, failure_code};
ghost use Rattle.recon_run.specs.Searched.{AsksFor, ReadsIn};
ghost use Rattle.recon_run.specs.Solve.{Solves};
ghost use Rattle.solid_model.specs.declared.ended.EndKind.TheVariants.{Whole};
ghost use Rattle.solid_model.specs.declared.fault.Fault.{Fault};
ghost use Rattle.tv_base.specs.Faults.{Rose};
ghost use Rattle.tv_base.specs.Pieces.{ReadsWithin};
ghost use Rattle.words.specs.Jobs.{AreWorkers, IsCounted};

use crate::answering::answer_source;
use crate::crew::Crew;
use crate::export::Export;
use crate::profile::{Profile, layers_or};
use crate::question::{AllSolids, OneSolid, Question};
use crate::trial::{made_file, trial};
use dxf_entities::LayerSet;
use replies::{Answer, Failure, Status, code, write_reply};
use std::alloc::Global;
use std::sync::Wait;
use std::thread::Threads;
use tv_base::{Gate, Sink, Source};
use words::{Job, WordFault, job_of};

/// The usage line.
const USAGE: &str = "usage: recon solve|redraw|make|trial\n";

/// How many work at a job.
fn workers_of(job: &Job) -> u32
    requires { IsCounted job.now }
    ensures { AreWorkers result }
{
    match *job {
        Job::Solve { workers, .. } => workers,
        Job::Redraw { workers, .. } => workers,
        Job::Stl { workers, .. } => workers,
        Job::Prove { workers, .. } => workers,
        Job::Ask { workers, .. } => workers,
        Job::Trial { workers, .. } => workers,
        Job::Check { .. } | Job::Blocks { .. } | Job::Make { .. } => 1,
    }
}

/// How what a job reads is read.
fn profile_of(job: &Job) -> Profile
    requires counted { IsCounted job.now }
    requires reads { reads_source (owed_for job.now) ≡ true }
    ensures { ReadsIn (owed_for job.now) result }
{
    match *job {
        Job::Solve {
            decimals,
            two_views,
            sections,
            ..
        } => Profile::drawing(layers_or(sections, LayerSet::Six), decimals, two_views),
        Job::Redraw {
            decimals,
            two_views,
            sections,
            ..
        } => Profile::drawing(layers_or(sections, LayerSet::Six), decimals, two_views),
        Job::Stl {
            two_views,
            sections,
            ..
        } => Profile::drawing(layers_or(sections, LayerSet::Main), 0, two_views),
        Job::Prove { two_views, .. } => Profile::drawing(LayerSet::Main, 0, two_views),
        Job::Ask { two_views, .. } => Profile::drawing(LayerSet::Main, 0, two_views),
        Job::Check {
            two_views,
            sections,
        } => Profile::with_log(layers_or(sections, LayerSet::Main), two_views),
        Job::Blocks {
            decimals,
            two_views,
        } => Profile::drawing(LayerSet::Main, decimals, two_views),
        Job::Make { .. } => unreachable!(),
        Job::Trial { .. } => unreachable!(),
    }
}

/// What a job asks of what it reads.
fn question_of(job: &Job) -> Question
    requires counted { IsCounted job.now }
    requires reads { reads_source (owed_for job.now) ≡ true }
    ensures { AsksFor (owed_for job.now) result }
{
    match *job {
        Job::Solve { limits, pages, .. } => Question::AllSolids(AllSolids { limits, pages }),
        Job::Redraw { which, limits, .. } => Question::OneSolid(OneSolid {
            export: Export::Drawing,
            which,
            limits,
        }),
        Job::Stl { which, limits, .. } => Question::OneSolid(OneSolid {
            export: Export::Triangles,
            which,
            limits,
        }),
        Job::Prove { limits, .. } => Question::Log(limits),
        Job::Check { .. } => Question::Check,
        Job::Ask { limits, .. } => Question::Session(limits),
        Job::Blocks { .. } => Question::Blocks,
        Job::Make { .. } => unreachable!(),
        Job::Trial { .. } => unreachable!(),
    }
}

/// Does a job over what the source has left.
fn do_job<R: Threads + Wait + Sync, S: Source, K: Sink, G: Gate>(
    rt: &R,
    alloc: Global,
    job: Job,
    source: &mut S,
    sink: &mut K,
    gate: &G,
) -> Status
    requires counted { IsCounted job }
    ensures ends { Ends (owed_for job) (S.left source.old) (S.left source.new) (K.held sink.old)
        (K.held sink.new) (Rose (S.faults source.old) (S.faults source.new))
        (Rose (K.faults sink.old) (K.faults sink.new)) result }
    ensures unread { reads_source (owed_for job) ≡ false → source.new ≡ source.old }
    ensures within { ReadsWithin (S.left source.old) (S.left source.new)
        (most_read (owed_for job)) }
    ensures unwritten { result ≡ Err ReadFault → sink.new ≡ sink.old }
{
    let workers = workers_of(&job);
    let crew = Crew { rt, workers, gate };
    match job {
        Job::Make { n } => write_reply(Answer::Done, made_file(alloc, n)?.as_slice(), sink),
        Job::Trial { n, .. } => {
            write_reply(Answer::Done, trial(alloc, n, &crew)?.as_slice(), sink)
        }
        _ => {
            let (profile, question) = (profile_of(&job), question_of(&job));
            answer_source(alloc, &crew, &profile, &question, source, sink)
        }
    }
}

/// Does what the arguments ask for.
fn answer<R: Threads + Wait + Sync, S: Source, K: Sink, G: Gate>(
    rt: &R,
    alloc: Global,
    words: &[String],
    source: &mut S,
    sink: &mut K,
    gate: &G,
) -> Status
    ensures ends { Ends (owed_to (map string_bytes words.now)) (S.left source.old)
        (S.left source.new) (K.held sink.old) (K.held sink.new)
        (Rose (S.faults source.old) (S.faults source.new))
        (Rose (K.faults sink.old) (K.faults sink.new)) result }
    ensures unread { reads_source (owed_to (map string_bytes words.now)) ≡ false
        → source.new ≡ source.old }
    ensures within { ReadsWithin (S.left source.old) (S.left source.new)
        (most_read (owed_to (map string_bytes words.now))) }
    ensures read_fault { result ≡ Err ReadFault
        → Rose (S.faults source.old) (S.faults source.new) × (sink.new ≡ sink.old) }
    ensures write_fault { result ≡ Err WriteFault
        → Rose (K.faults sink.old) (K.faults sink.new) }
{
    match job_of(alloc, words) {
        Ok(job) => do_job(rt, alloc, job, source, sink, gate),
        Err(WordFault::Usage) => write_reply(Answer::Usage, USAGE.as_bytes(), sink),
        Err(WordFault::Memory) => Err(Failure::Memory),
    }
}

/// Runs the command that the arguments give, the program's `words`.
///
/// `solve` writes all solids of the drawing that the source's bytes show, within the limits that
/// the options `--nodes` and `--solids` give, and with `--pages` pages of them while it finds them:
/// those that match its three main views and fit its further ones, from the left, the rear and below;
/// `redraw` writes the drawing of one of these, by its number. Of the solids that match the three main
/// views `stl` writes the boundary of one as triangles, by its number; `prove` writes a log that
/// shows that these are all, and `check` says whether what stands behind the drawing is such a log,
/// with the choices that it lists, or which of its lines is the first that is wrong, and why; `ask`
/// lets readers look at the growing list of these, as the lines behind the drawing ask, and writes
/// what they tell and then all solids; `blocks` writes where the drawing's blocks are, without a
/// search; `make` writes a drawing that is made from a number, and `trial` what a search of that
/// drawing finds. As many work at a search as `--workers` says, and they pass the gate at their
/// points; the run waits for them, and what it answers doesn't depend on their number. Other words
/// give the usage line.
///
/// With `--sections` `solve`, `redraw`, `stl` and `check` read further views and sections: the first
/// three then speak of the solids that match the main views and fit these, and `check` says how many
/// of those that a right log shows to be all fit them, and which.
///
/// A solid matches a drawing if it shows what is drawn in each view that is drawn: a view that shows
/// nothing demands nothing. Each of the three views must show something; with `--two-views` one of
/// them may show nothing.
///
/// The status is 0 where a search was whole and lists all matching solids, a drawing, a log or where
/// blocks are is written, or a log is one; 1 where what is read has a fault, 2 where the arguments aren't taken,
/// 3 or 4 where there are more live prefixes, or more solids, than their limit, 5 or 6 where the
/// source or the sink failed, 7 where it ran out of memory, 8 where there is no solid of the number
/// that `redraw` or `stl` is given, 9 where a log is refused, 10 where a search was stopped by a
/// reader, and 11 where what readers are asked is refused.
pub fn run<R: Threads + Wait + Sync, S: Source, K: Sink, G: Gate>(
    rt: &R,
    alloc: Global,
    words: &[String],
    source: &mut S,
    sink: &mut K,
    gate: &G,
) -> u8
    ensures solve { Solves (map string_bytes words.now) (S.left source.old) (K.held sink.old)
        (K.held sink.new) result }

    ensures ends { (status : Status) × (result ≡ status_code status)
        × Ends (owed_to (map string_bytes words.now)) (S.left source.old) (S.left source.new)
        (K.held sink.old) (K.held sink.new) (Rose (S.faults source.old) (S.faults source.new))
        (Rose (K.faults sink.old) (K.faults sink.new)) status }

    ensures fault { OfInput (owed_to (map string_bytes words.now)) (S.left source.old)
        (λ input. (fault : Fault) → IsFileFault input fault
        → AnswersOrFails answers.Faulty result) }
    ensures whole { OfSearch (owed_to (map string_bytes words.now)) (S.left source.old)
        (λ s input. (c : CanEnd s.limits input Whole)
        → AnswersOrFails (s.whole input (length c.solids)) result) }

    ensures unread { reads_source (owed_to (map string_bytes words.now)) ≡ false
        → source.new ≡ source.old }
    ensures within { ReadsWithin (S.left source.old) (S.left source.new)
        (most_read (owed_to (map string_bytes words.now))) }
    ensures read_fault { result ≡ failure_code ReadFault
        → Rose (S.faults source.old) (S.faults source.new) × (sink.new ≡ sink.old) }
{
    code(answer(rt, alloc, words, source, sink, gate))
}
