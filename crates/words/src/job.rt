//! Jobs, and the words that ask for them.

ghost use Rattle.std.specs.Prelude.{◌≡◌, ◌≤◌, false, None, Some, map, drop, string_bytes, MatchResult};
ghost use Rattle.std.specs.List.{list_any};
ghost use Rattle.solid_model.specs.Limits.{most_solid_limit};
ghost use Rattle.words.specs.declared.job.Job.TheVariants as job;
ghost use Rattle.words.specs.declared.job.WordFault.TheVariants as word_fault;
ghost use Rattle.words.specs.Barred.{is_barred_word};
ghost use Rattle.words.specs.Jobs.{commands, job_said, said_among};

use crate::barred::some_barred;
use crate::said::{DECIMALS, NODES, SOLIDS, Said, WORKERS, said_by};
use crate::table::{Range, Row, Rows};
use solid_model::Limits;
use std::alloc::Global;

/// What the words ask for. Where a drawing is read, they say whether two views of it are enough:
/// then one of the three may show nothing; and whether sections are read too.
#[derive(Clone, Copy, Debug)]
pub enum Job {
    /// A search for the solids of a drawing whose coordinates have so many decimals, by so many
    /// workers, with pages or without.
    Solve {
        workers: u32,
        limits: Limits,
        pages: bool,
        decimals: u8,
        two_views: bool,
        sections: bool,
    },
    /// The drawing of one of these solids, by its number, counted from 1.
    Redraw {
        which: u32,
        workers: u32,
        limits: Limits,
        decimals: u8,
        two_views: bool,
        sections: bool,
    },
    /// The boundary of one of these solids as triangles, by its number.
    Stl {
        which: u32,
        workers: u32,
        limits: Limits,
        two_views: bool,
        sections: bool,
    },
    /// What shows that a search for all these solids was complete.
    Prove {
        workers: u32,
        limits: Limits,
        two_views: bool,
    },
    /// The check of what is said to show that, behind a drawing.
    Check {
        two_views: bool,
        sections: bool,
    },
    /// What readers of the growing list of these solids are asked, behind a drawing.
    Ask {
        workers: u32,
        limits: Limits,
        two_views: bool,
    },
    /// Where the blocks of a drawing are whose coordinates have so many decimals.
    Blocks {
        decimals: u8,
        two_views: bool,
    },
    /// The drawing that is made from a number.
    Make {
        n: u64,
    },
    /// A search for the solids of that drawing.
    Trial {
        n: u64,
        workers: u32,
    },
}

/// Why there is no job.
#[derive(Clone, Copy, Debug, PartialEq, Eq)]
pub enum WordFault {
    /// The words aren't taken.
    Usage,
    /// Out of memory.
    Memory,
}

const SEEDS: Range = Range {
    least: 0,
    most: u64::MAX,
};

const WORKERS_ROW: Row<'static> = Row {
    name: "workers",
    range: Some(WORKERS),
};

const NODES_ROW: Row<'static> = Row {
    name: "nodes",
    range: Some(NODES),
};

const SOLIDS_ROW: Row<'static> = Row {
    name: "solids",
    range: Some(SOLIDS),
};

const PAGES_ROW: Row<'static> = Row {
    name: "pages",
    range: None,
};

const DECIMALS_ROW: Row<'static> = Row {
    name: "decimals",
    range: Some(DECIMALS),
};

const TWO_VIEWS_ROW: Row<'static> = Row {
    name: "two-views",
    range: None,
};

const SECTIONS_ROW: Row<'static> = Row {
    name: "sections",
    range: None,
};

/// What `solve` takes.
static SOLVE: Rows<'static> = Rows {
    options: &[
        WORKERS_ROW,
        NODES_ROW,
        SOLIDS_ROW,
        PAGES_ROW,
        DECIMALS_ROW,
        TWO_VIEWS_ROW,
        SECTIONS_ROW,
    ],
    number: None,
};

/// What `redraw` takes.
static REDRAW: Rows<'static> = Rows {
    options: &[
        WORKERS_ROW,
        NODES_ROW,
        SOLIDS_ROW,
        DECIMALS_ROW,
        TWO_VIEWS_ROW,
        SECTIONS_ROW,
    ],
    number: Some(SOLIDS),
};

/// What `stl` takes.
static STL: Rows<'static> = Rows {
    options: &[
        WORKERS_ROW,
        NODES_ROW,
        SOLIDS_ROW,
        TWO_VIEWS_ROW,
        SECTIONS_ROW,
    ],
    number: Some(SOLIDS),
};

/// What `prove` takes.
static PROVE: Rows<'static> = Rows {
    options: &[WORKERS_ROW, NODES_ROW, SOLIDS_ROW, TWO_VIEWS_ROW],
    number: None,
};

/// What `check` takes.
static CHECK: Rows<'static> = Rows {
    options: &[TWO_VIEWS_ROW, SECTIONS_ROW],
    number: None,
};

/// What `ask` takes.
static ASK: Rows<'static> = Rows {
    options: &[WORKERS_ROW, NODES_ROW, SOLIDS_ROW, TWO_VIEWS_ROW],
    number: None,
};

/// What `blocks` takes.
static BLOCKS: Rows<'static> = Rows {
    options: &[DECIMALS_ROW, TWO_VIEWS_ROW],
    number: None,
};

/// What `make` takes.
static MAKE: Rows<'static> = Rows {
    options: &[],
    number: Some(SEEDS),
};

/// What `trial` takes.
static TRIAL: Rows<'static> = Rows {
    options: &[WORKERS_ROW],
    number: Some(SEEDS),
};

/// What is said to `solve`.
fn solve(said: Said) -> Job
    ensures { result
        ≡ job.Solve said.workers said.limits said.pages said.decimals said.two_views
        said.sections }
{
    Job::Solve {
        workers: said.workers,
        limits: said.limits,
        pages: said.pages,
        decimals: said.decimals,
        two_views: said.two_views,
        sections: said.sections,
    }
}

/// What is said to `redraw`.
fn redraw(said: Said) -> Job
    requires { said.number ≤ most_solid_limit }
    ensures { result
        ≡ job.Redraw said.number said.workers said.limits said.decimals said.two_views
        said.sections }
{
    Job::Redraw {
        which: said.number as u32,
        workers: said.workers,
        limits: said.limits,
        decimals: said.decimals,
        two_views: said.two_views,
        sections: said.sections,
    }
}

/// What is said to `stl`.
fn stl(said: Said) -> Job
    requires { said.number ≤ most_solid_limit }
    ensures { result ≡ job.Stl said.number said.workers said.limits said.two_views
        said.sections }
{
    Job::Stl {
        which: said.number as u32,
        workers: said.workers,
        limits: said.limits,
        two_views: said.two_views,
        sections: said.sections,
    }
}

/// What is said to `prove`.
fn prove(said: Said) -> Job
    ensures { result ≡ job.Prove said.workers said.limits said.two_views }
{
    Job::Prove {
        workers: said.workers,
        limits: said.limits,
        two_views: said.two_views,
    }
}

/// What is said to `ask`.
fn ask(said: Said) -> Job
    ensures { result ≡ job.Ask said.workers said.limits said.two_views }
{
    Job::Ask {
        workers: said.workers,
        limits: said.limits,
        two_views: said.two_views,
    }
}

/// What is said to `blocks`.
fn blocks(said: Said) -> Job
    ensures { result ≡ job.Blocks said.decimals said.two_views }
{
    Job::Blocks {
        decimals: said.decimals,
        two_views: said.two_views,
    }
}

/// What is said to `trial`.
fn trial(said: Said) -> Job
    ensures { result ≡ job.Trial said.number said.workers }
{
    Job::Trial {
        n: said.number,
        workers: said.workers,
    }
}

/// The job of a command, by its name and the words, the first of which is the name too.
#[tactic(auto, unfolding(crate::specs::Said::is_usual))]
fn job_by(alloc: Global, command: &str, words: &[String]) -> Result<Job, WordFault>
    requires { list_any is_barred_word (map string_bytes words.now) ≡ false }
    ensures { MatchResult result
        (λ job. said_among commands command.now (drop 1 (map string_bytes words.now)) ≡ Some job)
        (λ e. e ≡ word_fault.Usage
        → said_among commands command.now (drop 1 (map string_bytes words.now)) ≡ None) }
{
    match command {
        "solve" => Ok(solve(said_by(alloc, &SOLVE, words)?)),
        "redraw" => Ok(redraw(said_by(alloc, &REDRAW, words)?)),
        "stl" => Ok(stl(said_by(alloc, &STL, words)?)),
        "prove" => Ok(prove(said_by(alloc, &PROVE, words)?)),
        "check" => {
            let said = said_by(alloc, &CHECK, words)?;
            Ok(Job::Check {
                two_views: said.two_views,
                sections: said.sections,
            })
        }
        "ask" => Ok(ask(said_by(alloc, &ASK, words)?)),
        "blocks" => Ok(blocks(said_by(alloc, &BLOCKS, words)?)),
        "make" => {
            let said = said_by(alloc, &MAKE, words)?;
            Ok(Job::Make { n: said.number })
        }
        "trial" => Ok(trial(said_by(alloc, &TRIAL, words)?)),
        _ => Err(WordFault::Usage),
    }
}

/// The job that the words ask for: the program's arguments, the first of which is the command.
///
/// `solve` takes `--workers` from 1 to 64, by default 1, `--nodes` from 1 to 4,000,000, by default
/// 1,000,000, `--solids` from 1 to 65,536, by default 4,096, `--decimals` from 0 to 6, by default
/// 0, and `--pages`, which has no value. `redraw` takes these but `--pages`, `stl` the first three,
/// and both a number from 1 to 65,536, which must be there. `prove` and `ask` take the first three,
/// `blocks` `--decimals`. These six and `check` take `--two-views`, and `solve`, `redraw`, `stl` and
/// `check` `--sections`, which have no value either.
/// `make` and `trial` take a number below 2 to the power 64, which must be there, and `trial` takes
/// `--workers`. Options and the number stand in any order, each at most once; an option is written
/// as `--name value` or as `--name=value`, and one without a value as `--name`. A value is one or
/// more digits; leading zeros count for nothing. `Usage` comes exactly where the words aren't taken.
pub fn job_of(alloc: Global, words: &[String]) -> Result<Job, WordFault>
    ensures { MatchResult result
        (λ job. job_said (map string_bytes words.now) ≡ Some job)
        (λ e. e ≡ word_fault.Usage → job_said (map string_bytes words.now) ≡ None) }
{
    if some_barred(words) {
        return Err(WordFault::Usage);
    }
    let [command, ..] = words else {
        return Err(WordFault::Usage);
    };
    job_by(alloc, command.as_str(), words)
}
