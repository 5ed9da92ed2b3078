//! Words, and what they ask for.

use solid_model::Limits;
use std::alloc::Global;
use std::test::Fail;
use test_files::rows_tell;
use words::{Job, WordFault, job_of};

/// Words, divided by commas, and what they ask for: of a search how many work at it, the limits of
/// nodes and of solids, whether there are pages, how many decimals, if there are some, and whether
/// two views are enough.
const WORDS: &str = "\
solve -> solve 1 1000000 4096
 -> usage
solve, --nodes, 3 -> solve 1 3 4096
solve, --nodes=2 -> solve 1 2 4096
solve, --solids, 65536 -> solve 1 1000000 65536
solve, --solids=1 -> solve 1 1000000 1
solve, --nodes, 0003, --solids=0000000000000000000000000000000000000000000007 -> solve 1 3 7
solve, --solids=5, --nodes=4000000 -> solve 1 4000000 5
solve, --solids, 6, --nodes, 1 -> solve 1 1 6
solve, --nodes, 0 -> usage
solve, --nodes=4000001 -> usage
solve, --solids=0 -> usage
solve, --solids, 65537 -> usage
solve, --nodes, 18446744073709551616 -> usage
solve, --nodes, 99999999999999999999999999999999999999999999999 -> usage
solve, --nodes, +3 -> usage
solve, --nodes=+3 -> usage
solve, +3 -> usage
solve, --nodes, -3 -> usage
solve, --nodes=-3 -> usage
solve, --nodes,  3 -> usage
solve, --nodes=3  -> usage
solve, --nodes,  -> usage
solve, --nodes= -> usage
solve, --nodes=x -> usage
solve, --nodes, 1e3 -> usage
solve, --nodes, 0x3 -> usage
solve, --nodes, 1_000 -> usage
solve, --nodes, \u{663} -> usage
solve, --nodes==3 -> usage
solve, --nodes -> usage
solve, --nodes, --solids -> usage
solve, --nodes, --solids, 3 -> usage
solve, --nodes, --solids=3 -> usage
solve, --nodes, 2, --nodes, 2 -> usage
solve, --nodes=2, --solids=3, --nodes=2 -> usage
solve, 4 -> usage
solve, --nodes, 3, 4 -> usage
solve, --nodes=3, 4 -> usage
solve, solve -> usage
solve,  -> usage
solve, - -> usage
solve, -- -> usage
solve, --, --nodes, 3 -> usage
solve, --nodes, 3, -- -> usage
solve, --nodes, -- -> usage
solve, --node, 3 -> usage
solve, --n=3 -> usage
solve, --Nodes, 3 -> usage
solve, -nodes, 3 -> usage
solve, -n, 3 -> usage
solve, --=3 -> usage
solve, --workers, 1 -> solve 1 1000000 4096
solve, --workers, 64 -> solve 64 1000000 4096
solve, --workers=2, --nodes, 0003 -> solve 2 3 4096
solve, --solids=5, --workers=0008 -> solve 8 1000000 5
solve, --workers, 0 -> usage
solve, --workers, 65 -> usage
solve, --workers -> usage
solve, --workers= -> usage
solve, --workers, 2, --workers, 2 -> usage
solve, --worker, 2 -> usage
solve, --pages -> solve 1 1000000 4096 pages
solve, --pages, --workers, 2 -> solve 2 1000000 4096 pages
solve, --solids, 6, --pages, --nodes=1 -> solve 1 1 6 pages
solve, --pages= -> usage
solve, --pages=1 -> usage
solve, --pages=true -> usage
solve, --pages, 1 -> usage
solve, --pages, --pages -> usage
solve, --nodes, --pages -> usage
solve, --page -> usage
solve, --decimals, 0 -> solve 1 1000000 4096
solve, --decimals=6 -> solve 1 1000000 4096 decimals 6
solve, --pages, --decimals, 03 -> solve 1 1000000 4096 pages decimals 3
solve, --decimals, 7 -> usage
solve, --decimals=-1 -> usage
solve, --decimals -> usage
solve, --decimals= -> usage
solve, --decimals, 1, --decimals, 1 -> usage
solve, --decimal, 1 -> usage
solve, --two-views -> solve 1 1000000 4096 two
solve, --decimals, 3, --two-views, --pages -> solve 1 1000000 4096 pages decimals 3 two
solve, --two-views= -> usage
solve, --two-views=1 -> usage
solve, --two-views, 2 -> usage
solve, --two-views, --two-views -> usage
solve, --nodes, --two-views -> usage
solve, --two -> usage
solve, --two-view -> usage
solve, --two_views -> usage
solve, two-views -> usage
solve, --sections, --pages -> solve 1 1000000 4096 pages sections
solve, --sections, --decimals, 3, --two-views -> solve 1 1000000 4096 decimals 3 two sections
solve, --sections= -> usage
solve, --sections, --sections -> usage
solve, --section -> usage
solve, --number, 3 -> usage
solve, -h -> usage
solve, --help -> usage
solve, help -> usage
solve, -V -> usage
solve, --version -> usage
sovle -> usage
solv -> usage
Solve -> usage
solve  -> usage
--nodes, 3, solve -> usage
redraw, 3 -> redraw 3 1 1000000 4096
redraw, 0065536 -> redraw 65536 1 1000000 4096
redraw, --nodes, 5, 1 -> redraw 1 1 5 4096
redraw, 2, --solids=7, --nodes=5 -> redraw 2 1 5 7
redraw -> usage
redraw, 0 -> usage
redraw, 65537 -> usage
redraw, -1 -> usage
redraw, +1 -> usage
redraw, 1, 2 -> usage
redraw, 1, 1 -> usage
redraw, --nodes, 1 -> usage
redraw, --number, 1 -> usage
redraw, 1, --workers, 2 -> redraw 1 2 1000000 4096
redraw, --workers=3, 4, --nodes, 5 -> redraw 4 3 5 4096
redraw, 1, --workers, 0 -> usage
redraw, 1, --pages -> usage
redraw, --decimals=2, 1 -> redraw 1 1 1000000 4096 decimals 2
redraw, 1, --decimals, 7 -> usage
redraw, --two-views, 3 -> redraw 3 1 1000000 4096 two
redraw, --two-views -> usage
redraw, --sections, 3 -> redraw 3 1 1000000 4096 sections
stl, 1 -> stl 1 1 1000000 4096
stl, 1, --decimals, 2 -> usage
stl, 2, --two-views -> stl 2 1 1000000 4096 two
stl, 2, --sections -> stl 2 1 1000000 4096 sections
prove -> prove 1 1000000 4096
prove, --solids=7, --workers, 3, --nodes, 5 -> prove 3 5 7
prove, --decimals, 0 -> usage
prove, --pages -> usage
prove, 1 -> usage
prove, --two-views, --nodes=5 -> prove 1 5 4096 two
prove, --sections -> usage
check -> check
check, --two-views -> check two
check, --sections -> check sections
check, --two-views, --two-views -> usage
check, --two-views, 2 -> usage
check, 1 -> usage
check, --workers, 2 -> usage
check, check -> usage
ask -> ask 1 1000000 4096
ask, --solids=7, --workers, 3, --nodes, 5 -> ask 3 5 7
ask, --decimals, 0 -> usage
ask, --pages -> usage
ask, 1 -> usage
ask, --two-views, --nodes, 5 -> ask 1 5 4096 two
ask, --sections -> usage
blocks -> blocks
blocks, --decimals, 6 -> blocks decimals 6
blocks, --two-views, --decimals=2 -> blocks decimals 2 two
blocks, --sections -> usage
blocks, --decimals, 7 -> usage
blocks, --workers, 2 -> usage
blocks, --nodes=3 -> usage
blocks, --pages -> usage
blocks, 1 -> usage
redraw, -- , 1 -> usage
redraw, 1, --nodes -> usage
redraw, 1.0 -> usage
redraw,  -> usage
make, 0 -> make 0
make, 7 -> make 7
make, 18446744073709551615 -> make 18446744073709551615
make, 000000000000000000000000000018446744073709551615 -> make 18446744073709551615
make, 18446744073709551616 -> usage
make -> usage
make, -7 -> usage
make, 7, 7 -> usage
make, 7, --nodes, 3 -> usage
make, 7, --workers, 2 -> usage
make, --n=7 -> usage
make, 7, --decimals, 0 -> usage
make, --two-views, 3 -> usage
trial, 7 -> trial 7 1
trial, 007 -> trial 7 1
trial -> usage
trial, 7, --solids=3 -> usage
trial, 7, --workers, 2 -> trial 7 2
trial, --workers=64, 7 -> trial 7 64
trial, 7, --workers, 65 -> usage
trial, 7, --pages -> usage
trial, 7, --decimals=0 -> usage
trial, 7, --two-views -> usage
trail, 7 -> usage
+3 -> usage
-- -> usage
,  -> usage";

/// The words of a row.
fn words_of(alloc: Global, told: &str) -> Result<Vec<String>, Fail> {
    let mut words = Vec::new(alloc);
    if !told.is_empty() {
        for word in told.split(", ") {
            words.push(String::from_str(alloc, word)?)?;
        }
    }
    Ok(words)
}

/// Adds how many work at a search, and its limits.
fn push_search(text: &mut String, workers: u32, limits: Limits) -> Result<(), Fail> {
    let Limits { nodes, solids } = limits;
    Ok(write!(text, " {workers} {nodes} {solids}")?)
}

/// Adds how many decimals there are, if there are some.
fn push_decimals(text: &mut String, decimals: u8) -> Result<(), Fail> {
    if decimals == 0 {
        return Ok(());
    }
    Ok(write!(text, " decimals {decimals}")?)
}

/// Adds how a drawing is read: how many decimals there are, and whether two views are enough.
fn push_reading(text: &mut String, decimals: u8, two_views: bool) -> Result<(), Fail> {
    push_decimals(text, decimals)?;
    Ok(text.push_str(if two_views { " two" } else { "" })?)
}

/// Adds whether sections are read.
fn push_sections(text: &mut String, sections: bool) -> Result<(), Fail> {
    Ok(text.push_str(if sections { " sections" } else { "" })?)
}

/// Adds a search for all solids, with pages or without.
fn push_solve(
    text: &mut String,
    workers: u32,
    limits: Limits,
    pages: bool,
    decimals: u8,
    two_views: bool,
) -> Result<(), Fail> {
    text.push_str("solve")?;
    push_search(text, workers, limits)?;
    text.push_str(if pages { " pages" } else { "" })?;
    push_reading(text, decimals, two_views)
}

/// Adds what is asked of one solid, by its number.
fn push_one(
    text: &mut String,
    name: &str,
    which: u32,
    workers: u32,
    limits: Limits,
    decimals: u8,
    two_views: bool,
) -> Result<(), Fail> {
    write!(text, "{name} {which}")?;
    push_search(text, workers, limits)?;
    push_reading(text, decimals, two_views)
}

/// Adds a search without pages, decimals or the number of a solid.
fn push_searched(
    text: &mut String,
    name: &str,
    workers: u32,
    limits: Limits,
    two_views: bool,
) -> Result<(), Fail> {
    text.push_str(name)?;
    push_search(text, workers, limits)?;
    push_reading(text, 0, two_views)
}

/// Adds what a job is.
fn push_job(text: &mut String, job: Job) -> Result<(), Fail> {
    match job {
        Job::Solve {
            workers,
            limits,
            pages,
            decimals,
            two_views,
            sections,
        } => {
            push_solve(text, workers, limits, pages, decimals, two_views)?;
            push_sections(text, sections)
        }
        Job::Redraw {
            which,
            workers,
            limits,
            decimals,
            two_views,
            sections,
        } => {
            push_one(text, "redraw", which, workers, limits, decimals, two_views)?;
            push_sections(text, sections)
        }
        Job::Stl {
            which,
            workers,
            limits,
            two_views,
            sections,
        } => {
            push_one(text, "stl", which, workers, limits, 0, two_views)?;
            push_sections(text, sections)
        }
        Job::Prove {
            workers,
            limits,
            two_views,
        } => push_searched(text, "prove", workers, limits, two_views),
        Job::Check {
            two_views,
            sections,
        } => {
            text.push_str("check")?;
            push_reading(text, 0, two_views)?;
            push_sections(text, sections)
        }
        Job::Ask {
            workers,
            limits,
            two_views,
        } => push_searched(text, "ask", workers, limits, two_views),
        Job::Blocks {
            decimals,
            two_views,
        } => {
            text.push_str("blocks")?;
            push_reading(text, decimals, two_views)
        }
        Job::Make { n } => Ok(write!(text, "make {n}")?),
        Job::Trial { n, workers } => Ok(write!(text, "trial {n} {workers}")?),
    }
}

/// What a job is, as in the table.
fn told_job(alloc: Global, job: Job) -> Result<String, Fail> {
    let mut text = String::new(alloc);
    push_job(&mut text, job)?;
    Ok(text)
}

/// What words ask for, as in the table.
fn asked(alloc: Global, told: &str) -> Result<String, Fail> {
    let words = words_of(alloc, told)?;
    match job_of(alloc, words.as_slice()) {
        Ok(job) => told_job(alloc, job),
        Err(WordFault::Usage) => Ok(String::from_str(alloc, "usage")?),
        Err(WordFault::Memory) => Err(Fail::new("out of memory")),
    }
}

#[test]
fn words_ask_for_jobs(rt: HostRuntime) -> Result<(), Fail> {
    rows_tell(WORDS, |row| asked(rt.alloc(), row.told))
}
