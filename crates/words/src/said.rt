//! What the words of a command say, by its table: the same for every command.

ghost use Rattle.std.specs.Prelude.{◌≡◌, ◌≤◌, true, false, None, map, drop, string_bytes, IfOk, MatchResult};
ghost use Rattle.std.specs.List.{list_any};
ghost use Rattle.words.specs.declared.job.WordFault.TheVariants as word_fault;
ghost use Rattle.words.specs.Barred.{is_barred_word};
ghost use Rattle.words.specs.Rows.{table_of};
ghost use Rattle.words.specs.Said.{IsSaid, is_usual, range_of_number};
ghost use Rattle.words.specs.Words.{taken};

use crate::job::WordFault;
use crate::parse::{number_or, parse};
use crate::table::{Range, Rows};
use solid_model::Limits;
use std::alloc::Global;

/// What the words of any command may say. What its table doesn't have is as where nothing is said.
#[derive(Clone, Copy)]
pub struct Said {
    pub workers: u32,
    pub limits: Limits,
    pub pages: bool,
    pub decimals: u8,
    pub two_views: bool,
    pub sections: bool,
    pub number: u64,
}

pub const WORKERS: Range = Range { least: 1, most: 64 };

pub const NODES: Range = Range {
    least: 1,
    most: 4_000_000,
};

pub const SOLIDS: Range = Range {
    least: 1,
    most: 65_536,
};

pub const DECIMALS: Range = Range { least: 0, most: 6 };

/// What the words say, where a table takes them. The first word is the command's own.
pub fn said_by(alloc: Global, table: &Rows<'_>, words: &[String]) -> Result<Said, WordFault>
    requires usual { is_usual (table_of table.now) ≡ true }
    requires clear { list_any is_barred_word (map string_bytes words.now) ≡ false }
    ensures said { MatchResult result
        (IsSaid (table_of table.now) (drop 1 (map string_bytes words.now)))
        (λ e. e ≡ word_fault.Usage
        → taken (table_of table.now) (drop 1 (map string_bytes words.now)) ≡ None) }
    ensures most { IfOk result (λ said. said.number ≤ (range_of_number (table_of table.now)).most) }
{
    let matches = parse(alloc, table, words)?;
    let workers = number_or(&matches, "workers", WORKERS.least, WORKERS.most, 1);
    let nodes = Limits::DEFAULT.nodes;
    let nodes = number_or(&matches, "nodes", NODES.least, NODES.most, nodes);
    let solids = Limits::DEFAULT.solids as u64;
    let solids = number_or(&matches, "solids", SOLIDS.least, SOLIDS.most, solids);
    let decimals = number_or(&matches, "decimals", DECIMALS.least, DECIMALS.most, 0);
    let range = table.number.unwrap_or(Range { least: 1, most: 1 });
    let number = number_or(&matches, "number", range.least, range.most, 1);
    let pages = matches.get_flag("pages");
    let two_views = matches.get_flag("two-views");
    let sections = matches.get_flag("sections");
    Ok(Said {
        workers: workers as u32,
        limits: Limits {
            nodes,
            solids: solids as u32,
        },
        pages,
        decimals: decimals as u8,
        two_views,
        sections,
        number,
    })
}
