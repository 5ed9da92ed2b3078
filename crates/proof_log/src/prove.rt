//! A log, written to a sink piece by piece.

ghost use Rattle.std.specs.Prelude.{◌≡◌, ◌∷◌, ◌++◌, ◌+◌, ◌≤◌, [], Bool, ℕ, List, length, IfOk, IsErrOf, OnErr, OnOk};
ghost use Rattle.std.specs.Io.KnownBytes.{Appends};
ghost use Rattle.completeness_logs.specs.LogTexts.{IsLog, closing_line, entry_line, opening_line};
ghost use Rattle.completeness_logs.specs.Logs.{listed_by};
ghost use Rattle.proof_log.specs.Few.{HasFewMatching};
ghost use Rattle.proof_log.specs.Lines.{fed};
ghost use Rattle.proof_log.specs.Writing.{WritesLog, Counts};
ghost use Rattle.solid_model.specs.Blocks.{IsBlocksOf};
ghost use Rattle.solid_model.specs.Panels.{IsGrid};
ghost use Rattle.tv_base.specs.Pieces.{WritesOn, AppendsPrefix};
ghost use Rattle.tv_base.specs.Faults.{Rose};

use crate::line::{push_closing, push_entry, push_opening};
use crate::walk::Walk;
use completeness_logs::LogEntry;
use solid_model::Problem;
use std::alloc::Global;
use tv_base::{PIECE, Sink, SinkError, write_if_full, write_piece};

/// How many blocks a problem has: their number has 16 bits.
fn block_count(problem: &Problem) -> u16
    ensures count { result ≡ problem.now.blocks.count }
    ensures few { problem.now.blocks.count ≤ 65535 }
{
    problem.blocks().count()
}

/// Adds the line of an entry to the piece, after it was written where it was full.
fn write_entry<K: Sink>(piece: &mut Vec<u8>, entry: LogEntry, sink: &mut K) -> Result<(), SinkError>
    requires { length piece.old.items ≤ 65536 }
    ensures later { K.faults sink.old ≤ K.faults sink.new }
    ensures ok { OnOk result (WritesOn (K.held sink.old) (K.held sink.new)
        (piece.old.items ++ fed (entry_line entry)) piece.new.items) }
    ensures room { OnOk result (length piece.new.items ≤ 64201) }
    ensures err { OnErr result
        (AppendsPrefix (K.held sink.old) (K.held sink.new) piece.old.items) }
    ensures failed { IsErrOf result SinkError.Failed →
        Rose (K.faults sink.old) (K.faults sink.new) }
{
    write_if_full(piece, sink)?;
    push_entry(piece, entry)?;
    Ok(())
}

/// How many solids are listed with an entry, where so many are before it; one more than may be
/// stands for all numbers above.
fn count_listed(solids: u64, entry: LogEntry) -> u64
    ensures { (before : ℕ) → Counts solids before → Counts result (before + listed_by entry) }
{
    match entry {
        LogEntry::Whole => { if solids < 65_536 { solids + 1 } else { solids } }
        LogEntry::Fail(_) | LogEntry::Force(..) | LogEntry::Split(_) => solids,
    }
}

/// Writes the entries of a log behind its first line, which the piece has. How many solids are
/// listed.
fn write_entries<K: Sink>(
    walk: &mut Walk<'_>,
    piece: &mut Vec<u8>,
    sink: &mut K,
) -> Result<u64, SinkError>
    requires fresh { (walk.old.decisions ≡ []) × (walk.old.marks ≡ []) }
    requires first { piece.old.items ≡ fed (opening_line walk.old.problem.blocks.count) }
    requires fits { length piece.old.items ≤ 64201 }
    requires grid { IsGrid walk.old.problem.grid }
    requires blocks { IsBlocksOf walk.old.problem.grid walk.old.problem.blocks }
    requires few { HasFewMatching walk.old.problem }
    ensures later { K.faults sink.old ≤ K.faults sink.new }
    ensures ok { IfOk result (λ solids. (text : List ℕ)
        × (choices : List (List Bool))
        × IsLog walk.old.problem (text ++ fed (closing_line solids)) choices
        × WritesOn (K.held sink.old) (K.held sink.new) text piece.new.items) }
    ensures room { OnOk result (length piece.new.items ≤ 64201) }
    ensures err { OnErr result
        (WritesLog walk.old.problem (K.held sink.old) (K.held sink.new)) }
    ensures failed { IsErrOf result SinkError.Failed →
        Rose (K.faults sink.old) (K.faults sink.new) }
{
    walk.problem().known();
    let mut solids = 0;
    let mut open = true;
    while open {
        let Ok(next) = walk.next_entry() else {
            return Err(SinkError::Memory);
        };
        write_entry(piece, next.entry, sink)?;
        solids = count_listed(solids, next.entry);
        open = next.goes_on;
    }
    Ok(solids)
}

/// Writes the log of a problem, while no block is decided.
fn write_log<K: Sink>(alloc: Global, walk: &mut Walk<'_>, sink: &mut K) -> Result<(), SinkError>
    requires fresh { (walk.old.decisions ≡ []) × (walk.old.marks ≡ []) }
    requires grid { IsGrid walk.old.problem.grid }
    requires blocks { IsBlocksOf walk.old.problem.grid walk.old.problem.blocks }
    requires few { HasFewMatching walk.old.problem }
    ensures later { K.faults sink.old ≤ K.faults sink.new }
    ensures ok { OnOk result ((text : List ℕ)
        × (choices : List (List Bool))
        × IsLog walk.old.problem text choices
        × Appends (K.held sink.old) (K.held sink.new) text) }
    ensures err { OnErr result
        (WritesLog walk.old.problem (K.held sink.old) (K.held sink.new)) }
    ensures failed { IsErrOf result SinkError.Failed →
        Rose (K.faults sink.old) (K.faults sink.new) }
{
    let blocks = u64::from(block_count(walk.problem()));
    let mut piece = Vec::with_capacity(alloc, PIECE)?;
    push_opening(&mut piece, blocks)?;
    let solids = write_entries(walk, &mut piece, sink)?;
    push_closing(&mut piece, solids)?;
    write_piece(sink, &piece)
}

/// Writes a log that shows that no other solid matches the drawing of a problem, of which at most
/// 65,536 match. At each place of its tree the lines of the grid are asked first: a line that can't
/// be met ends it, and a decision that they force comes before anything else; where they force
/// nothing, all blocks are decided, which is a solid, or the least undecided block is split. The
/// text goes to the sink in pieces of at most 65,536 bytes, and no more of it is held.
///
/// At an `Err` the sink has a prefix of such a log: `Failed` comes only where the sink failed in
/// this call, `Memory` is out of memory.
pub fn prove_log<K: Sink>(alloc: Global, problem: &Problem, sink: &mut K) -> Result<(), SinkError>
    requires { HasFewMatching problem.now }
    ensures later { K.faults sink.old ≤ K.faults sink.new }
    ensures ok { OnOk result ((text : List ℕ)
        × (choices : List (List Bool))
        × IsLog problem.now text choices × Appends (K.held sink.old) (K.held sink.new) text) }
    ensures err { OnErr result ((text : List ℕ)
        × (choices : List (List Bool))
        × IsLog problem.now text choices
        × AppendsPrefix (K.held sink.old) (K.held sink.new) text) }
    ensures failed { IsErrOf result SinkError.Failed →
        Rose (K.faults sink.old) (K.faults sink.new) }
{
    problem.known();
    match Walk::new(alloc, problem) {
        Ok(walk) => {
            let mut walk = walk;
            write_log(alloc, &mut walk, sink)
        }
        Err(_) => Err(SinkError::Memory),
    }
}
