//! Which lines of a grid are doubted.

ghost use Rattle.std.specs.Prelude.{◌≡◌, ◌<◌, ◌≤◌, ℕ, Bool, true, false, length, replicate, slice_index_or, slice_set, IfOk};

use solid_model::Memory;
use std::alloc::Global;
use std::marker::Model;

/// Marks of lines, by their numbers: of each that isn't marked something is known.
#[derive(Debug, Drop)]
pub struct DoubtedLines {
    marks: Vec<bool>,
    /// No line before this one is marked: who looks for marks begins here.
    first: usize,
}

impl Model for DoubtedLines {
    ghost use Rattle.std.specs.Prelude.{◌≡◌, ◌<◌, ◌≤◌, ℕ, Bool, List, false, length, slice_index_or};

    ghost Value = { List Bool };

    ghost view = { λ s. s.marks.items };

    ghost invariant = { λ s. (s.first ≤ length s.marks.items)
        × ((k : ℕ) → k < s.first → slice_index_or s.marks.items k false ≡ false) };
}

impl DoubtedLines {
    /// So many lines, all of them doubted. An `Err` is out of memory.
    pub fn all(alloc: Global, count: usize) -> Result<DoubtedLines, Memory>
        ensures { IfOk result (λ doubted. doubted ≡ replicate count true) }
    {
        let marks = vec![in alloc; true; count]?;
        Ok(DoubtedLines { marks, first: 0 })
    }

    /// No line before this one is doubted.
    pub fn first(&self) -> usize
        ensures within { result ≤ length self.now }
        ensures none { (k : ℕ) → k < result → slice_index_or self.now k false ≡ false }
    {
        self.first
    }

    /// Whether a line is doubted.
    pub fn has(&self, number: usize) -> bool
        requires { number < length self.now }
        ensures { result ≡ slice_index_or self.now number false }
    {
        self.marks[number]
    }

    /// Doubts a line.
    pub fn doubt(&mut self, number: usize)
        requires { number < length self.old }
        ensures { self.new ≡ slice_set self.old number true }
    {
        self.marks[number] = true;
        if number < self.first {
            self.first = number;
        }
    }

    /// Doubts a line no more.
    pub fn clear(&mut self, number: usize)
        requires { number < length self.old }
        ensures { self.new ≡ slice_set self.old number false }
    {
        self.marks[number] = false;
    }

    /// Remembers that no line before this one is doubted.
    pub fn pass(&mut self, number: usize)
        requires within { number ≤ length self.old }
        requires none { (k : ℕ) → k < number → slice_index_or self.old k false ≡ false }
        ensures { self.new ≡ self.old }
    {
        self.first = number;
    }

    /// Doubts no line any more.
    pub fn clear_all(&mut self)
        ensures count { length self.new ≡ length self.old }
        ensures none { (k : ℕ) → slice_index_or self.new k false ≡ false }
    {
        for number in self.first..self.marks.len() {
            self.marks[number] = false;
        }
        self.first = self.marks.len();
    }
}
