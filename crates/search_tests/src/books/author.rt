//! A writer with the solids that it publishes from.

ghost use Rattle.std.specs.Prelude.{◌<◌, ◌≤◌};

use super::{THREE_BATCHES, solved};
use crate::searches::problem;
use solid_model::{Choice, Memory};
use solution_book::{Book, BookReader, BookWriter, Receipt};
use std::alloc::Global;
use std::marker::Model;
use std::sync::Wait;
use std::test::Fail;

/// A writer with the solids that it publishes from, in their order.
#[derive(Drop)]
pub struct Author<R: Wait + Drop> {
    writer: BookWriter<R>,
    solids: Vec<Choice>,
}

impl<R: Wait + Drop> Model for Author<R> {
    ghost use Rattle.search_tests.specs.Authors.{AuthorParts, IsAuthor};

    ghost Value = { AuthorParts };

    ghost view = { λ s. record { book = s.writer; solids = s.solids.items } };

    ghost invariant = { λ s. IsAuthor record { book = s.writer; solids = s.solids.items } };
}

/// A book of a drawing, whose author has its first solids, and its readers.
pub fn begin<'a, R: Wait>(
    rt: &'a R,
    alloc: Global,
    views: [&str; 3],
    readers: u32,
) -> Result<(Author<&'a R>, Vec<BookReader<&'a R>>), Fail>
    requires { (0 < readers) × (readers ≤ 16) }
{
    let problem = problem(alloc, views)?;
    let solids = solved(alloc, &problem, THREE_BATCHES)?;
    let (writer, others) = Book::begin(rt, alloc, problem, readers)?;
    Ok((Author { writer, solids }, others))
}

impl<R: Wait + Drop> Author<R> {
    /// All solids that it has.
    pub fn solids(&self) -> &[Choice] {
        &self.solids
    }

    /// Publishes the next solids, until so many are published or all are.
    pub fn publish_up_to(&mut self, alloc: Global, count: usize) -> Result<Receipt, Memory> {
        let from = self.writer.published();
        let next = &self.solids[from..count.min(self.solids.len()).max(from)];
        let receipt = self.writer.publish(alloc, next)?;
        Ok(receipt)
    }
}
