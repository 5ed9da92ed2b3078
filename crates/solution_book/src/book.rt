//! A book begins.
//!
//! `begin` may wait, since it ends the writer where memory for the readers is wanting.

use crate::edition::Edition;
use crate::reader::BookReader;
use crate::rule::Pen;
use crate::shown::Shown;
use crate::writer::BookWriter;
use left_right::writer::Writer;
use solid_model::{Memory, Problem};
use std::alloc::Global;
use std::sync::{Arc, Wait};

/// A writer and its readers.
pub struct Book;

impl Book {
    ghost use Rattle.std.specs.Prelude.{◌≡◌, ◌<◌, ◌≤◌, [], false, replicate, IfOk};
    ghost use Rattle.solution_book.specs.Editions.{knows_nothing};
    ghost use Rattle.std.specs.Arc.{arc_value};

    /// A book of a problem, without a solid yet, and its readers, which know nothing yet. It may
    /// wait. An `Err` is out of memory.
    pub fn begin<'a, R: Wait>(
        rt: &'a R,
        alloc: Global,
        problem: Arc<Problem>,
        readers: u32,
    ) -> Result<(BookWriter<&'a R>, Vec<BookReader<&'a R>>), Memory>
        requires { (0 < readers) × (readers ≤ 16) }
        ensures writer { IfOk result (λ book. book.0 ≡ record {
          edition = record { problem = arc_value problem; solids = [] };
          shut = false;
        }) }
        ensures readers { IfOk result (λ book. book.1.items ≡ replicate readers knows_nothing) }
    {
        let edition = Arc::new(alloc, Edition::new(alloc, problem)?)?;
        let first = Shown::new(Arc::try_clone(&edition)?);
        let pen: Pen = Writer::new(alloc, first, Shown::new(edition), readers as usize)?;
        let writer = BookWriter {
            pen,
            rt,
            shut: false,
        };
        let mut others = Vec::new(alloc);
        for _ in 0..readers {
            let lens = writer.pen.factory().reader()?;
            others.push(BookReader { lens, rt })?;
        }
        Ok((writer, others))
    }
}
