//! The rule that ties what is published to what the writer and the readers know.

ghost use Rattle.solution_book.specs.Editions.{knows_nothing};
ghost use Rattle.solution_book.specs.Rule.{Keeps, Sees};

use crate::shown::Shown;
use crossbeam_utils::rule::{Outcome, Protocol};
use left_right::reader::Reader;
use left_right::writer::Writer;
use std::marker::Model;

/// What one knows of a book. No value of it is ever made.
pub struct Seen {
    pub edition: Option<Shown>,
    pub looks: u64,
}

impl Model for Seen {
    ghost use Rattle.solution_book.specs.Editions.{ReaderParts};

    ghost Value = { ReaderParts };

    ghost view = { λ s. record { edition = s.edition; looks = s.looks } };
}

/// What is published goes on from what each one knows.
pub struct OneList;

impl Protocol<Shown, Seen> for OneList {
    ghost holds = { Keeps };

    ghost first = { knows_nothing };
}

/// A look: what is published is known then, and counted.
pub struct Looks;

impl Outcome<Shown, Seen> for Looks {
    ghost then = { Sees };
}

/// The writer under the rule.
pub type Pen = Writer<Shown, Shown, Seen, OneList>;

/// A reader under the rule.
pub type Lens = Reader<Shown, Seen, OneList>;
