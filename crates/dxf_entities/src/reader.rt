//! The reader that makes lines of a file's pairs. `dxf_groups::Groups` gives the pairs of a text.
//!
//! The reader keeps one entry that is open, and what counts of it, of a polyline its vertices so
//! far; an entity on another layer is passed over from the pair on that says so. It says of which
//! codes the next pairs may count, and the others aren't given to it. The definition cuts a file
//! into entries; `proofs/Resumes.antt` shows that the reader goes on as the definition does with
//! what is left.

ghost use Rattle.std.specs.Prelude.{◌≡◌, ℕ, List, [], ◌∷◌, Result, Ok, Err, IfOk, OnOk, IsErrOf, true, false, IsTrue};
ghost use Rattle.solid_model.specs.declared.fault.Fault.{Fault};
ghost use Rattle.solid_model.specs.declared.fault.Refused.TheVariants as refused;
ghost use Rattle.dxf_groups.specs.Groups.{from_wanted};
ghost use Rattle.dxf_groups.specs.Pairs.{TextPair, Pairs, text_pair};
ghost use Rattle.dxf_entities.specs.Counting.{counts};
ghost use Rattle.dxf_entities.specs.Entries.{has_code, opens_application, closes_application};
ghost use Rattle.dxf_entities.specs.Reading.{pairs_read};
ghost use Rattle.dxf_entities.specs.Resuming.{progress_of, closed, opened_entry, fact_taken, resumed};

use crate::codes::has_code;
use crate::counting::Counting;
use crate::form::ReadingForm;
use crate::layer_line::LayerLine;
use crate::layers::Layers;
use crate::names::is_name;
use crate::open::Open;
use crate::place::Place;
use crate::section::{Section, section_of};
use dxf_groups::Pair;
use solid_model::{Fault, Memory, Refused};
use std::alloc::Global;

/// Whether the pair begins what belongs to an application.
fn opens_application(pair: &Pair, value: &[u8]) -> bool
    ensures { result ≡ opens_application (text_pair pair.now value.now) }
{
    has_code(pair, 102) && value.first() == Some(&b'{')
}

/// Whether the pair ends what belongs to an application.
fn closes_application(pair: &Pair, value: &[u8]) -> bool
    ensures { result ≡ closes_application (text_pair pair.now value.now) }
{
    has_code(pair, 102) && value == b"}".as_slice()
}

/// What is known of the pairs so far.
#[derive(Drop)]
pub struct Reader {
    pub alloc: Global,
    /// How the file is read.
    pub form: ReadingForm,
    pub place: Place,
    pub layers: Layers,
    pub lines: Vec<LayerLine>,
    pub entry: Open,
    /// Whether the next pairs of the entry belong to an application.
    pub in_application: bool,
}

impl Reader {
    /// Nothing is read.
    pub fn new(alloc: Global, form: ReadingForm) -> Reader
        ensures { (ps : Pairs) → resumed ps.pairs ps.ending result ≡ pairs_read form ps }
    {
        Reader {
            alloc,
            form,
            place: Place::Outside,
            layers: Layers::new(alloc),
            lines: Vec::new(alloc),
            entry: Open::Passed,
            in_application: false,
        }
    }

    /// Closes the open entry: a layer's is added to the layers, and an entity is judged.
    fn close(&mut self) -> Result<(), Refused>
        ensures place { self.new.place ≡ self.old.place }
        ensures closed { OnOk result (closed [] self.old ≡ Ok (progress_of self.new)) }
        ensures fault { (fault : Fault) → IsErrOf result (refused.Fault fault)
            → closed [] self.old ≡ Err fault }
    {
        match &mut self.entry {
            Open::Passed => (),
            Open::Layer(layer) => self.layers.add(*layer)?,
            Open::Entity(facts) => {
                if let Some(pen) = facts.pen(&self.layers)? {
                    facts.add_lines(pen, &mut self.lines)?;
                }
            }
        }
        Ok(())
    }

    /// Opens an entry of a section that begins with this pair, which has this value.
    fn open(&mut self, section: Section, pair: &Pair, value: &[u8])
        ensures { self.new ≡ record self.old {
          entry = opened_entry section (text_pair pair.now value.now);
          in_application = false;
        } }
    {
        self.in_application = false;
        self.entry = Open::begun(self.alloc, section, pair, value);
    }

    /// Takes a pair with code 0, which ends the open entry and begins the next one.
    fn take_entry(&mut self, pair: &Pair, value: &[u8]) -> Result<(), Refused>
        requires { IsTrue (has_code 0 (text_pair pair.now value.now)) }
        ensures taken { OnOk result ((ps : List TextPair) (ending : Result ℕ Fault)
            → resumed (text_pair pair.now value.now ∷ ps) ending self.old
            ≡ resumed ps ending self.new) }
        ensures fault { (fault : Fault) → IsErrOf result (refused.Fault fault)
            → (ps : List TextPair) (ending : Result ℕ Fault)
            → resumed (text_pair pair.now value.now ∷ ps) ending self.old ≡ Err fault }
    {
        let misplaced = Fault::BadSection { line: pair.line };
        match self.place {
            Place::Outside if is_name(b"SECTION", value) => {
                self.place = Place::Unnamed;
                Ok(())
            }
            Place::Inside(section) => {
                self.close()?;
                if is_name(b"SECTION", value) {
                    return Err(Refused::Fault(misplaced));
                }
                if is_name(b"ENDSEC", value) {
                    self.place = Place::Outside;
                } else {
                    self.open(section, pair, value);
                }
                Ok(())
            }
            _ => Err(Refused::Fault(misplaced)),
        }
    }

    /// Takes one more pair of the open entry.
    fn take_fact(&mut self, pair: &Pair, value: &[u8]) -> Result<(), Memory>
        ensures { OnOk result (self.new ≡ fact_taken (text_pair pair.now value.now) self.old) }
    {
        if self.in_application {
            self.in_application = !closes_application(pair, value);
            Ok(())
        } else if opens_application(pair, value) {
            self.in_application = true;
            Ok(())
        } else {
            self.entry.take(pair, value, self.form)
        }
    }

    /// Takes the next pair, which has this value.
    pub fn take(&mut self, pair: &Pair, value: &[u8]) -> Result<(), Refused>
        ensures taken { OnOk result ((ps : List TextPair) (ending : Result ℕ Fault)
            → resumed (text_pair pair.now value.now ∷ ps) ending self.old
            ≡ resumed ps ending self.new) }
        ensures fault { (fault : Fault) → IsErrOf result (refused.Fault fault)
            → (ps : List TextPair) (ending : Result ℕ Fault)
            → resumed (text_pair pair.now value.now ∷ ps) ending self.old ≡ Err fault }
    {
        if has_code(pair, 0) {
            return self.take_entry(pair, value);
        }
        match self.place {
            Place::Unnamed if has_code(pair, 2) => {
                self.place = Place::Inside(section_of(value));
                self.entry = Open::Passed;
                Ok(())
            }
            Place::Inside(_) => {
                self.take_fact(pair, value)?;
                Ok(())
            }
            _ => Err(Refused::Fault(Fault::BadSection { line: pair.line })),
        }
    }

    /// Which of the next pairs count.
    pub fn counting(&self) -> Counting
        ensures { (ps : List TextPair) (ending : Result ℕ Fault) → resumed ps ending self.now
            ≡ resumed (from_wanted (counts result) ps) ending self.now }
    {
        let Place::Inside(_) = self.place else {
            return Counting::Each;
        };
        match &self.entry {
            Open::Passed => Counting::Nothing,
            Open::Layer(facts) if facts.is_unread() => Counting::Nothing,
            _ if self.in_application => Counting::Application,
            Open::Layer(_) => Counting::Layer,
            Open::Entity(_) => Counting::Entity,
        }
    }

    /// The lines, where the text ends with the end pair at this line.
    pub fn finish(self, end: u32) -> Result<Vec<LayerLine>, Refused>
        ensures read { IfOk result (λ lines. resumed [] (Ok end) self ≡ Ok lines.items) }
        ensures fault { (fault : Fault) → IsErrOf result (refused.Fault fault)
            → resumed [] (Ok end) self ≡ Err fault }
    {
        let mut reader = self;
        match reader.place {
            Place::Outside => return Ok(reader.lines),
            Place::Unnamed => (),
            Place::Inside(_) => reader.close()?,
        }
        Err(Refused::Fault(Fault::BadSection { line: end }))
    }
}
