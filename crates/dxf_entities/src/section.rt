//! Sections, by their names.

ghost use Rattle.std.specs.Prelude.{◌≡◌};
ghost use Rattle.dxf_entities.specs.Names.{section_of};

use crate::names::is_name;

/// What a section holds, by its name.
#[derive(Clone, Copy)]
pub enum Section {
    Tables,
    Entities,
    /// What is passed over.
    Other,
}

/// What a section of this name holds.
#[tactic(auto, unfolding(crate::specs::Names::section_of))]
pub fn section_of(value: &[u8]) -> Section
    ensures { result ≡ section_of value.now }
{
    if is_name(b"TABLES", value) {
        Section::Tables
    } else if is_name(b"ENTITIES", value) {
        Section::Entities
    } else {
        Section::Other
    }
}
