//! Kinds of entities, by their names.

ghost use Rattle.std.specs.Prelude.{◌≡◌};
ghost use Rattle.dxf_entities.specs.Names.{is_geometry, kind_of};

use crate::names::is_name;

/// What an entity is, by its name.
#[derive(Clone, Copy, PartialEq, Eq)]
pub enum Kind {
    Line,
    /// A polyline whose vertices stand in its own entity.
    Polyline,
    /// Geometry that is neither.
    Geometry,
    /// No geometry.
    Other,
}

/// Whether a kind of entities is geometry, but no lines.
fn is_geometry(value: &[u8]) -> bool
    ensures { result ≡ is_geometry value.now }
{
    is_name(b"ARC", value)
        || is_name(b"CIRCLE", value)
        || is_name(b"ELLIPSE", value)
        || is_name(b"SPLINE", value)
        || is_name(b"POLYLINE", value)
        || is_name(b"INSERT", value)
        || is_name(b"SOLID", value)
        || is_name(b"3DFACE", value)
}

/// What an entity of this name is.
#[tactic(auto, unfolding(crate::specs::Names::kind_of))]
pub fn kind_of(value: &[u8]) -> Kind
    ensures { result ≡ kind_of value.now }
{
    if is_name(b"LINE", value) {
        Kind::Line
    } else if is_name(b"LWPOLYLINE", value) {
        Kind::Polyline
    } else if is_geometry(value) {
        Kind::Geometry
    } else {
        Kind::Other
    }
}
