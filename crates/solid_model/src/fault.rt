//! The faults of a file.
//!
//! The error types are declared with `thiserror`, whose texts have no contract: nothing that the
//! program writes is taken from them. `From` is written by hand, since clauses name the error that
//! `?` makes.

use crate::cell::Axis;
use crate::frame::View;
use crate::memory::Memory;
use std::alloc::{AllocError, AllocFailed};
use thiserror::Error;

/// A fault of a file: what isn't read, or can't be searched. `line` counts the file's lines from 1;
/// `code` is the group code of the pair at fault.
#[derive(Clone, Copy, Debug, PartialEq, Eq, Error)]
pub enum Fault {
    /// The text is a binary DXF file.
    #[error("line {line}: this is a binary DXF file")]
    Binary { line: u32 },
    /// A group code is an optional `-` and one to four digits, and here is something else.
    #[error("line {line}: this is no group code")]
    BadCode { line: u32 },
    /// The text ends after this code line, without the value line.
    #[error("line {line}: this group code has no value")]
    NoValue { line: u32 },
    /// The text ends where a pair should begin, without the pair that ends it; `line` is the number
    /// of its lines plus 1.
    #[error("line {line}: the file ends without EOF")]
    NoEof { line: u32 },
    /// The pair may not stand here, between or in sections; `line` is that of its code.
    #[error("line {line}: this pair may not stand here")]
    BadSection { line: u32 },
    /// The value of a coordinate, a bulge or flags is no numeral; `line` is that of the value.
    #[error("line {line}: the value of group code {code} is no number")]
    BadNumber { line: u32, code: i32 },
    /// The value of a coordinate or of flags isn't whole; `line` is that of the value.
    #[error("line {line}: the value of group code {code} isn't whole")]
    NotWhole { line: u32, code: i32 },
    /// The absolute value of a coordinate or of flags is above 1,000,000,000; `line` is that of the
    /// value.
    #[error("line {line}: the value of group code {code} is too far out")]
    TooFar { line: u32, code: i32 },
    /// A line, or a vertex of a polyline, has no such coordinate; `line` is that at which its
    /// entity begins.
    #[error("line {line}: group code {code} is missing here")]
    Missing { line: u32, code: i32 },
    /// A line, or a vertex of a polyline, has such a coordinate already; `line` is that of the
    /// second code.
    #[error("line {line}: group code {code} stands here again")]
    Repeated { line: u32, code: i32 },
    /// A line of the entity is neither level nor upright; `line` is that at which it begins.
    #[error("line {line}: this line is oblique")]
    Oblique { line: u32 },
    /// The linetype isn't one of those that have a style; `line` is that at which the line's entity
    /// begins.
    #[error("line {line}: this line's linetype has no style")]
    Linetype { line: u32 },
    /// A view has geometry that gives no lines; `line` is that at which its entity begins.
    #[error("line {line}: this entity of a view is no line")]
    Geometry { line: u32 },
    /// No line covers anything in the view.
    #[error("the view {view:?} is empty")]
    EmptyView { view: View },
    /// More than 100,000 lines would be kept; `line` is that at which the entity of the first one
    /// above these begins.
    #[error("line {line}: there are too many lines")]
    TooManyLines { line: u32 },
    /// The file has more than 16,777,216 bytes.
    #[error("the file is too long")]
    TooLong,
    /// The axis has more than 64 grid coordinates.
    #[error("the axis {axis:?} has {count} grid coordinates")]
    TooFine { axis: Axis, count: u32 },
    /// There are more than 4,096 blocks.
    #[error("there are {count} blocks")]
    TooManyBlocks { count: u32 },
    /// A side of a polyline is bent: its bulge isn't 0; `line` is that at which its entity begins.
    #[error("line {line}: this polyline has a bent side")]
    Curved { line: u32 },
    /// An entity's layer begins as that of a section or an area does, and names no view and plane;
    /// `line` is that at which the entity begins.
    #[error("line {line}: this entity's layer names no section")]
    SectionName { line: u32 },
    /// The plane of a section or an area doesn't lie strictly within the box of the grid; `line` is
    /// that at which the first entity of such a layer begins.
    #[error("line {line}: the plane of this entity's layer cuts nothing")]
    NoCut { line: u32 },
}

/// Why a file is refused: a fault, or out of memory.
#[derive(Clone, Copy, Debug, PartialEq, Eq, Error)]
pub enum Refused {
    #[error(transparent)]
    Fault(Fault),
    #[error("out of memory")]
    Memory,
}

impl From<Fault> for Refused {
    ghost use Rattle.std.specs.Prelude.{◌≡◌};
    ghost use Rattle.solid_model.specs.declared.fault.Refused.TheVariants as refused;

    ghost from_gives = { λ f e. e ≡ refused.Fault f };

    fn from(fault: Fault) -> Refused {
        Refused::Fault(fault)
    }
}

impl From<Memory> for Refused {
    ghost use Rattle.std.specs.Prelude.{◌≡◌};
    ghost use Rattle.solid_model.specs.declared.fault.Refused.TheVariants as refused;

    ghost from_gives = { λ _ e. e ≡ refused.Memory };

    fn from(_error: Memory) -> Refused {
        Refused::Memory
    }
}

impl From<AllocError> for Refused {
    ghost use Rattle.std.specs.Prelude.{◌≡◌};
    ghost use Rattle.solid_model.specs.declared.fault.Refused.TheVariants as refused;

    ghost from_gives = { λ _ e. e ≡ refused.Memory };

    fn from(_error: AllocError) -> Refused {
        Refused::Memory
    }
}

impl<T: Drop> From<AllocFailed<T>> for Refused {
    ghost use Rattle.std.specs.Prelude.{◌≡◌};
    ghost use Rattle.solid_model.specs.declared.fault.Refused.TheVariants as refused;

    ghost from_gives = { λ _ e. e ≡ refused.Memory };

    fn from(_error: AllocFailed<T>) -> Refused {
        Refused::Memory
    }
}
