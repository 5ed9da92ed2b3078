//! Points of the sheet.

use std::marker::Model;

/// A point of the sheet at which lines begin or end. The size of neither coordinate is above
/// 1,000,000,000.
#[derive(Clone, Copy)]
pub struct Vertex {
    pub x: i64,
    pub y: i64,
}

impl Model for Vertex {
    ghost use Rattle.dxf_entities.specs.Known.{Point, IsNearPoint};

    ghost Value = { Point };

    ghost view = { λ v. record { x = v.x; y = v.y } };

    ghost invariant = { λ v. IsNearPoint record { x = v.x; y = v.y } };

    ghost inverse = { λ p. record { x = p.x; y = p.y } };
}
