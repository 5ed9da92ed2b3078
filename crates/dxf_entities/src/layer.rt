//! What layers show.

ghost use Rattle.std.specs.Prelude.{◌≡◌};
ghost use Rattle.dxf_entities.specs.LayerKeys.{six_number};

use solid_model::View;

/// Where a view is cut: by a plane across its sight, at a coordinate on the sight axis from the
/// part's least one. Shown is all that lies from it on along the sight, or the area that it cuts.
#[derive(Clone, Copy, Debug, PartialEq, Eq)]
pub struct Cut {
    pub at: i64,
    pub area: bool,
}

/// What a layer shows: a view, from its own side or from the opposite one, whole or cut. REAR is
/// the front view from the opposite side, BOTTOM the top view, LEFT the side view.
#[derive(Clone, Copy, Debug, PartialEq, Eq)]
pub struct Layer {
    pub view: View,
    pub opposite: bool,
    pub cut: Option<Cut>,
}

/// What tells layers apart in a map: which of the six views a layer is of, by its number, and where
/// that is cut.
pub type LayerKey = (u8, Option<(i64, bool)>);

/// The number of a view among the six.
fn six_number(view: View, opposite: bool) -> u8
    ensures { result ≡ six_number view opposite }
{
    match view {
        View::Front if opposite => 3,
        View::Front => 0,
        View::Top if opposite => 4,
        View::Top => 1,
        View::Side if opposite => 5,
        View::Side => 2,
    }
}

impl Layer {
    ghost use Rattle.std.specs.Prelude.{◌≡◌};
    ghost use Rattle.dxf_entities.specs.Names.{is_main};
    ghost use Rattle.dxf_entities.specs.LayerKeys.{layer_key};

    /// Whether it is that of one of the three main views.
    pub fn is_main(self) -> bool
        ensures { result ≡ is_main self }
    {
        !self.opposite && self.cut.is_none()
    }

    /// What tells it from others.
    pub fn key(self) -> LayerKey
        ensures { result ≡ layer_key self }
    {
        let cut = match self.cut {
            Some(cut) => Some((cut.at, cut.area)),
            None => None,
        };
        (six_number(self.view, self.opposite), cut)
    }
}
