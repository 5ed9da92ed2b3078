//! What belongs to each view.

ghost use Rattle.std.specs.Prelude.{◌≡◌};

use crate::frame::View;

/// Something of one kind for the front, the top and the side.
#[derive(Debug, Drop)]
pub struct PerView<T> {
    pub front: T,
    pub top: T,
    pub side: T,
}

impl<T> PerView<T> {
    ghost use Rattle.solid_model.specs.PerView.{of_view};

    /// What belongs to a view.
    pub fn view(&self, view: View) -> &T
        ensures { result.now ≡ of_view view self.now }
    {
        match view {
            View::Front => &self.front,
            View::Top => &self.top,
            View::Side => &self.side,
        }
    }
}
