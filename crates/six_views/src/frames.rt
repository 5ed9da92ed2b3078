//! How the views of layers stand in space.

ghost use Rattle.std.specs.Prelude.{◌≡◌};
ghost use Rattle.six_views.specs.SightFrames.{opposite_frame, sight_frame};

use further_views::Layer;
use solid_model::{Axis, Direction, Frame, View};

/// How a view from the side opposite to its own stands in space: as in third-angle drawings, what
/// lies to the right or above on the sheet is at the viewer's right hand, or above.
fn opposite_frame(view: View) -> Frame
    ensures { result ≡ opposite_frame view }
{
    let (right, up, away) = match view {
        View::Front => (
            Direction::backward(Axis::X),
            Direction::forward(Axis::Z),
            Direction::backward(Axis::Y),
        ),
        View::Top => (
            Direction::forward(Axis::X),
            Direction::backward(Axis::Y),
            Direction::forward(Axis::Z),
        ),
        View::Side => (
            Direction::backward(Axis::Y),
            Direction::forward(Axis::Z),
            Direction::forward(Axis::X),
        ),
    };
    Frame { right, up, away }
}

/// How a layer's view stands in space.
pub fn sight_frame(layer: Layer) -> Frame
    ensures { result ≡ sight_frame layer }
{
    if layer.opposite {
        opposite_frame(layer.view)
    } else {
        layer.view.frame()
    }
}
