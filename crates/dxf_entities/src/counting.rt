//! Which pairs count of what is being read.

ghost use Rattle.std.specs.Prelude.{◌≡◌, [], ◌∷◌};
ghost use Rattle.dxf_entities.specs.Counting.{is_one_of};

use dxf_groups::CodeTest;

/// Which of the next pairs count, by their group codes. Those with code 0 always do.
#[derive(Clone, Copy)]
pub enum Counting {
    /// Each, where pairs may not stand or a section is to be named.
    Each,
    /// None: an entry is passed over.
    Nothing,
    /// The end of what belongs to an application.
    Application,
    /// Those of a layer's entry.
    Layer,
    /// Those of an entity.
    Entity,
}

/// Whether the code is that of a linetype, a layer or the space in which an entity stands.
fn tells_pen(code: i32) -> bool
    ensures { result ≡ is_one_of (6 ∷ 8 ∷ 67 ∷ []) code }
{
    code == 6 || code == 8 || code == 67
}

/// Whether the code is that of a coordinate.
fn tells_point(code: i32) -> bool
    ensures { result ≡ is_one_of (10 ∷ 11 ∷ 20 ∷ 21 ∷ []) code }
{
    code == 10 || code == 11 || code == 20 || code == 21
}

/// Whether the code is that of a bulge or of a polyline's flags.
fn tells_outline(code: i32) -> bool
    ensures { result ≡ is_one_of (42 ∷ 70 ∷ []) code }
{
    code == 42 || code == 70
}

impl CodeTest for Counting {
    ghost use Rattle.dxf_entities.specs.Counting.{counts};

    ghost wanted = { counts };

    fn wants(&self, code: i32) -> bool {
        match self {
            Counting::Each => true,
            Counting::Nothing => false,
            Counting::Application => code == 102,
            Counting::Layer => code == 2 || code == 6 || code == 102,
            Counting::Entity => {
                tells_pen(code) || tells_point(code) || tells_outline(code) || code == 102
            }
        }
    }
}
