//! Laws of where planes may lie.

ghost use Rattle.std.specs.Prelude.{◌≡◌, pos, neg_ℤ, Bool, true, false};
ghost use Rattle.solid_model.specs.declared.frame.View.TheVariants.{Front, Side, Top};
ghost use Rattle.solid_model.specs.Panels.{PanelsStyles};
ghost use Rattle.dxf_entities.specs.Names.{cut_layer, further_layer, main_layer};
ghost use Rattle.file_problem.specs.Cuts.{cuts_box};
ghost use Rattle.file_problem.specs.SmallBoxes.{box_with};

/// Planes of a box from 0 to 5 along x, to 3 along y and to 1 along z, worked out by hand: one on
/// an end of the box cuts nothing, nor does one beyond. FRONT is seen along y, TOP along z and SIDE
/// along x, from either side; a whole view needs no plane.
pub fn small_boxes()
    ensures front { (panels : PanelsStyles) (area : Bool)
        → cuts_box (box_with panels) (cut_layer (main_layer Front) (pos 2) area) ≡ true }
    ensures front_end { (panels : PanelsStyles) (area : Bool)
        → cuts_box (box_with panels) (cut_layer (main_layer Front) (pos 3) area) ≡ false }
    ensures rear_beyond { (panels : PanelsStyles) (area : Bool)
        → cuts_box (box_with panels) (cut_layer (further_layer Front) (neg_ℤ (pos 1)) area)
        ≡ false }
    ensures bottom { (panels : PanelsStyles) (area : Bool)
        → cuts_box (box_with panels) (cut_layer (further_layer Top) (pos 1) area) ≡ false }
    ensures side { (panels : PanelsStyles) (area : Bool)
        → cuts_box (box_with panels) (cut_layer (main_layer Side) (pos 4) area) ≡ true }
    ensures left_end { (panels : PanelsStyles) (area : Bool)
        → cuts_box (box_with panels) (cut_layer (further_layer Side) (pos 0) area) ≡ false }
    ensures whole { (panels : PanelsStyles)
        → cuts_box (box_with panels) (further_layer Top) ≡ true }
{}
