//! Laws of the texts.

ghost use Rattle.std.specs.Prelude.{◌≡◌, ◌∷◌, [], true, false, pos, negsuc, codes};
ghost use Rattle.solid_model.specs.declared.cell.Axis.TheVariants.{X};
ghost use Rattle.solid_model.specs.declared.ended.EndKind.TheVariants.{CutNodes, CutSolids, Whole};
ghost use Rattle.solid_model.specs.declared.face.Out.TheVariants.{MinusX, MinusY, MinusZ, PlusX, PlusY, PlusZ};
ghost use Rattle.solid_model.specs.declared.fault.Fault.TheVariants as fault;
ghost use Rattle.solid_model.specs.declared.frame.View.TheVariants.{Side};
ghost use Rattle.solid_model.specs.Cells.{cell_at};
ghost use Rattle.report.specs.FaultText.{fault_text};
ghost use Rattle.report.specs.SmallTexts.{face_on};
ghost use Rattle.report.specs.Texts.{face_text, fitting_text, head_text, no_solid_text, page_text, solid_line, trial_text};

/// The lines of faces on each outward side, written out by hand: without decimals, and with some.
pub fn small_face_texts()
    ensures minus_x { face_text 0 (face_on MinusX (pos 0) ((cell_at 0 0 0 ∷ cell_at 0 0 1
        ∷ cell_at 0 1 1 ∷ cell_at 0 1 0 ∷ []) ∷ []))
        ≡ codes "face -x at 0 loop 0,0,0 0,0,1 0,1,1 0,1,0\n" }
    ensures plus_x { face_text 0 (face_on PlusX (pos 3) ((cell_at 3 0 0 ∷ cell_at 3 3 0
        ∷ cell_at 3 3 3 ∷ cell_at 3 0 3 ∷ []) ∷ []))
        ≡ codes "face +x at 3 loop 3,0,0 3,3,0 3,3,3 3,0,3\n" }
    ensures minus_y { face_text 0 (face_on MinusY (pos 30) ((cell_at 0 30 10 ∷ cell_at 60 30 10
        ∷ cell_at 60 30 50 ∷ cell_at 0 30 50 ∷ []) ∷ []))
        ≡ codes "face -y at 30 loop 0,30,10 60,30,10 60,30,50 0,30,50\n" }
    ensures plus_y { face_text 0 (face_on PlusY (negsuc 0) ((
        record { x = negsuc 8; y = negsuc 0; z = pos 0 }
        ∷ record { x = negsuc 8; y = negsuc 0; z = pos 7 }
        ∷ record { x = negsuc 1; y = negsuc 0; z = pos 7 }
        ∷ record { x = negsuc 1; y = negsuc 0; z = pos 0 } ∷ []) ∷ []))
        ≡ codes "face +y at -1 loop -9,-1,0 -9,-1,7 -2,-1,7 -2,-1,0\n" }
    ensures minus_z { face_text 0 (face_on MinusZ (pos 2000000000)
        ((cell_at 0 0 2000000000 ∷ []) ∷ []))
        ≡ codes "face -z at 2000000000 loop 0,0,2000000000\n" }
    ensures plus_z { face_text 0 (face_on PlusZ (pos 1) ((cell_at 0 0 1 ∷ cell_at 3 0 1
        ∷ cell_at 3 3 1 ∷ cell_at 0 3 1 ∷ []) ∷ (cell_at 1 1 1 ∷ cell_at 1 2 1
        ∷ cell_at 2 2 1 ∷ cell_at 2 1 1 ∷ []) ∷ []))
        ≡ codes "face +z at 1 loop 0,0,1 3,0,1 3,3,1 0,3,1 loop 1,1,1 1,2,1 2,2,1 2,1,1\n" }
    ensures half { face_text 1 (face_on MinusX (pos 0) ((cell_at 0 0 0 ∷ cell_at 0 0 5
        ∷ cell_at 0 5 5 ∷ cell_at 0 5 0 ∷ []) ∷ []))
        ≡ codes "face -x at 0.0 loop 0.0,0.0,0.0 0.0,0.0,0.5 0.0,0.5,0.5 0.0,0.5,0.0\n" }
    ensures decimals { face_text 3 (face_on PlusY (negsuc 24) ((
        record { x = negsuc 12499; y = negsuc 24; z = pos 1000 } ∷ []) ∷ []))
        ≡ codes "face +y at -0.025 loop -12.500,-0.025,1.000\n" }
{}

/// The lines of searches, written out by hand: how they end, a solid, a page, a trial, and a solid
/// that there isn't.
pub fn small_search_texts()
    ensures whole { head_text (record { nodes = 7; solids = 34 }) Whole 2 109 9
        ≡ codes "whole 2 nodes 109 blocks 9\n" }
    ensures nodes { head_text (record { nodes = 7; solids = 34 }) CutNodes 2 109 9
        ≡ codes "cut nodes 7\n" }
    ensures solids { head_text (record { nodes = 7; solids = 34 }) CutSolids 2 109 9
        ≡ codes "cut solids 34\n" }
    ensures solid { solid_line 1 (true ∷ false ∷ []) 8 10
        ≡ codes "solid 1 choice 10 volume 8 faces 10\n" }
    ensures page { page_text 3 35 ((true ∷ false ∷ true ∷ []) ∷ (false ∷ false ∷ true ∷ []) ∷ [])
        ≡ codes "page 3 solids 35\nchoice 101\nchoice 001\n" }
    ensures trial { trial_text 7 12 2 214 148
        ≡ codes "trial 7 pieces 14 blocks 12 solids 2 nodes 214 volume 148\n" }
    ensures none { no_solid_text 3 2 ≡ codes "none 3 of 2\n" }
    ensures fitting { fitting_text 3 ((true ∷ false ∷ []) ∷ [])
        ≡ codes "yes 1 of 3\nchoice 10\n" }
{}

/// The lines of faults, written out by hand: with a line and a code, a line alone, a view, nothing,
/// and an axis with a count.
pub fn small_fault_texts()
    ensures code { fault_text (fault.NotWhole 12 (pos 10))
        ≡ codes "fault F7 NotWhole line 12 code 10\n" }
    ensures line { fault_text (fault.TooManyLines 1800005)
        ≡ codes "fault F15 TooManyLines line 1800005\n" }
    ensures view { fault_text (fault.EmptyView Side) ≡ codes "fault F14 EmptyView view SIDE\n" }
    ensures nothing { fault_text fault.TooLong ≡ codes "fault F16 TooLong\n" }
    ensures axis { fault_text (fault.TooFine X 65) ≡ codes "fault F17 TooFine axis x count 65\n" }
{}
