//! Laws of the definition of what is read.

ghost use Rattle.std.specs.Prelude.{◌≡◌, ◌↔◌, ℕ, List, [], ◌∷◌, ◌++◌, pos, neg_ℤ, true, false, None, Ok, Err, codes};
ghost use Rattle.solid_model.specs.declared.fault.Fault.{Fault};
ghost use Rattle.solid_model.specs.declared.fault.Fault.TheVariants.{BadSection, Curved, Geometry, Missing, NoEof, Oblique, Repeated, SectionName};
ghost use Rattle.solid_model.specs.declared.frame.View.TheVariants.{Front, Side, Top};
ghost use Rattle.solid_model.specs.declared.segment.Style.TheVariants.{Dashed, Solid};
ghost use Rattle.solid_model.specs.Line.{Line, IsKept};
ghost use Rattle.lemmas.specs.Lists.{Each};
ghost use Rattle.dxf_groups.specs.SmallTexts.{pair_on};
ghost use Rattle.dxf_entities.specs.declared.layer_line.LayerLine.{LayerLine};
ghost use Rattle.dxf_entities.specs.declared.named.Named.TheVariants.{Unread, Shows, Misnamed};
ghost use Rattle.dxf_entities.specs.Apart.{apart_read, lines_read};
ghost use Rattle.dxf_entities.specs.Forms.{six_views, three_views, with_sections};
ghost use Rattle.dxf_entities.specs.Names.{cut_layer, further_layer, layer_on, main_layer};
ghost use Rattle.dxf_entities.specs.Reading.{main_read, read_of};
ghost use Rattle.dxf_entities.specs.SmallFiles.{line_from, section_at, end_of_section, hidden_layer, unit_line, file_of_polyline, vertex_at, line_to, line_in, lines_of_further_views, kept_on, lines_of_sections, entity_on, oblique_on};

/// Small files, written out by hand. A line on the layer FRONT is kept; without a linetype it takes
/// its layer's from a table that stands before it, and not from one that stands after it. A pair
/// that belongs to an application doesn't count. An oblique line is a fault where a pair ends its
/// entity, which comes before the fault of that pair; where the text ends first, the fault is the
/// text's.
pub fn small_files()
    ensures kept { main_read 0 (record {
      pairs = section_at 1 (codes "Entities")
          ++ (line_from 5 [] (codes "1") (codes "0") ++ end_of_section 23);
      ending = Ok 25;
    }) ≡ Ok (unit_line 5 Solid ∷ []) }
    ensures by_layer { main_read 0 (record {
      pairs = hidden_layer 1 ++ (section_at 13 (codes "ENTITIES")
          ++ (line_from 17 [] (codes "10E-1") (codes "0") ++ end_of_section 35));
      ending = Ok 37;
    }) ≡ Ok (unit_line 17 Dashed ∷ []) }
    ensures layer_after { main_read 0 (record {
      pairs = section_at 1 (codes "ENTITIES")
          ++ (line_from 5 [] (codes "1") (codes "0") ++ (end_of_section 23 ++ hidden_layer 25));
      ending = Ok 37;
    }) ≡ Ok (unit_line 5 Solid ∷ []) }
    ensures application { main_read 0 (record {
      pairs = section_at 1 (codes "ENTITIES")
          ++ (line_from 5 (pair_on 9 (pos 102) (codes "{A") ∷ pair_on 11 (pos 6) (codes "HIDDEN")
          ∷ pair_on 13 (pos 102) (codes "}") ∷ []) (codes "1") (codes "0") ++ end_of_section 23);
      ending = Ok 25;
    }) ≡ Ok (unit_line 5 Solid ∷ []) }
    ensures oblique { main_read 0 (record {
      pairs = section_at 1 (codes "ENTITIES") ++ line_from 5 [] (codes "1") (codes "2");
      ending = Ok 23;
    }) ≡ Err (Oblique 5) }
    ensures not_ended { main_read 0 (record {
      pairs = section_at 1 (codes "ENTITIES") ++ line_from 5 [] (codes "1") (codes "2");
      ending = Err (NoEof 23);
    }) ≡ Err (NoEof 23) }
    ensures misplaced { main_read 0 (record {
      pairs = section_at 1 (codes "ENTITIES") ++ section_at 5 (codes "ENTITIES");
      ending = Ok 9;
    }) ≡ Err (BadSection 5) }
    ensures decimals { main_read 1 (record {
      pairs = section_at 1 (codes "ENTITIES")
          ++ (line_from 5 [] (codes "1e-1") (codes "0") ++ end_of_section 23);
      ending = Ok 25;
    }) ≡ Ok (unit_line 5 Solid ∷ []) }
{}

/// Files with one polyline, written out by hand. It gives a line from each vertex to the next and,
/// where its flags are odd and it has two vertices or more, from the last to the first; the first
/// flags count, and are read without decimals. A bulge that isn't 0 is a fault, before the first
/// vertex too, and so is a vertex without its y coordinate or without its x, which is found before
/// the next value is read.
pub fn small_polylines()
    ensures left_open { main_read 1 (file_of_polyline 25 (pair_on 9 (pos 70) (codes "128")
        ∷ vertex_at 11 (codes "0") (codes "0") ++ pair_on 15 (pos 42) (codes "0e5")
        ∷ vertex_at 17 (codes ".3") (codes "0") ++ vertex_at 21 (codes "0.3") (codes "0.20")))
        ≡ Ok (line_to 5 0 0 3 0 ∷ line_to 5 3 0 3 2 ∷ []) }
    ensures closed { main_read 1 (file_of_polyline 21 (vertex_at 9 (codes "0") (codes "0")
        ++ pair_on 13 (pos 70) (codes "1.0") ∷ vertex_at 15 (codes "0.3") (codes "0")
        ++ pair_on 19 (pos 70) (codes "x") ∷ []))
        ≡ Ok (line_to 5 0 0 3 0 ∷ line_to 5 3 0 0 0 ∷ []) }
    ensures one_vertex { main_read 0 (file_of_polyline 15 (pair_on 9 (pos 70) (codes "-1")
        ∷ vertex_at 11 (codes "7") (codes "8"))) ≡ Ok [] }
    ensures oblique { main_read 0 (file_of_polyline 23 (pair_on 9 (pos 70) (codes "129")
        ∷ vertex_at 11 (codes "0") (codes "0") ++ vertex_at 15 (codes "3") (codes "0")
        ++ vertex_at 19 (codes "3") (codes "2"))) ≡ Err (Oblique 5) }
    ensures bent { main_read 0 (file_of_polyline 15 (pair_on 9 (pos 42) (codes "5e-99")
        ∷ vertex_at 11 (codes "x") (codes "0"))) ≡ Err (Curved 5) }
    ensures half_a_vertex { main_read 0 (file_of_polyline 15 (vertex_at 9 (codes "0") (codes "0")
        ++ pair_on 13 (pos 10) (codes "3") ∷ pair_on 15 (pos 10) (codes "x") ∷ []))
        ≡ Err (Missing 5 (pos 20)) }
    ensures last_half { main_read 0 (file_of_polyline 11 (pair_on 9 (pos 10) (codes "3") ∷ []))
        ≡ Err (Missing 5 (pos 20)) }
    ensures no_x { main_read 0 (file_of_polyline 11 (pair_on 9 (pos 20) (codes "x") ∷ []))
        ≡ Err (Missing 5 (pos 10)) }
    ensures two_ends { main_read 0 (file_of_polyline 15 (vertex_at 9 (codes "0") (codes "0")
        ++ pair_on 13 (pos 20) (codes "x") ∷ [])) ≡ Err (Repeated 13 (pos 20)) }
{}

/// Small files that are read in six views, written out by hand. A line on a further view's layer is
/// one of the view opposite to it, and has the linetype of its own layer; where three are read, it is
/// passed over. So is an arc there, which is a fault where six are.
pub fn small_files_of_six_views()
    ensures kept { apart_read (six_views 0) lines_of_further_views
        ≡ Ok (
          line_in Front 53 Solid 0 4 ∷ [],
          kept_on (further_layer Side) 17 Solid 1 0 ∷ kept_on (further_layer Front) 35 Dashed 0 2
              ∷ kept_on (further_layer Top) 71 Solid 3 0 ∷ [],
        ) }
    ensures passed_over { main_read 0 lines_of_further_views
        ≡ Ok (line_in Front 53 Solid 0 4 ∷ []) }
    ensures geometry { apart_read (six_views 0) (entity_on (codes "ARC") (codes "LEFT"))
        ≡ Err (Geometry 5) }
    ensures elsewhere { main_read 0 (entity_on (codes "ARC") (codes "LEFT")) ≡ Ok [] }
{}

/// Names of layers, written out by hand: a view that is cut, and a plane that is spelled as a
/// coordinate is. Each other name that begins so names no section.
pub fn small_names_of_sections()
    ensures section { layer_on (with_sections 0) (codes "SECTION_TOP_1")
        ≡ Shows (cut_layer (main_layer Top) (pos 1) false) }
    ensures area { layer_on (with_sections 0) (codes "area_Bottom_12")
        ≡ Shows (cut_layer (further_layer Top) (pos 12) true) }
    ensures spelled_so { layer_on (with_sections 0) (codes "SECTION_TOP_01")
        ≡ layer_on (with_sections 0) (codes "section_top_10E-1") }
    ensures decimals { layer_on (with_sections 2) (codes "SECTION_SIDE_-.5")
        ≡ Shows (cut_layer (main_layer Side) (neg_ℤ (pos 50)) false) }
    ensures not_whole { layer_on (with_sections 0) (codes "SECTION_SIDE_0.5") ≡ Misnamed }
    ensures too_far { layer_on (with_sections 0) (codes "AREA_SIDE_1000000001") ≡ Misnamed }
    ensures no_plane { layer_on (with_sections 0) (codes "SECTION_REAR") ≡ Misnamed }
    ensures no_number { layer_on (with_sections 0) (codes "SECTION_REAR_A") ≡ Misnamed }
    ensures two_planes { layer_on (with_sections 0) (codes "SECTION_REAR_1_2") ≡ Misnamed }
    ensures no_view { layer_on (with_sections 0) (codes "AREA_RIGHT_1") ≡ Misnamed }
    ensures begins_so { layer_on (with_sections 0) (codes "SECTION_") ≡ Misnamed }
    ensures other { layer_on (with_sections 0) (codes "SECTION") ≡ Unread }
    ensures six { layer_on (six_views 0) (codes "SECTION_TOP_1") ≡ Unread }
    ensures three { layer_on (three_views 0) (codes "SECTION_") ≡ Unread }
{}

/// Small files in which sections are read, written out by hand. Solid lines of sections and areas
/// are kept, hidden ones passed over; a layer's own linetype counts, however its plane is spelled.
/// An entity whose layer names no section is that fault before any other, but in paper space, where
/// it is no geometry, or where sections aren't read.
pub fn small_files_of_sections()
    ensures kept { apart_read (with_sections 0) lines_of_sections
        ≡ Ok (
          line_in Front 17 Solid 0 4 ∷ [],
          kept_on (cut_layer (main_layer Front) (pos 1) false) 35 Solid 1 0
              ∷ kept_on (cut_layer (main_layer Front) (pos 1) false) 53 Solid 2 0
              ∷ kept_on (cut_layer (further_layer Side) (pos 3) true) 71 Solid 0 2 ∷ [],
        ) }
    ensures passed_over { apart_read (six_views 0) lines_of_sections
        ≡ Ok (line_in Front 17 Solid 0 4 ∷ [], []) }
    ensures misnamed { apart_read (with_sections 0)
        (oblique_on (codes "SECTION_A") (pair_on 9 (pos 6) (codes "DOTTED") ∷ []))
        ≡ Err (SectionName 5) }
    ensures on_paper { apart_read (with_sections 0)
        (oblique_on (codes "SECTION_A") (pair_on 9 (pos 67) (codes "1") ∷ [])) ≡ Ok ([], []) }
    ensures unread { apart_read (six_views 0) (oblique_on (codes "SECTION_A") []) ≡ Ok ([], []) }
    ensures geometry { apart_read (with_sections 0) (entity_on (codes "ARC") (codes "AREA_A"))
        ≡ Err (SectionName 5) }
    ensures text { apart_read (with_sections 0) (entity_on (codes "TEXT") (codes "AREA_A"))
        ≡ Ok ([], []) }
    ensures arc { apart_read (with_sections 0) (entity_on (codes "ARC") (codes "AREA_TOP_1"))
        ≡ Err (Geometry 5) }
    ensures oblique { apart_read (with_sections 0) (oblique_on (codes "AREA_TOP_1") [])
        ≡ Err (Oblique 5) }
{}

/// Where three views are read, no line is one of a further view, and the faults are the same.
pub fn three_views_have_no_further_line()
    ensures lines { (decimals : ℕ) (text : List ℕ) (ls : List Line)
        → read_of decimals text ≡ Ok ls → lines_read (three_views decimals) text ≡ Ok (ls, []) }
    ensures alone { (decimals : ℕ) (text : List ℕ) (ls : List Line) (more : List LayerLine)
        → lines_read (three_views decimals) text ≡ Ok (ls, more)
        → (read_of decimals text ≡ Ok ls) × (more ≡ []) }
    ensures fault { (decimals : ℕ) (text : List ℕ) (fault : Fault)
        → read_of decimals text ≡ Err fault ↔ lines_read (three_views decimals) text ≡ Err fault }
{}

/// Where six views are read, no line is one of a view that is cut.
pub fn six_views_have_no_cut()
    ensures { (decimals : ℕ) (text : List ℕ) (ls : List Line) (more : List LayerLine)
        → lines_read (six_views decimals) text ≡ Ok (ls, more)
        → Each (λ l. l.layer.cut ≡ None) more }
{}

/// Each line that is read of a text is level or upright, is drawn, and has coordinates of an
/// absolute value of at most 1,000,000,000.
pub fn read_lines_are_kept()
    ensures { (decimals : ℕ) (text : List ℕ) (ls : List Line) → read_of decimals text ≡ Ok ls
        → Each IsKept ls }
{}
