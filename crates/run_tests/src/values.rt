//! Linetypes and coordinates.

/// Files with each linetype, of a line or of its layer.
pub const LINETYPES: &str = "\
-- A line's own pair on its linetype, and the entries of TABLES: linetypes of visible edges.
= 0 SECTION, 2 TABLES, #2, 0 ENDSEC, \
    0 SECTION, 2 ENTITIES, 0 LINE, 8 SIDE, #1, 10 1, 20 0, 11 1, 21 1, \
    FRONT, rect S 0 0 2 1, line D 1 0 1 1, TOP, line S 0 0 2 0, line S 2 0 2 1, line S 2 1 1 1, \
    line S 1 1 1 2, line S 1 2 0 2, line S 0 2 0 0, SIDE, rect S 0 0 2 1, 0 ENDSEC, 0 EOF
6 CONTINUOUS; 5 1 -> three cubes
6 BYBLOCK; 5 1 -> three cubes
6 BYLAYER; 5 1 -> three cubes
999 x; 5 1 -> three cubes
6 Continuous; 5 1 -> three cubes
6 BYLAYER; 0 LAYER, 2 SIDE -> three cubes
6 BYLAYER; 0 LAYER, 2 SIDE, 6 CONTINUOUS -> three cubes
6 BYLAYER; 0 LAYER, 2 SIDE, 6 BYLAYER -> three cubes
6 BYLAYER; 0 LAYER, 2 SIDE, 6 BYBLOCK -> three cubes
6 CONTINUOUS; 0 LAYER, 2 SIDE, 6 PHANTOM -> three cubes
6 BYLAYER; 0 LAYER, 2 NOTES, 6 PHANTOM -> three cubes
6 BYLAYER; 0 STYLE, 2 SIDE, 6 PHANTOM -> three cubes
6 BYLAYER; 2 SIDE, 6 PHANTOM -> three cubes
6 BYLAYER; 0 LAYER, 2 NOTES, 2 SIDE, 6 PHANTOM -> three cubes
6 BYLAYER; 0 LAYER, 2 SIDE, 0 LAYER, 2 SIDE, 6 PHANTOM -> three cubes
-- Linetypes of hidden edges.
= 0 SECTION, 2 TABLES, #2, 0 ENDSEC, \
    0 SECTION, 2 ENTITIES, 0 LINE, 8 FRONT, #1, 10 1, 20 0, 11 1, 21 1, \
    FRONT, rect S 0 0 2 1, TOP, line S 0 0 2 0, line S 2 0 2 1, line S 2 1 1 1, \
    line S 1 1 1 2, line S 1 2 0 2, line S 0 2 0 0, \
    SIDE, rect S 0 0 2 1, line S 1 0 1 1, 0 ENDSEC, 0 EOF
6 HIDDEN; 5 1 -> three cubes
6 HIDDEN2; 5 1 -> three cubes
6 HIDDENX2; 5 1 -> three cubes
6 DASHED; 5 1 -> three cubes
6 DASHED2; 5 1 -> three cubes
6 DASHEDX2; 5 1 -> three cubes
6 Hidden; 5 1 -> three cubes
6 HIDDEN, 6 PHANTOM; 5 1 -> three cubes
6 HIDDEN; 0 LAYER, 2 FRONT, 6 PHANTOM -> three cubes
6 BYLAYER; 0 LAYER, 2 FRONT, 6 HIDDEN -> three cubes
6 ByLayer; 0 layer, 2 FRONT, 6 hidden -> three cubes
999 x; 0 LAYER, 6 DASHED, 2 FRONT -> three cubes
6 BYLAYER; 0 LAYER, 2 FRONT, 6 HIDDEN, 6 PHANTOM -> three cubes
6 BYLAYER; 0 LAYER, 2 FRONT, 6 HIDDEN, 0 LAYER, 2 FRONT, 6 PHANTOM -> three cubes
6 BYLAYER; 0 LAYER, 2 FRONT, 6 HIDDEN, 0 ENDSEC, 0 SECTION, 2 TABLES, \
    0 LAYER, 2 FRONT, 6 CONTINUOUS -> three cubes
6 BYLAYER; 0 LAYER, 2 FRONT, 102 {A, 6 PHANTOM, 102 }, 6 HIDDEN -> three cubes
6 BYLAYER; 0 LAYER, 2 NOTES, 102 {A, 0 LAYER, 2 FRONT, 6 HIDDEN -> three cubes
-- Linetypes of centre lines, which are passed over unread.
= 0 SECTION, 2 TABLES, #2, 0 ENDSEC, \
    0 SECTION, 2 ENTITIES, 0 LINE, 8 FRONT, #1, 10 0.5, 20 0, 11 3, 21 9, \
    FRONT, rect S 0 0 2 1, line D 1 0 1 1, TOP, line S 0 0 2 0, line S 2 0 2 1, line S 2 1 1 1, \
    line S 1 1 1 2, line S 1 2 0 2, line S 0 2 0 0, \
    SIDE, rect S 0 0 2 1, line S 1 0 1 1, 0 ENDSEC, 0 EOF
6 CENTER; 5 1 -> three cubes
6 CENTER2; 5 1 -> three cubes
6 CENTERX2; 5 1 -> three cubes
6 center; 5 1 -> three cubes
6 CENTER, 6 PHANTOM; 5 1 -> three cubes
6 BYLAYER; 0 LAYER, 2 FRONT, 6 CENTER -> three cubes
-- Linetypes that have no style.
6 PHANTOM; 5 1 -> 1 fault F12 Linetype line 13
6 DOT; 5 1 -> 1 fault F12 Linetype line 13
6 DASHDOT; 5 1 -> 1 fault F12 Linetype line 13
6 DIVIDE; 5 1 -> 1 fault F12 Linetype line 13
6 HIDDENX; 5 1 -> 1 fault F12 Linetype line 13
6 HIDDEN 2; 5 1 -> 1 fault F12 Linetype line 13
6 ; 5 1 -> 1 fault F12 Linetype line 13
6 BYLAYER; 0 LAYER, 2 FRONT, 6 PHANTOM -> 1 fault F12 Linetype line 17
999 x; 0 LAYER, 2 FRONT, 6 PHANTOM, 0 LAYER, 2 FRONT, 6 HIDDEN -> 1 fault F12 Linetype line 23";

/// Files with coordinates in each form.
pub const NUMERALS: &str = "\
-- A whole number, in the first line of the unit cube's file; the number again, and a neighbour.
= 0 SECTION, 2 ENTITIES, 0 LINE, 8 FRONT, 6 CONTINUOUS, 10 #1, 20 0, 30 0, 11 #3, 21 0, 31 0, \
    FRONT, line S #2 1 #3 1, line S #2 0 #2 1, line S #3 0 #3 1, \
    TOP, rect S 0 0 1 1, SIDE, rect S 0 0 1 1, 0 ENDSEC, 0 EOF
10; 10; 9 -> unit cube
+10; 10; 9 -> unit cube
010; 10; 9 -> unit cube
10.; 10; 9 -> unit cube
10.000; 10; 9 -> unit cube
1.0E+01; 10; 9 -> unit cube
100e-1; 10; 9 -> unit cube
-0; 0; 1 -> unit cube
-0.0; 0; 1 -> unit cube
.0; 0; 1 -> unit cube
0E99999999999999999999; 0; 1 -> unit cube
0E-99999999999999999999; 0; 1 -> unit cube
10E-1; 1; 0 -> unit cube
100000000000000000000E-20; 1; 0 -> unit cube
0.00000000000000000001E20; 1; 0 -> unit cube
-12.5000E1; -125; -124 -> unit cube
.5e1; 5; 4 -> unit cube
1000000000; 1000000000; 999999999 -> unit cube
-1E9; -1000000000; -999999999 -> unit cube
-.1e+10; -1000000000; -999999999 -> unit cube
-- What is no whole number within reach.
= 0 SECTION, 2 ENTITIES, 0 LINE, 8 FRONT, 6 CONTINUOUS, 10 #1, 20 0, 30 0, 11 1, 21 0, 31 0, \
    FRONT, line S 0 1 1 1, line S 0 0 0 1, line S 1 0 1 1, \
    TOP, rect S 0 0 1 1, SIDE, rect S 0 0 1 1, 0 ENDSEC, 0 EOF
0.5 -> 1 fault F7 NotWhole line 12 code 10
2.5 -> 1 fault F7 NotWhole line 12 code 10
1E-5 -> 1 fault F7 NotWhole line 12 code 10
1E-400 -> 1 fault F7 NotWhole line 12 code 10
1E-99999999999999999999 -> 1 fault F7 NotWhole line 12 code 10
1000000001.5 -> 1 fault F7 NotWhole line 12 code 10
1000000001 -> 1 fault F8 TooFar line 12 code 10
-1000000001 -> 1 fault F8 TooFar line 12 code 10
1E400 -> 1 fault F8 TooFar line 12 code 10
1E99999999999999999999 -> 1 fault F8 TooFar line 12 code 10
99999999999999999999999999 -> 1 fault F8 TooFar line 12 code 10
x -> 1 fault F6 BadNumber line 12 code 10
 -> 1 fault F6 BadNumber line 12 code 10
. -> 1 fault F6 BadNumber line 12 code 10
- -> 1 fault F6 BadNumber line 12 code 10
1E -> 1 fault F6 BadNumber line 12 code 10
1E+ -> 1 fault F6 BadNumber line 12 code 10
1,0 -> 1 fault F6 BadNumber line 12 code 10
1 0 -> 1 fault F6 BadNumber line 12 code 10
1.0. -> 1 fault F6 BadNumber line 12 code 10
E5 -> 1 fault F6 BadNumber line 12 code 10
+-1 -> 1 fault F6 BadNumber line 12 code 10
1\u{e9} -> 1 fault F6 BadNumber line 12 code 10";
