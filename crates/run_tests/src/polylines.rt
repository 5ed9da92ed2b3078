//! Polylines.

/// Files with polylines.
pub const POLYLINES: &str = "\
-- The front of the unit cube as one polyline; its flags, and what stands between its vertices.
= 0 SECTION, 2 ENTITIES, 0 LWPOLYLINE, 8 FRONT, #1, 10 0, 20 0, #2, 10 1, 20 0, 10 1, 20 1, \
    10 0, 20 1, TOP, rect S 0 0 1 1, SIDE, rect S 0 0 1 1, 0 ENDSEC, 0 EOF
70 1; 999 x -> unit cube
70 129; 30 x -> unit cube
70 1.0; 40 x, 41 y, 91 z -> unit cube
70 10E-1; 102 {A, 10 x, 102 } -> unit cube
70 -1; 6 CONTINUOUS -> unit cube
90 x, 43 y, 38 z; 70 1, 39 u -> unit cube
70 1; 70 x -> unit cube
70 1; 42 0.0 -> unit cube
42 0e5, 70 1; 42 -0 -> unit cube
70 0; 999 x -> 0 whole 0 nodes 0 blocks 0
70 128; 70 1 -> 0 whole 0 nodes 0 blocks 0
999 x; 999 y -> 0 whole 0 nodes 0 blocks 0
70 1; 42 0.5 -> 1 fault F19 Curved line 5
42 5e-99; 10 x -> 1 fault F19 Curved line 5
42 1e99; 999 x -> 1 fault F19 Curved line 5
42 0,5; 999 x -> 1 fault F6 BadNumber line 10 code 42
70 1; 42 - -> 1 fault F6 BadNumber line 16 code 42
70 x; 999 x -> 1 fault F6 BadNumber line 10 code 70
70 0.5; 999 x -> 1 fault F7 NotWhole line 10 code 70
70 -1E10; 999 x -> 1 fault F8 TooFar line 10 code 70
-- Polylines before the entities of the unit cube, the first one at line 5: what is passed over.
= 0 SECTION, 2 ENTITIES, #1, cube, 0 ENDSEC, 0 EOF
0 LWPOLYLINE, 8 TOP -> unit cube
0 LwPolyline, 8 Top, 10 5, 20 7 -> unit cube
0 LWPOLYLINE, 8 TOP, 70 1, 10 5, 20 7 -> unit cube
0 LWPOLYLINE, 8 NOTES, 10 x, 42 1 -> unit cube
0 LWPOLYLINE, 10 x, 42 1 -> unit cube
0 LWPOLYLINE, 8 SIDE, 67 1, 10 x -> unit cube
0 LWPOLYLINE, 8 SIDE, 10 5, 20 5, 10 9, 20 5, 6 CENTER -> unit cube
0 LWPOLYLINE, 42 1, 6 CENTER2, 8 SIDE -> unit cube
-- Lines of polylines lie over those of the unit cube.
0 LWPOLYLINE, 8 FRONT, 10 0, 20 0, 10 1, 20 0, 10 1, 20 0, 10 1, 20 1 -> unit cube
0 LWPOLYLINE, 8 FRONT, 6 HIDDEN, 70 1, 10 1, 20 0, 10 1, 20 1 -> unit cube
0 LWPOLYLINE, 10 0, 20 1, 70 0, 10 0, 20 0, 8 FRONT -> unit cube
-- Linetypes come before what stands at the vertices.
0 LWPOLYLINE, 8 TOP, 10 x, 6 PHANTOM -> 1 fault F12 Linetype line 5
-- Vertices with a half, or with one too many.
0 LWPOLYLINE, 8 TOP, 20 x, 10 0 -> 1 fault F9 Missing line 5 code 10
0 LWPOLYLINE, 8 TOP, 10 0, 10 x -> 1 fault F9 Missing line 5 code 20
0 LWPOLYLINE, 8 TOP, 10 0, 20 0, 10 1, 42 0 -> 1 fault F9 Missing line 5 code 20
0 LWPOLYLINE, 8 TOP, 10 0, 20 0, 20 x -> 1 fault F10 Repeated line 13 code 20
-- Their coordinates are judged in the file's order.
0 LWPOLYLINE, 8 TOP, 10 x, 10 0 -> 1 fault F6 BadNumber line 10 code 10
0 LWPOLYLINE, 8 TOP, 10 0, 20 0.5, 42 1 -> 1 fault F7 NotWhole line 12 code 20
0 LWPOLYLINE, 8 TOP, 10 0, 20 0, 10 -2E9, 70 x -> 1 fault F8 TooFar line 14 code 10
-- Lines that are neither level nor upright, the last one of a closed polyline too.
0 LWPOLYLINE, 8 TOP, 10 0, 20 0, 10 1, 20 0, 10 2, 20 1, 10 2, 20 5 -> 1 fault F11 Oblique line 5
0 LWPOLYLINE, 8 TOP, 70 1, 10 0, 20 0, 10 1, 20 0, 10 1, 20 1 -> 1 fault F11 Oblique line 5
0 LINE, 8 TOP, 10 0, 20 0, 11 1, 21 0, 0 LWPOLYLINE, 8 TOP, 10 0, 20 0, 10 1, 20 1 -> \
    1 fault F11 Oblique line 17";
