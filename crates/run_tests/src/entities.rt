//! Entities, and the sections round them.

/// Files with further entities and sections.
pub const ENTITIES: &str = "\
-- Entities before those of the unit cube, the first one at line 5: what is passed over.
= 0 SECTION, 2 ENTITIES, #1, cube, 0 ENDSEC, 0 EOF
0 ARC, 8 TOP, 67 1 -> unit cube
0 ARC, 8 NOTES -> unit cube
0 ARC -> unit cube
0 TEXT, 8 TOP, 6 PHANTOM, 10 x -> unit cube
0 LINE, 8 NOTES, 8 FRONT, 10 x -> unit cube
0 LINE, 8 FRONT, 67 1, 6 PHANTOM, 10 x -> unit cube
8 FRONT, 10 x -> unit cube
0 LINE, 8 NOTES, 10 0, 20 0, 11 1, 21 0 -> unit cube
0 LINE, 8 RIGHT, 10 x -> unit cube
0 TRACE, 8 TOP, 6 PHANTOM, 10 x -> unit cube
0 MLINE, 8 FRONT, 10 0, 20 0 -> unit cube
0 REGION, 8 SIDE -> unit cube
0 TEXT, 8 TOP, 999 0, 10 x -> unit cube
0 TEXT, 8 TOP, -5 0, 1071 0, 0005 0 -> unit cube
-- Pairs are told from what is none there too, and an application's end with it.
0 TEXT, 8 TOP, 10 x, x 1 -> 1 fault F2 BadCode line 11
0 LINE, 8 NOTES, 10 x, 00005 1 -> 1 fault F2 BadCode line 11
0 TEXT, 8 TOP, 102 {A, 0 LINE, 8 FRONT -> 1 fault F9 Missing line 11 code 10
-- What a line may tell in any order, or twice, or isn't read of it.
0 LINE, 8 FRONT, 10 5, 20 5, 11 5, 21 5 -> unit cube
0 LINE, 21 0, 11 1, 20 0, 10 0, 8 FRONT -> unit cube
0 LINE, 8 FRONT, 10 0, 20 0, 30 x, 11 1, 21 0, 31 y -> unit cube
0 LINE, 999 8, 8 FRONT, 999 x, 10 0, 20 0, 11 1, 999 , 21 0 -> unit cube
-- Geometry that gives no lines.
0 ARC, 8 TOP -> 1 fault F13 Geometry line 5
0 CIRCLE, 8 TOP -> 1 fault F13 Geometry line 5
0 ELLIPSE, 8 TOP -> 1 fault F13 Geometry line 5
0 SPLINE, 8 TOP -> 1 fault F13 Geometry line 5
0 POLYLINE, 8 TOP -> 1 fault F13 Geometry line 5
0 INSERT, 8 TOP -> 1 fault F13 Geometry line 5
0 SOLID, 8 TOP -> 1 fault F13 Geometry line 5
0 3DFACE, 8 TOP -> 1 fault F13 Geometry line 5
0 arc, 8 Top -> 1 fault F13 Geometry line 5
0 ARC, 8 FRONT, 8 NOTES -> 1 fault F13 Geometry line 5
0 ARC, 8 SIDE, 6 PHANTOM, 10 x -> 1 fault F13 Geometry line 5
0 ARC, 8 SIDE, 67 01 -> 1 fault F13 Geometry line 5
0 ARC, 8 SIDE, 67 0, 67 1 -> 1 fault F13 Geometry line 5
-- Coordinates are judged in the file's order.
0 LINE, 8 FRONT, 10 x -> 1 fault F6 BadNumber line 10 code 10
0 LINE, 8 FRONT, 10 0, 20 0.5 -> 1 fault F7 NotWhole line 12 code 20
0 LINE, 8 FRONT, 11 2000000000 -> 1 fault F8 TooFar line 10 code 11
0 LINE, 8 FRONT, 20 1000000001 -> 1 fault F8 TooFar line 10 code 20
0 LINE, 8 FRONT, 10 0, 20 0, 21 -1000000001 -> 1 fault F8 TooFar line 14 code 21
0 LINE, 8 FRONT, 21 - -> 1 fault F6 BadNumber line 10 code 21
0 LINE, 8 FRONT, 20 x -> 1 fault F6 BadNumber line 10 code 20
0 LINE, 8 FRONT, 20 0, 11 1e -> 1 fault F6 BadNumber line 12 code 11
0 LINE, 8 FRONT, 21 .5, 10 x -> 1 fault F7 NotWhole line 10 code 21
-- Coordinates that stand there again.
0 LINE, 8 FRONT, 10 0, 10 x -> 1 fault F10 Repeated line 11 code 10
0 LINE, 8 FRONT, 20 0, 10 0, 20 0 -> 1 fault F10 Repeated line 13 code 20
0 LINE, 8 FRONT, 11 0, 11 0 -> 1 fault F10 Repeated line 11 code 11
0 LINE, 8 FRONT, 10 0, 20 0, 11 1, 21 0, 21 0 -> 1 fault F10 Repeated line 17 code 21
0 LINE, 8 FRONT, 6 CONTINUOUS, 10 0, 20 0, 30 0, 11 1, 21 0, 31 0, 10 0 -> \
    1 fault F10 Repeated line 23 code 10
0 LINE, 8 FRONT, 10 x, 10 0 -> 1 fault F6 BadNumber line 10 code 10
-- Coordinates that are missing, the first of 10, 20, 11 and 21.
0 LINE, 8 FRONT -> 1 fault F9 Missing line 5 code 10
0 LINE, 8 FRONT, 21 0, 11 1, 20 0 -> 1 fault F9 Missing line 5 code 10
0 LINE, 8 FRONT, 10 0, 11 1 -> 1 fault F9 Missing line 5 code 20
0 LINE, 8 FRONT, 6 CONTINUOUS, 10 0, 20 0, 30 0, 21 0, 31 0 -> 1 fault F9 Missing line 5 code 11
0 LINE, 8 FRONT, 10 0, 20 0, 11 1 -> 1 fault F9 Missing line 5 code 21
-- Lines that are neither level nor upright.
0 LINE, 8 FRONT, 10 0, 20 0, 11 1, 21 1 -> 1 fault F11 Oblique line 5
0 LINE, 8 TOP, 10 0, 20 0, 11 1, 21 0, 0 LINE, 8 TOP, 10 0, 20 0, 11 1, 21 1 -> \
    1 fault F11 Oblique line 17
-- Linetypes come before coordinates.
0 LINE, 8 TOP, 6 PHANTOM, 10 0, 20 0, 11 1, 21 0 -> 1 fault F12 Linetype line 5
0 LINE, 8 TOP, 6 PHANTOM, 10 x -> 1 fault F12 Linetype line 5
0 LINE, 8 TOP, 6 PHANTOM, 6 CONTINUOUS, 10 0, 20 0, 11 1, 21 0 -> 1 fault F12 Linetype line 5
0 LINE, 8 TOP, 6 , 10 0, 20 0, 11 1, 21 0 -> 1 fault F12 Linetype line 5
-- What belongs to an application is passed over, up to the first `}` or the entity's end.
0 LINE, 8 FRONT, 102 {ACAD, 8 NOTES, 10 x, 999 y, 102 }, 10 0, 20 0, 11 1, 21 0 -> unit cube
0 LINE, 8 FRONT, 102 {, 102 {B, 102 }, 10 x -> 1 fault F6 BadNumber line 16 code 10
0 LINE, 8 FRONT, 102 {A, 102 }x, 10 x, 102 }, 10 y -> 1 fault F6 BadNumber line 18 code 10
0 LINE, 8 FRONT, 102 }, 10 x -> 1 fault F6 BadNumber line 12 code 10
0 LINE, 8 NOTES, 102 {A, 10 x, 0 LINE, 8 FRONT -> 1 fault F9 Missing line 13 code 10
-- What stands before and after the entities of the unit cube.
= #1, cube, #2
0 section, 2 entities; 0 endsec, 0 eof -> unit cube
0 Section, 2 Entities, 0 line, 8 front, 6 continuous, 10 0, 20 0, 11 1, 21 0; \
    0 EndSec, 0 Eof -> unit cube
0 SECTION, 2 HEADER, 9 x, 0 LINE, 8 FRONT, 10 x, 0 ENDSEC, \
    0 SECTION, 2 ENTITIES; 0 ENDSEC, 0 EOF -> unit cube
0 SECTION, 2 ENTITIES, 0 ENDSEC, 0 SECTION, 2 ENTITIES; 0 ENDSEC, 0 EOF -> unit cube
0 SECTION, 2 ENTITIES, 0 ARC, 8 TOP, 0 ENDSEC, \
    0 SECTION, 2 ENTITIES; 0 ENDSEC, 0 EOF -> 1 fault F13 Geometry line 5
0 SECTION, 2 BLOCKS, 0 ENDSEC, 0 SECTION, 2 ENTITIES; 0 ENDSEC, 0 EOF, x, 0 SECTION -> unit cube
0 SECTION, 2 ENTITIES; 0 ENDSEC, 0 SECTION, 2 OBJECTS, 0 ARC, 8 TOP, 0 ENDSEC, 0 EOF -> unit cube
0 SECTION, 2 ENTITIES; 0 ENDSEC, 0 SECTION, 2 OBJECTS, 0 ENDSEC -> 1 fault F4 NoEof line 229
0 SECTION, 2 ENTITIES; 0 TEXT, 8 SIDE -> 1 fault F4 NoEof line 225
0 SECTION, 2 ENTITIES; 0 ARC, 8 SIDE, 0 ENDSEC, 0 EOF -> 1 fault F13 Geometry line 221
0 SECTION, 2 ENTITIES; 0 LINE, 8 SIDE, 0 EOF -> 1 fault F9 Missing line 221 code 10
0 SECTION, 2 ENTITIES, 0 LINE, 8 TOP, 10 0, 20 0, 11 1, 21 0; \
    0 ENDSEC, 0 SECTION, 2 TABLES, 0 LAYER, 2 TOP, 6 PHANTOM, 0 ENDSEC, 0 EOF -> unit cube
0 SECTION, 2 TABLES, 0 LAYER, 2 TOP, 6 PHANTOM, 0 ENDSEC, \
    0 SECTION, 2 ENTITIES, 0 LINE, 8 TOP; 0 ENDSEC, 0 EOF -> 1 fault F12 Linetype line 17
0 SECTION, 2 BLOCKS, 0 LAYER, 2 TOP, 6 PHANTOM, 0 ENDSEC, \
    0 SECTION, 2 ENTITIES, 0 LINE, 8 TOP, 10 0, 20 0, 11 1, 21 0; 0 ENDSEC, 0 EOF -> unit cube";
