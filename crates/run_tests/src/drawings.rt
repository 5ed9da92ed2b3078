//! Drawings.

/// Small drawings, and some at the limits.
pub const DRAWINGS: &str = "\
-- The same strokes in each view: the unit cube; stroked over; flat strokes.
= 0 SECTION, 2 ENTITIES, FRONT, #1, TOP, #1, SIDE, #1, 0 ENDSEC, 0 EOF
rect S 0 0 1 1 -> unit cube
line D 0 0 1 0, rect S 0 0 1 1, rect S 1 1 0 0, rect S 0 0 1 1, rect D 1 0 0 1, line D 1 1 1 1 -> \
    unit cube
line S 0 0 1 0 -> 0 whole 0 nodes 0 blocks 0
-- The quartered cube.
rect S 0 0 2 2, line S 0 1 2 1, line S 1 0 1 2 -> 0 whole 3 nodes 23 blocks 8|\
    solid 1 choice 10110110 volume 5 faces .. |solid 2 choice 10010110 volume 4 faces 24| .. |\
    solid 3 choice 01101001 volume 4 faces 24| .. |face +z at 2 loop 0,0,2 1,0,2 1,1,2 0,1,2|\
    face +z at 2 loop 1,1,2 2,1,2 2,2,2 1,2,2
-- The hollow cube; and a cube of the greatest width.
rect S 0 0 3 3, rect D 1 1 2 2 -> 0 whole 1 nodes 3 blocks 2|\
    solid 1 choice 10 volume 26 faces 12|face -x at 0 loop 0,0,0 0,0,3 0,3,3 0,3,0|\
    face -x at 2 loop 2,1,1 2,1,2 2,2,2 2,2,1|face +x at 1 loop 1,1,1 1,2,1 1,2,2 1,1,2|\
    face +x at 3 loop 3,0,0 3,3,0 3,3,3 3,0,3| .. |face +z at 3 loop 0,0,3 3,0,3 3,3,3 0,3,3
rect S -1000000000 -1000000000 1000000000 1000000000 -> \
    0 whole 1 nodes 2 blocks 1|solid 1 choice 1 volume 8000000000000000000000000000 faces 6| .. |\
    face +z at 2000000000 loop 0,0,2000000000 2000000000,0,2000000000 \
    2000000000,2000000000,2000000000 0,2000000000,2000000000
-- A cube with eight voids; and so with two smaller cubes beyond its corner, one of them hollow.
rect S 0 0 5 5, rect D 1 1 2 2, rect D 3 1 4 2, rect D 1 3 2 4, rect D 3 3 4 4 -> \
    0 whole 35 nodes 109 blocks 9|solid 1 choice 110010110 volume 121 faces 30| .. |\
    solid 35 choice 100000000 volume 117 faces 54| .. |face +z at 5 loop 0,0,5 5,0,5 5,5,5 0,5,5
rect S 0 0 5 5, rect D 1 1 2 2, rect D 3 1 4 2, rect D 1 3 2 4, rect D 3 3 4 4, \
    rect S 6 6 9 9, rect D 7 7 8 8, rect S 10 10 11 11 -> 0 whole 35 nodes 214 blocks 12|\
    solid 1 choice 110010110101 volume 148 faces 48| .. |solid 35 choice 100000000101 volume 144 faces 72| .. |\
    face +z at 11 loop 10,10,11 11,10,11 11,11,11 10,11,11
-- 32 cubes on the diagonal, with 64 grid coordinates along each axis.
diagonal 32 -> 0 whole 1 nodes 33 blocks 32|\
    solid 1 choice 11111111111111111111111111111111 volume 32 faces 192| .. |\
    face +z at 63 loop 62,62,63 63,62,63 63,63,63 62,63,63
-- The unit cube, moved on the sheet; and so with its first line turned round.
= 0 SECTION, 2 ENTITIES, FRONT, #1, TOP, #2, SIDE, #3, 0 ENDSEC, 0 EOF
rect S -7 1000 -6 1001; rect S 999999999 -1000000000 1000000000 -999999999; \
    rect S -1 -1 0 0 -> unit cube
line S 101 200 100 200, line S 100 201 101 201, line S 100 200 100 201, line S 101 200 101 201; \
    rect S 100 350 101 351; rect S 250 200 251 201 -> unit cube
-- The quartered cube with half of a stroke hidden from above, which no solid shows: what lines force refutes it.
rect S 0 0 2 2, line S 0 1 2 1, line S 1 0 1 2; \
    rect S 0 0 2 2, line S 0 1 2 1, line S 1 0 1 1, line D 1 1 1 2; \
    rect S 0 0 2 2, line S 0 1 2 1, line S 1 0 1 2 -> 0 whole 0 nodes 0 blocks 8
-- Two cubes along an edge.
rect S 0 0 2 1, line S 1 0 1 1; rect S 0 0 1 1, rect S 1 1 2 2; rect S 0 0 2 1, line S 1 0 1 1 -> \
    0 whole 1 nodes 3 blocks 2|solid 1 choice 11 volume 2 faces 12| .. |\
    face +z at 1 loop 0,0,1 1,0,1 1,1,1 0,1,1|face +z at 1 loop 1,1,1 2,1,1 2,2,1 1,2,1
-- A narrow top; and flat strokes of the greatest width.
rect S 0 0 2 1; rect S 0 0 1 1; rect S 0 0 1 1 -> 0 whole 0 nodes 0 blocks 0
line S -1000000000 7 1000000000 7; line S -1000000000 7 1000000000 7; line S 0 3 1 3 -> \
    0 whole 0 nodes 0 blocks 0
-- The pierced plate.
rect S 0 0 3 1, line D 1 0 1 1, line D 2 0 2 1; rect S 0 0 3 3, rect S 1 1 2 2; \
    rect S 0 0 3 1, line D 1 0 1 1, line D 2 0 2 1 -> 0 whole 1 nodes 3 blocks 2|\
    solid 1 choice 10 volume 8 faces 10| .. |\
    face +z at 1 loop 0,0,1 3,0,1 3,3,1 0,3,1 loop 1,1,1 1,2,1 2,2,1 2,1,1
-- A plate with two holes that touch at an edge: from above the loop turns left there, and passes it twice.
rect S 0 0 4 1, line D 1 0 1 1, line D 2 0 2 1, line D 3 0 3 1; \
    rect S 0 0 4 4, rect S 1 1 2 2, rect S 2 2 3 3; \
    rect S 0 0 4 1, line D 1 0 1 1, line D 2 0 2 1, line D 3 0 3 1 -> 0 whole 1 .. |\
    face +z at 1 loop 0,0,1 4,0,1 4,4,1 0,4,1 \
    loop 1,1,1 1,2,1 2,2,1 2,3,1 3,3,1 3,2,1 2,2,1 2,1,1
-- The hollow cube, with the void's square seen in front.
rect S 0 0 3 3, rect S 1 1 2 2; rect S 0 0 3 3, rect D 1 1 2 2; \
    rect S 0 0 3 3, rect D 1 1 2 2 -> 0 whole 0 nodes 1 blocks 2
-- A row of 12 cubes is one grid cell. Edges that the top alone shows close off no block.
rect S 0 0 12 1; rect S 0 0 12 1; rect S 0 0 1 1 -> 0 whole 1 nodes 2 blocks 1|\
    solid 1 choice 1 volume 12 faces 6| .. |face +z at 1 loop 0,0,1 12,0,1 12,1,1 0,1,1
rect S 0 0 12 1; rect S 0 0 12 1, rect S 1 0 11 1, rect S 2 0 10 1, rect S 3 0 9 1, \
    rect S 4 0 8 1, rect S 5 0 7 1, line S 6 0 6 1; rect S 0 0 1 1 -> \
    0 whole 0 nodes 0 blocks 1
-- Strokes that overlap: a solid one wins, and where they are cut leaves no trace.
line S 0 0 6 0, line S 4 0 10 0, line D 2 0 9 0, line S 0 10 10 10, line S 0 0 0 10, \
    line S 10 0 10 10; \
    rect S 0 0 10 10; rect S 0 0 10 10 -> 0 whole 1 nodes 2 blocks 1|\
    solid 1 choice 1 volume 1000 faces 6| .. |face +z at 10 loop 0,0,10 10,0,10 10,10,10 0,10,10
-- A slab with a block on its corner, in front on the left: unequal along all three axes.
line S 0 0 5 0, line D 0 3 2 3, line S 2 3 5 3, line S 0 4 2 4, line S 0 0 0 4, line S 2 3 2 4, \
    line S 5 0 5 3; \
    rect S 0 0 5 5, line S 0 1 2 1, line S 2 0 2 1; \
    rect S 0 0 5 3, line S 0 4 1 4, line S 0 3 0 4, line S 1 3 1 4 -> \
    0 whole 1 nodes 3 blocks 2|solid 1 choice 11 volume 77 faces 9| .. |\
    face +z at 3 loop 2,0,3 5,0,3 5,5,3 0,5,3 0,1,3 2,1,3|face +z at 4 loop 0,0,4 2,0,4 2,1,4 0,1,4
-- A lattice of voids with 4,097 blocks.
lattice 16 16; lattice 16 16; lattice 16 16 -> 1 fault F18 TooManyBlocks count 4097
-- One line more than 32 cubes on the diagonal; two axes that are too fine; and 66 heights in the side view.
diagonal 32, line S 64 0 64 1; diagonal 32; diagonal 32 -> 1 fault F17 TooFine axis x count 65
diagonal 32, line S 64 0 64 1; diagonal 32, line S 0 64 1 64; diagonal 32 -> \
    1 fault F17 TooFine axis x count 65
diagonal 32, line S 0 64 1 64; diagonal 32, line S 0 66 1 66, line S 0 67 1 67; diagonal 32 -> \
    1 fault F17 TooFine axis y count 66
rect S 0 0 1 1; rect S 0 0 1 1; lattice 1 32 -> 1 fault F17 TooFine axis z count 66
-- The unit cube's views in two sections; and views that show nothing.
= 0 SECTION, 2 ENTITIES, #1, 0 ENDSEC, 0 EOF
TOP, rect S 0 0 1 1, SIDE, rect S 0 0 1 1, 0 ENDSEC, 0 SECTION, 2 ENTITIES, \
    FRONT, rect S 0 0 1 1 -> unit cube
FRONT, rect S 0 0 1 1, TOP, rect S 0 0 1 1 -> 1 fault F14 EmptyView view SIDE
FRONT, rect S 0 0 1 1, TOP, rect S 0 0 1 1, SIDE, line S 3 3 3 3 -> 1 fault F14 EmptyView view SIDE
FRONT, rect S 0 0 1 1, TOP, line S 4 4 4 4 -> 1 fault F14 EmptyView view TOP
FRONT -> 1 fault F14 EmptyView view FRONT
-- The unit cube's first line ends at (1,1); and so on the layer NOTES, with the old line kept.
= 0 SECTION, 2 ENTITIES, FRONT, #1, line S 0 1 1 1, line S 0 0 0 1, line S 1 0 1 1, \
    TOP, rect S 0 0 1 1, SIDE, rect S 0 0 1 1, 0 ENDSEC, 0 EOF
line S 0 0 1 1 -> 1 fault F11 Oblique line 5
0 LINE, 8 NOTES, 6 CONTINUOUS, 10 0, 20 0, 30 0, 11 1, 21 1, 31 0, line S 0 0 1 0 -> unit cube
-- The unit cube with its codes right in three places.
= padded: #1
0 SECTION, 2 ENTITIES, cube, 0 ENDSEC, 0 EOF -> unit cube
-- A bracket, as drawing programs write it, with further sections and layers.
= padded CR LF: #1
0 SECTION, 2 HEADER, 9 $ACADVER, 1 AC1015, 0 ENDSEC, \
    0 SECTION, 2 TABLES, 0 TABLE, 2 LAYER, 5 2, 330 0, 100 AcDbSymbolTable, 70 5, \
    0 LAYER, 5 10, 330 2, 100 AcDbSymbolTableRecord, 100 AcDbLayerTableRecord, \
    2 0, 70 0, 62 7, 6 Continuous, \
    0 LAYER, 5 10, 330 2, 100 AcDbSymbolTableRecord, 100 AcDbLayerTableRecord, \
    2 FRONT, 70 0, 62 7, 6 Continuous, \
    0 LAYER, 5 10, 330 2, 100 AcDbSymbolTableRecord, 100 AcDbLayerTableRecord, \
    2 TOP, 70 0, 62 7, 6 Continuous, \
    0 LAYER, 5 10, 330 2, 100 AcDbSymbolTableRecord, 100 AcDbLayerTableRecord, \
    2 SIDE, 70 0, 62 7, 6 Continuous, \
    0 LAYER, 5 10, 330 2, 100 AcDbSymbolTableRecord, 100 AcDbLayerTableRecord, \
    2 NOTES, 70 0, 62 7, 6 Continuous, \
    0 ENDTAB, 0 ENDSEC, 0 SECTION, 2 BLOCKS, 0 BLOCK, 8 0, 2 *Model_Space, 70 0, \
    0 ENDBLK, 8 0, 0 ENDSEC, 0 SECTION, 2 ENTITIES, \
    0 LINE, 5 A0, 330 1F, 100 AcDbEntity, 8 FRONT, 100 AcDbLine, \
    10 100.0, 20 100.0, 30 0.0, 11 160.0, 21 100.0, 31 0.0, \
    0 LINE, 5 A0, 330 1F, 100 AcDbEntity, 8 FRONT, 100 AcDbLine, \
    10 100.0, 20 150.0, 30 0.0, 11 160.0, 21 150.0, 31 0.0, \
    0 LINE, 5 A0, 330 1F, 100 AcDbEntity, 8 FRONT, 100 AcDbLine, \
    10 100.0, 20 100.0, 30 0.0, 11 100.0, 21 150.0, 31 0.0, \
    0 LINE, 5 A0, 330 1F, 100 AcDbEntity, 8 FRONT, 100 AcDbLine, \
    10 160.0, 20 100.0, 30 0.0, 11 160.0, 21 150.0, 31 0.0, \
    0 LINE, 5 A0, 330 1F, 100 AcDbEntity, 8 FRONT, 100 AcDbLine, \
    10 100.0, 20 110.0, 30 0.0, 11 160.0, 21 110.0, 31 0.0, \
    0 LINE, 5 A0, 330 1F, 100 AcDbEntity, 8 TOP, 100 AcDbLine, \
    10 100.0, 20 170.0, 30 0.0, 11 160.0, 21 170.0, 31 0.0, \
    0 LINE, 5 A0, 330 1F, 100 AcDbEntity, 8 TOP, 100 AcDbLine, \
    10 100.0, 20 210.0, 30 0.0, 11 160.0, 21 210.0, 31 0.0, \
    0 LINE, 5 A0, 330 1F, 100 AcDbEntity, 8 TOP, 100 AcDbLine, \
    10 100.0, 20 170.0, 30 0.0, 11 100.0, 21 210.0, 31 0.0, \
    0 LINE, 5 A0, 330 1F, 100 AcDbEntity, 8 TOP, 100 AcDbLine, \
    10 160.0, 20 170.0, 30 0.0, 11 160.0, 21 210.0, 31 0.0, \
    0 LINE, 5 A0, 330 1F, 100 AcDbEntity, 8 TOP, 100 AcDbLine, \
    10 100.0, 20 200.0, 30 0.0, 11 160.0, 21 200.0, 31 0.0, \
    0 LINE, 5 A0, 330 1F, 100 AcDbEntity, 8 SIDE, 100 AcDbLine, \
    10 180.0, 20 100.0, 30 0.0, 11 220.0, 21 100.0, 31 0.0, \
    0 LINE, 5 A0, 330 1F, 100 AcDbEntity, 8 SIDE, 100 AcDbLine, \
    10 220.0, 20 100.0, 30 0.0, 11 220.0, 21 150.0, 31 0.0, \
    0 LINE, 5 A0, 330 1F, 100 AcDbEntity, 8 SIDE, 100 AcDbLine, \
    10 220.0, 20 150.0, 30 0.0, 11 210.0, 21 150.0, 31 0.0, \
    0 LINE, 5 A0, 330 1F, 100 AcDbEntity, 8 SIDE, 100 AcDbLine, \
    10 210.0, 20 150.0, 30 0.0, 11 210.0, 21 110.0, 31 0.0, \
    0 LINE, 5 A0, 330 1F, 100 AcDbEntity, 8 SIDE, 100 AcDbLine, \
    10 210.0, 20 110.0, 30 0.0, 11 180.0, 21 110.0, 31 0.0, \
    0 LINE, 5 A0, 330 1F, 100 AcDbEntity, 8 SIDE, 100 AcDbLine, \
    10 180.0, 20 110.0, 30 0.0, 11 180.0, 21 100.0, 31 0.0, \
    0 TEXT, 5 B0, 330 1F, 100 AcDbEntity, 8 NOTES, 100 AcDbText, \
    10 100.5, 20 80.0, 30 0.0, 40 2.5, 1 BRACKET, 100 AcDbText, 0 ENDSEC, \
    0 SECTION, 2 OBJECTS, 0 DICTIONARY, 5 C, 330 0, 100 AcDbDictionary, 0 ENDSEC, 0 EOF -> \
    0 whole 1 nodes 2 blocks 1|solid 1 choice 1 volume 48000 faces 8|\
    face -x at 0 loop 0,0,0 0,0,10 0,30,10 0,30,50 0,40,50 0,40,0|\
    face +x at 60 loop 60,0,0 60,40,0 60,40,50 60,30,50 60,30,10 60,0,10|\
    face -y at 0 loop 0,0,0 60,0,0 60,0,10 0,0,10|\
    face -y at 30 loop 0,30,10 60,30,10 60,30,50 0,30,50|\
    face +y at 40 loop 0,40,0 0,40,50 60,40,50 60,40,0|\
    face -z at 0 loop 0,0,0 0,40,0 60,40,0 60,0,0|\
    face +z at 10 loop 0,0,10 60,0,10 60,30,10 0,30,10|\
    face +z at 50 loop 0,30,50 60,30,50 60,40,50 0,40,50";
