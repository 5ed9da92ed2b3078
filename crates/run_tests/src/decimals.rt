//! Coordinates with decimals.

/// Files that are read with one decimal.
pub const DECIMALS: &str = "\
-- A cube by the length of its side: its volume is a number of cells of a tenth.
= 0 SECTION, 2 ENTITIES, FRONT, rect S 0 0 #1 #1, TOP, rect S 0 0 #1 #1, SIDE, rect S 0 0 #1 #1, \
    0 ENDSEC, 0 EOF
0.5 -> 0 whole 1 nodes 2 blocks 1|solid 1 choice 1 volume 125 faces 6|\
    face -x at 0.0 loop 0.0,0.0,0.0 0.0,0.0,0.5 0.0,0.5,0.5 0.0,0.5,0.0| .. |\
    face +z at 0.5 loop 0.0,0.0,0.5 0.5,0.0,0.5 0.5,0.5,0.5 0.0,0.5,0.5
12.50E-1 -> 1 fault F7 NotWhole line 18 code 11
1 -> 0 whole 1 nodes 2 blocks 1|solid 1 choice 1 volume 1000 faces 6|\
    face -x at 0.0 loop 0.0,0.0,0.0 0.0,0.0,1.0 0.0,1.0,1.0 0.0,1.0,0.0| .. 
0.25 -> 1 fault F7 NotWhole line 18 code 11
100000000.1 -> 1 fault F8 TooFar line 18 code 11";
