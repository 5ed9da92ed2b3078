//! Texts and pairs: files that are broken, cut, or at the limits of their size.

/// Such files.
pub const TEXTS: &str = "\
-- Texts, with `|` for the end of a line.
= text
-- Short ones.
0 -> 1 fault F3 NoValue line 1
0| -> 1 fault F3 NoValue line 1
0|| -> 1 fault F5 BadSection line 1
 -> 1 fault F4 NoEof line 1
\u{feff} -> 1 fault F4 NoEof line 1
999 -> 1 fault F3 NoValue line 1
-- A binary file begins just so, after one mark of UTF-8 at most.
AutoCAD Binary DXF\r|\u{1a}\0 -> 1 fault F1 Binary line 1
\u{feff}AutoCAD Binary DXF -> 1 fault F1 Binary line 1
AutoCAD Binary DX -> 1 fault F2 BadCode line 1
autocad binary dxf -> 1 fault F2 BadCode line 1
 AutoCAD Binary DXF -> 1 fault F2 BadCode line 1
999|x|AutoCAD Binary DXF| -> 1 fault F2 BadCode line 3
-- A code has one to four digits, and is judged before its value is looked for.
x|0| -> 1 fault F2 BadCode line 1
|0| -> 1 fault F2 BadCode line 1
00000|EOF| -> 1 fault F2 BadCode line 1
+0|EOF| -> 1 fault F2 BadCode line 1
- 0|EOF| -> 1 fault F2 BadCode line 1
--0|EOF| -> 1 fault F2 BadCode line 1
-|EOF| -> 1 fault F2 BadCode line 1
0.0|EOF| -> 1 fault F2 BadCode line 1
\u{feff}\u{feff}0|EOF| -> 1 fault F2 BadCode line 1
-0|EOF| -> 1 fault F14 EmptyView view FRONT
0000|EOF| -> 1 fault F14 EmptyView view FRONT
x -> 1 fault F2 BadCode line 1
-- A comment is passed over; its code is a number too.
999|x|0|EOF| -> 1 fault F14 EmptyView view FRONT
0999|0|0|EOF| -> 1 fault F14 EmptyView view FRONT
-999|x|0|EOF| -> 1 fault F5 BadSection line 1
-- The pair that ends a file: blanks round it and one CR right before a line's end don't count.
0|EOF -> 1 fault F14 EmptyView view FRONT
0|EOF\r -> 1 fault F14 EmptyView view FRONT
\u{feff}0\r|EOF\r| -> 1 fault F14 EmptyView view FRONT
0|eof|x -> 1 fault F14 EmptyView view FRONT
 \t0\t |\tEOF | -> 1 fault F14 EmptyView view FRONT
0|EO F| -> 1 fault F5 BadSection line 1
0|EOF\r\r| -> 1 fault F5 BadSection line 1
0|EOF\r | -> 1 fault F5 BadSection line 1
0\r\r|EOF| -> 1 fault F2 BadCode line 1
0\r |EOF| -> 1 fault F2 BadCode line 1
0\rEOF| -> 1 fault F2 BadCode line 1
-- Entities that are passed over, up to a code that is 0.
0|SECTION|2|ENTITIES|0|TEXT|1|x|8| -> 1 fault F3 NoValue line 9
0\r|SECTION\r|2\r|ENTITIES\r|0\r|TEXT\r|  1\r|more than sixteen bytes\r|-0|EOF -> \
    1 fault F5 BadSection line 9
-- Vertical tabs and form feeds are no blanks.
0|\u{b}EOF| -> 1 fault F5 BadSection line 1
0|EOF\u{c}| -> 1 fault F5 BadSection line 1
\u{c}0|EOF| -> 1 fault F2 BadCode line 1
0\u{b}|EOF| -> 1 fault F2 BadCode line 1
-- Pairs: what may stand outside the sections.
= #1
0 ENDSEC -> 1 fault F5 BadSection line 1
0 LINE -> 1 fault F5 BadSection line 1
2 ENTITIES -> 1 fault F5 BadSection line 1
0 SECTION, 2 HEADER, 0 ENDSEC, 9 x -> 1 fault F5 BadSection line 7
0 SECTION, 2 HEADER, 0 ENDSEC, 0 ENDSEC -> 1 fault F5 BadSection line 7
-- How a section begins.
0 SECTION -> 1 fault F4 NoEof line 3
0 SECTION, 2 -> 1 fault F3 NoValue line 3
0 SECTION, 0 EOF -> 1 fault F5 BadSection line 3
0 SECTION, 0 ENDSEC -> 1 fault F5 BadSection line 3
0 SECTION, 0 SECTION -> 1 fault F5 BadSection line 3
0 SECTION, 8 ENTITIES -> 1 fault F5 BadSection line 3
0 SECTION, 999 x, 2 HEADER, 0 ENDSEC, 0 EOF -> 1 fault F14 EmptyView view FRONT
-- What may stand in one.
0 SECTION, 2 ENTITIES, 0 EOF -> 1 fault F5 BadSection line 5
0 SECTION, 2 TABLES, 0 EOF -> 1 fault F5 BadSection line 5
0 SECTION, 2 HEADER, 0 EOF -> 1 fault F5 BadSection line 5
0 SECTION, 2 ENTITIES, 0 SECTION -> 1 fault F5 BadSection line 5
0 SECTION, 2 TABLES, 0 LAYER, 2 FRONT, 0 SECTION -> 1 fault F5 BadSection line 9
0 SECTION, 2 HEADER, 9 x, 0 SECTION -> 1 fault F5 BadSection line 7
0 SECTION, 2 HEADER, 9 x -> 1 fault F4 NoEof line 7
0 SECTION, 2 HEADER, 9 -> 1 fault F3 NoValue line 5
0 SECTION, 2 HEADER, x 9 -> 1 fault F2 BadCode line 5
0 SECTION, 2 TABLES, 0 LAYER, x 9 -> 1 fault F2 BadCode line 7
-- An entity is judged once a pair ends it, and before a fault of that pair.
0 SECTION, 2 ENTITIES, 0 ARC, 8 TOP, 0 SECTION -> 1 fault F13 Geometry line 5
0 SECTION, 2 ENTITIES, 0 ARC, 8 TOP, 0 EOF -> 1 fault F13 Geometry line 5
0 SECTION, 2 ENTITIES, 0 ARC, 8 NOTES, 0 SECTION -> 1 fault F5 BadSection line 9
0 SECTION, 2 ENTITIES, 0 ARC, 8 TOP, 0 ENDSEC, 9 x -> 1 fault F13 Geometry line 5
0 SECTION, 2 ENTITIES, 0 ARC, 8 TOP -> 1 fault F4 NoEof line 9
0 SECTION, 2 ENTITIES, 0 ARC, 8 TOP, 10 -> 1 fault F3 NoValue line 9
0 SECTION, 2 ENTITIES, 0 ARC, 8 TOP, x 10 -> 1 fault F2 BadCode line 9
-- The unit cube's file, cut after 5, 6, 220, 222 and 223 lines.
0 SECTION, 2 ENTITIES, 0 -> 1 fault F3 NoValue line 5
0 SECTION, 2 ENTITIES, 0 LINE -> 1 fault F4 NoEof line 7
0 SECTION, 2 ENTITIES, cube -> 1 fault F4 NoEof line 221
0 SECTION, 2 ENTITIES, cube, 0 ENDSEC -> 1 fault F4 NoEof line 223
0 SECTION, 2 ENTITIES, cube, 0 ENDSEC, 0 -> 1 fault F3 NoValue line 223";

/// Files at the limits of their size.
pub const SIZES: &str = "\
-- The unit cube's file, which has 720 bytes, with blanks after its end up to 16,777,216 bytes; and
-- with one blank more, behind EOF.
= 0 SECTION, 2 ENTITIES, cube, 0 ENDSEC, #1, 1048531 * blanks
0 EOF -> unit cube
0 EOF  -> 1 fault F16 TooLong
-- The first line of the unit cube, 99,988 times before its 12 lines, and 100,001 times; and 99,999
-- times before a polyline of two lines. Lines of no length, 100,000 before an oblique one, and 100,001.
= 0 SECTION, 2 ENTITIES, #1, 0 ENDSEC, 0 EOF
99988 * line S 0 0 1 0, cube -> unit cube
100001 * line S 0 0 1 0 -> 1 fault F15 TooManyLines line 1800005
99999 * line S 0 0 1 0, 0 LWPOLYLINE, 8 FRONT, 70 1, 10 0, 20 0, 10 1, 20 0 -> \
    1 fault F15 TooManyLines line 1799987
100000 * line S 0 0 0 0, line S 0 0 1 1 -> 1 fault F11 Oblique line 1800005
100001 * line S 0 0 0 0 -> 1 fault F15 TooManyLines line 1800005";
