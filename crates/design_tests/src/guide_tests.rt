//! Guides of sets of pieces, and their text.

use crate::design_text_tests::one_field;
use crate::trees::Sets;
use guide_text::{GuideError, read_guides};
use std::alloc::Global;
use std::test::Fail;
use test_rows::{Answers, check_rows};

/// A design, the set of each net, and the guides. In the star of five rows and columns on two layers the pins are (2,0), (2,4),
/// (0,2) and (4,2) of the lower layer, and (2,2) of the upper one. Two rows of one width are one rectangle, a wider one parts it, and
/// so does a gap; an end of a piece counts as a terminal does.
const GUIDES: &str = "ROW|e0 e2|guides|a 0;(;0 0 30 10 1;);
ROW||guides|a 0;(;0 0 10 10 1;20 0 30 10 1;);
SQUARE|e0 e1 e3 e4|guides|a 0;(;0 0 20 20 1;);
SQUARE|e0 e3|guides|a 0;(;0 0 20 10 1;10 10 20 20 1;);
STACK|v0|guides|a 0;(;0 0 10 10 1;0 0 10 10 2;);
CRLF|e0 e2|guides|a 0;(;-10 -10 20 0 1;);
STAR|e5 e15 e20 e22 e24 e25 e26 e35 v12|guides|a 0;(;20 0 30 20 1;0 20 50 30 1;20 30 30 50 1;20 20 30 30 2;);";

#[test]
fn guides_are_longest_rectangles(rt: HostRuntime) -> Result<(), Fail> {
    check_rows(rt.alloc(), GUIDES, &Sets)
}

/// A row is a text of guides, and where it is refused.
struct Guides;

impl Answers for Guides {
    fn answer(&self, alloc: Global, given: &'static str) -> Result<String, Fail> {
        match read_guides(alloc, one_field(given)?.as_bytes()) {
            Ok(_) => Ok(String::from_str(alloc, "read")?),
            Err(GuideError::Syntax { at }) => Ok(at.to_string(alloc)?),
            Err(GuideError::NoMemory) => Err(Fail::new("no memory")),
        }
    }
}

/// Texts of guides, and the places at which they are refused. A number may have a sign and zeros in front, blanks of any kind
/// part the tokens, and a name may be any of them.
const READ: &str = "|read
a 0 ( 0 0|9
a|1
a 0|3
a 0 (|5
a 0 ( )|read
( 7 ( ) ) 8 ( )|read
a 4294967296 ( )|2
a -1 ( )|2
a 0 ()|4
a 0 ( )x|6
a 0 ( 1 2 3 4 )|14
a 0 ( +1 -2 003 4 5 )|read
a 0 ( 1 2 3 4 2199023255552 )|read
a 0 ( 1 2 3 4 2199023255553 )|14
a 0 ( 1 2 3 4 5 6 )|18";

#[test]
fn a_text_of_guides_is_refused_at_its_first_wrong_token(rt: HostRuntime) -> Result<(), Fail> {
    check_rows(rt.alloc(), READ, &Guides)
}

/// A design, a set for its net, the rectangles of a guide, five numbers each, and whether they cover the route. Rectangles may
/// overlap, need not be longest and stand in any order. They may have no tile that the route has none of, cut no tile, be upside
/// down or empty nowhere, and name a layer from 1 on. The pins of the row are its ends, those of the square two corners.
const COVERS: &str = "ROW|e0 e2|0 0 30 10 1|true
ROW|e0 e2|0 0 20 10 1|false
ROW|e0 e2|0 0 20 10 1 10 0 30 10 1|true
ROW|e0 e2|20 0 30 10 1 0 0 30 10 1 0 0 30 10 1|true
ROW|e0 e2|0 0 10 10 1 20 0 30 10 1|false
ROW|e0 e2||false
ROW||0 0 10 10 1 20 0 30 10 1|true
ROW||0 0 30 10 1|false
ROW||0 0 10 10 1|false
ROW||20 0 30 10 1|false
ROW|e0 e2|0 0 25 10 1|false
ROW|e0 e2|0 0 30 10 1 0 0 25 10 1|false
ROW|e0 e2|0 0 30 9 1|false
ROW|e0 e2|5 0 30 10 1|false
ROW|e0 e2|0 5 30 10 1|false
ROW|e0 e2|30 0 0 10 1|false
ROW|e0 e2|0 10 30 0 1|false
ROW|e0 e2|30 10 0 0 1|false
ROW|e0 e2|0 0 30 10 1 20 0 20 10 1|false
ROW|e0 e2|0 0 30 10 1 0 0 30 0 1|false
ROW|e0 e2|0 0 30 10 0|false
ROW|e0 e2|0 0 30 10 2|false
ROW|e0 e2|0 0 30 10 -1|false
ROW|e0 e2|0 0 30 10 4294967297|false
ROW|e0 e2|0 0 40 10 1|false
ROW|e0 e2|0 0 30 20 1|false
ROW|e0 e2|-10 0 30 10 1|false
ROW|e0 e2|0 -10 30 10 1|false
ROW|e0 e2|0 0 42949672970 10 1|false
ROW|e0 e2|-9223372036854775808 -9223372036854775808 9223372036854775807 9223372036854775807 1|false
ROW|e0 e2|0 0 30 10 9223372036854775807|false
ROW|e0 e2|0 0 30 10 -9223372036854775808|false
ROW|e0 e2|9223372036854775807 0 -9223372036854775808 10 1|false
CRLF|e0 e2|-10 -10 20 0 1|true
CRLF|e0 e2|-9223372036854775808 -10 20 0 1|false
CRLF|e0 e2|0 0 30 10 1|false
SQUARE|e0 e3|0 0 20 10 1 10 0 20 20 1|true
SQUARE|e0 e3|0 0 20 10 1 0 0 10 20 1|false
SQUARE|e0 e3|0 0 20 20 1|false
SQUARE|e0 e1 e3 e4|0 0 10 20 1 10 0 20 20 1|true
STACK|v0|0 0 10 10 1 0 0 10 10 2|true
STACK|v0|0 0 10 10 2|false
STACK|v0|0 0 10 10 1|false
STACK|v0|0 0 10 10 1 0 0 10 10 2 0 0 10 10 3|false
STAR|e5 e15 e20 e22 e24 e25 e26 e35 v12|20 0 30 50 1 20 20 30 30 2 0 20 50 30 1|true
STAR|e5 e15 e20 e22 e24 e25 e26 e35 v12|20 0 30 50 1 20 20 30 30 2 0 20 50 40 1|false
ROW 125 142 0 1;|||true
ROW 125 142 0 1;||0 0 10 10 1|false
ROW 5 6 20000|19999 by 2|0 0 100000 10 1 90000 0 200000 10 1|true
ROW 5 6 20000|19999 by 2|0 0 199990 10 1|false";

#[test]
fn guides_cover_exactly_the_tiles_of_a_route(rt: HostRuntime) -> Result<(), Fail> {
    check_rows(rt.alloc(), COVERS, &Sets)
}
