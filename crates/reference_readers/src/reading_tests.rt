//! Route texts that are read, and that are refused.

use crate::reference_blocks::blocks_by_automaton;
use route_text::{Block, Point, RouteError, read_routes};
use std::alloc::{AllocError, Global};
use std::test::Fail;
use test_rows::{bytes_of, rows_of, two_fields};

/// What was read: each block by its name, its id and its segments, with a line end behind it, or the place of the refusal.
fn told(alloc: Global, read: Result<Vec<Block>, RouteError>) -> Result<Vec<u8>, AllocError> {
    let mut told = Vec::new(alloc);
    match read {
        Ok(blocks) => {
            for block in &blocks {
                tell(alloc, block, &mut told)?;
            }
        }
        Err(RouteError::Syntax { at }) => {
            told.extend_from_slice(format!(in alloc; "refused at {at}")?.as_bytes())?;
        }
        Err(RouteError::NoMemory) => told.extend_from_slice(b"no memory")?,
    }
    Ok(told)
}

fn tell(alloc: Global, block: &Block, told: &mut Vec<u8>) -> Result<(), AllocError> {
    let id = block.id;
    told.extend_from_slice(block.name.list())?;
    told.extend_from_slice(format!(in alloc; " {id}")?.as_bytes())?;
    for s in block.segments.list() {
        told.push(b' ')?;
        tell_point(alloc, s.from, told)?;
        told.push(b'-')?;
        tell_point(alloc, s.to, told)?;
    }
    told.push(b'\n')?;
    Ok(())
}

fn tell_point(alloc: Global, point: Point, told: &mut Vec<u8>) -> Result<(), AllocError> {
    let (x, y, layer) = (point.x, point.y, point.layer);
    told.extend_from_slice(format!(in alloc; "({x},{y},{layer})")?.as_bytes())?;
    Ok(())
}

/// Texts, and what is read of them, parted by a bar. A `;` stands for a line end, `?` and `~` for the bytes 0xff and 0x80.
const READ: &str = "|
 \r;\t|
a 0 9 (5,5,1) - (25,5,1)!|a 0 (5,5,1)-(25,5,1);
a 0;(5,5,1)-(25,5,1);(7,8,1)-(7,8,2);!;|a 0 (5,5,1)-(25,5,1) (7,8,1)-(7,8,2);
a 0 (25,5,1)-(5,5,1)(5,5,1)-(25,5,1)!|a 0 (25,5,1)-(5,5,1) (5,5,1)-(25,5,1);
 n\t7\r;( -10 , +0 , 1 );-;(\t0 ,1099511627776, -3 ) ! |n 7 (-10,0,1)-(0,1099511627776,-3);
?~! 4294967295 !|?~! 4294967295;
! +1 !|! 1;
(5,5,1) 2 -1099511627776 !|(5,5,1) 2;
3 4 5 !|3 4;
a 0 +6;(7,8,1)-(7,8,2)!|a 0 (7,8,1)-(7,8,2);
a 0 !b 1 !|a 0;b 1;
a 4 ! ! 3 !;|a 4;! 3;
a 7 (1,1,1)-(2,1,1)!a 7 !|a 7 (1,1,1)-(2,1,1);a 7;
a 2;!;b 1 5;(1,1,1)-(2,1,1);!;c 0;!;|a 2;b 1 (1,1,1)-(2,1,1);c 0;
a|refused at 1
a |refused at 2
!|refused at 1
a !|refused at 2
a x !|refused at 2
a 0!|refused at 2
a 0!b 1 (1,1,1)-(2,1,1)!|refused at 2
a 0(5,5,1)-(25,5,1)!|refused at 2
a 4294967296 !|refused at 2
a -1 !|refused at 2
a 0|refused at 3
a 0 |refused at 4
a 0 b|refused at 4
a 0 9!|refused at 4
a 0 -x !|refused at 4
a 0 1099511627777 !|refused at 4
a 0 -1099511627777 !|refused at 4
a 0 9 9 !|refused at 6
a 0 (5,5|refused at 8
a 0 (1,2)|refused at 8
a 0 (1 1,1)|refused at 7
a 0 (,1,1)|refused at 5
a 0 (+,1,1)-(1,1,1)!|refused at 5
a 0 (1, -,1)-(1,1,1)!|refused at 8
a 0 (1,-|refused at 7
a 0 (1,1,1099511627777)-(1,1,1)!|refused at 9
a 0 (1,2,3)|refused at 11
a 0 (1,2,3)-|refused at 12
a 0 (1,2,3) (1,2,3)!|refused at 12
a 0 (5,5,1)-(25,5,1)|refused at 20
a 0 (5,5,1)-(25,5,1) 3 !|refused at 21
a 0 (1,1,1)-(2,1,1)! b|refused at 22
a 0 !;b 0 (1,1,1)-(1,1,-)!|refused at 23";

#[test]
fn routes_are_read_as_they_were_worked_out(rt: HostRuntime) -> Result<(), Fail> {
    let alloc = rt.alloc();
    for row in rows_of(alloc, READ)? {
        let (text, wanted) = two_fields(row)?;
        let text = bytes_of(alloc, text)?;
        let wanted = bytes_of(alloc, wanted)?;
        let used = told(alloc, read_routes(alloc, text.as_slice()))?;
        assert!(rt; used.as_slice() == wanted.as_slice(), "in {row}");
        let reference = told(alloc, blocks_by_automaton(alloc, text.as_slice()))?;
        assert!(rt;
            reference.as_slice() == wanted.as_slice(),
            "by the automaton, in {row}"
        );
    }
    Ok(())
}
