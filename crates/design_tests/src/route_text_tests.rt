//! Route texts that are written, whole or in part.

ghost use Rattle.std.specs.Prelude.{◌≡◌};

use crate::trees::{Sets, is_whole, trees_of, written};
use gr_desk::{CallKind, Fail as FailedCall, Port};
use grid_graph::Design;
use std::alloc::{AllocError, Global};
use std::test::Fail;
use test_rows::check_rows;
use tree_set::Tree;
use worked_designs::design;

/// A design, the sets of its nets, and the text of their routes, where `;` is a line end.
///
/// Equal sets have equal blocks, nothing is written without nets, a star has its row, its column and its via, a gap parts
/// two runs, rows that touch are two runs, and positions may be negative and pass the range of the corner.
const WRITTEN: &str =
    "ROW 119 144 3;a 0 0 1;b 1 0 1;c 2 0 1;0;|e0 e2;e0 e2;e0 e2;|routes|a 0;(5,5,1)-(25,5,1);!;b 1;(5,5,1)-(25,5,1);!;c 2;(5,5,1)-(25,5,1);!;
ROW 119 144 0;||routes|
STAR|e5 e15 e20 e22 e24 e25 e26 e35 v12;|routes|a 0;(5,25,1)-(45,25,1);(25,5,1)-(25,45,1);(25,25,1)-(25,25,2);!;
ROW 5 144 5 1 1 vertical capacity 0 horizontal capacity 4 minimum width 1 minimum spacing 1 via spacing 1 0 0 10 10 num net 3 b 0 0 1 a 1 0 1 c 2 0 1|e0 e2;e0 e4 e6;;|routes|b 0;(5,5,1)-(25,5,1);!;a 1;(5,5,1)-(15,5,1);(25,5,1)-(45,5,1);!;c 2;!;
SQUARE|e0 e4;|routes|a 0;(5,5,1)-(15,5,1);(5,15,1)-(15,15,1);!;
ROW 101 144 -10 -10 10 10 num net 1 a 0 0 1|e0 e2;|routes|a 0;(-5,-5,1)-(15,-5,1);!;
ROW 101 144 1099511627776 -1099511627776 10 10 num net 1 a 0 0 1|e0 e2;|routes|a 0;(1099511627781,-1099511627771,1)-(1099511627801,-1099511627771,1);!;";

#[test]
fn routes_are_written_as_they_were_worked_out(rt: HostRuntime) -> Result<(), Fail> {
    check_rows(rt.alloc(), WRITTEN, &Sets)
}

/// Two columns and 300 rows, and two nets, of which the second has a name that is to follow. It stands in place of what
/// follows the fifth byte of the row.
const LADDER: &str =
    "2 300 1 vertical capacity 4 horizontal capacity 4 minimum width 1 minimum spacing 1 via spacing 1 0 0 10 10 num net 2 a 0 0 1 ";

/// The edge along x in each of the rows, and the segments of these edges.
const RUNGS: &str = "300 by 4";

fn segments(alloc: Global) -> Result<String, AllocError> {
    let mut segments = String::new(alloc);
    for row in 0..300u32 {
        let y = 10 * row + 5;
        segments.push_str(format!(in alloc; "(5,{y},1)-(15,{y},1)\n")?.as_str())?;
    }
    Ok(segments)
}

/// The text of the routes of these two nets along all rungs.
fn rungs_text(alloc: Global, name: &str) -> Result<String, AllocError> {
    let rungs = segments(alloc)?;
    format!(in alloc; "a 0\n{rungs}!\n{name} 1\n{rungs}!\n")
}

const SECOND_WRITE: FailedCall = FailedCall {
    port: Port::Report,
    call: CallKind::Write,
    nth: 1,
};

/// Whether a part from the front of the text is written, which is one block, where the second write fails.
fn is_part(alloc: Global, design: &Design, trees: &[Tree], text: &[u8]) -> Result<bool, Fail> {
    let mut failing = Vec::new(alloc);
    failing.push(SECOND_WRITE)?;
    let (found, whole) = written(alloc, design, trees, failing)?;
    Ok(!whole && found.len() > 4000 && found.len() <= 4096 && text.starts_with(found.as_slice()))
}

/// Whether both are so of the routes along all rungs.
fn is_whole_or_part(alloc: Global, design: &Design, text: &[u8]) -> Result<bool, Fail> {
    let trees = trees_of(alloc, design, RUNGS)?;
    let whole = is_whole(alloc, design, trees.as_slice(), text)?;
    Ok(is_part(alloc, design, trees.as_slice(), text)? && whole)
}

/// Whether both are so where the second net has this name.
fn is_so_of(alloc: Global, name: &str) -> Result<bool, Fail> {
    let wanted = rungs_text(alloc, name)?;
    let ladder = format!(in alloc; "{LADDER}{name} 1 0 1")?;
    let design = design(alloc, 5, 144, ladder.as_bytes())?;
    is_whole_or_part(alloc, &design, wanted.as_bytes())
}

/// Texts and names that are longer than what is held back before a write.
#[test]
fn a_long_text_is_whole_or_a_part_from_its_front(rt: HostRuntime) -> Result<(), Fail> {
    let name = "n".repeat(rt.alloc(), 5000)?;
    if is_so_of(rt.alloc(), name.as_str())? {
        Ok(())
    } else {
        Err(Fail::new("another text"))
    }
}
