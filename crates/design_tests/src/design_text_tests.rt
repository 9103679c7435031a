//! Texts that are read, and texts that are refused, however they are cut.

use crate::design_grid_tests::places_text;
use grid_base::{Edge, Vertex};
use grid_graph::{Design, Grid, NetSpec};
use ispd_reader::{InputError, Reader, read_design};
use std::alloc::{AllocError, Global};
use std::test::Fail;
use test_rows::{Answers, RowFault, bytes_of, check_rows};
use worked_designs::design_text;

/// The one field that stands before the last of a row.
pub fn one_field(given: &'static str) -> Result<&'static str, RowFault> {
    if given.contains('|') {
        Err(RowFault::OtherFields(given))
    } else {
        Ok(given)
    }
}

/// The design text that the one field before the last stands for, in which `?` and `~` are bytes that are no text.
pub fn bytes_in(alloc: Global, given: &'static str) -> Result<Vec<u8>, Fail> {
    let text = design_text(alloc, one_field(given)?)?;
    Ok(bytes_of(alloc, str::from_utf8(text.as_slice())?)?)
}

// ---- what was read, as a text

/// A name, of which each byte is a character.
fn put_name(text: &mut String, name: &[u8]) -> Result<(), AllocError> {
    for byte in name {
        text.push(char::from(*byte))?;
    }
    Ok(())
}

fn put_terminals(text: &mut String, alloc: Global, terminals: &[Vertex]) -> Result<(), AllocError> {
    for Vertex(v) in terminals {
        text.push_str(format!(in alloc; " {v}")?.as_str())?;
    }
    Ok(())
}

/// A net's id, its name, its width and its terminals, on a line of their own.
fn put_net(text: &mut String, alloc: Global, net: &NetSpec) -> Result<(), AllocError> {
    let (id, width) = (net.id, net.width);
    text.push_str(format!(in alloc; "{id} ")?.as_str())?;
    put_name(text, net.name.list())?;
    text.push_str(format!(in alloc; " {width}")?.as_str())?;
    put_terminals(text, alloc, net.terminals.list())?;
    text.push_str("\n")
}

/// The edges of a grid: each edge's capacity, and the spacing of its layer.
fn put_edges(text: &mut String, alloc: Global, grid: &Grid) -> Result<(), AllocError> {
    let size = grid.size();
    for e in 0..2 * size.vertices() {
        let (capacity, spacing) = (
            grid.capacity(Edge(e)),
            grid.spacing(e / 2 / (size.cols() * size.rows())),
        );
        text.push_str(format!(in alloc; " {capacity} {spacing}")?.as_str())?;
    }
    Ok(())
}

/// The nets of a design, and then its grid.
fn told(alloc: Global, design: &Design) -> Result<String, AllocError> {
    let mut text = String::new(alloc);
    for net in design.nets.list() {
        put_net(&mut text, alloc, net)?;
    }
    text.push_str(places_text(alloc, &design.grid)?.as_str())?;
    put_edges(&mut text, alloc, &design.grid)?;
    Ok(text)
}

/// What was read: a design, or why there is none.
fn found_text(alloc: Global, read: Result<Design, InputError>) -> Result<String, AllocError> {
    match read {
        Err(error) => error.to_string(alloc),
        Ok(design) => told(alloc, &design),
    }
}

// ---- all ways to cut a text

/// What is answered at the end, when the text is fed in two pieces.
fn read_in_two(alloc: Global, front: &[u8], back: &[u8]) -> Result<Design, InputError> {
    let mut reader = Reader::new(alloc)?;
    let _ = reader.feed(front);
    let _ = reader.feed(back);
    reader.end()
}

/// What is answered at the end, when the text is fed in pieces of so many bytes.
fn read_in_pieces(alloc: Global, text: &[u8], size: usize) -> Result<Design, InputError> {
    let mut reader = Reader::new(alloc)?;
    for piece in text.chunks(size.max(1)) {
        let _ = reader.feed(piece);
    }
    reader.end()
}

/// The first line of what is read of a text at once, if the same is read of it in two pieces, however long the first one is, and
/// in pieces of one length, whatever it is.
fn first_line(alloc: Global, text: &[u8], whole: &str) -> Result<String, AllocError> {
    for cut in 0..=text.len() {
        let (front, back) = text.split_at(cut);
        let in_two = found_text(alloc, read_in_two(alloc, front, back))?;
        let in_pieces = found_text(alloc, read_in_pieces(alloc, text, cut))?;
        if in_two.as_str() != whole || in_pieces.as_str() != whole {
            return format!(in alloc; "{in_two} and {in_pieces} at {cut}");
        }
    }
    let (first, _) = whole.split_once('\n').unwrap_or((whole, ""));
    String::from_str(alloc, first)
}

fn read_alike(alloc: Global, text: &[u8]) -> Result<String, AllocError> {
    let whole = found_text(alloc, read_design(alloc, text))?;
    first_line(alloc, text, whole.as_str())
}

/// A row is a text, and its first net or why it is refused.
struct Texts;

impl Answers for Texts {
    fn answer(&self, alloc: Global, given: &'static str) -> Result<String, Fail> {
        let text = bytes_in(alloc, given)?;
        Ok(read_alike(alloc, text.as_slice())?)
    }
}

/// Designs, and the id, the name, the width and the terminals of the first net of each. The fourth row has six pins and three
/// terminals, in the order of their first pins. The name in the last row has bytes that are no text: 0, and 255, which is `ÿ`.
const TEXTS: &str = "ROW|0 a 1 0 2
ROW 142 144|0 a 1 0 2
ROW 144 144 what follows is ignored|0 a 1 0 2
ROW 125 144 6 1;25 5 1;5 5 1;27 1 1;15 5 1;5 5 1;9 9 1;0;|0 a 1 2 0 1
ROW 129 144 5 5 1;7 3 1;0;|0 a 1 0
ROW 129 144 0 0 1;30 10 1;0;|0 a 1 0 2
ROW 129 144 0 10 1;30 0 1;0;|0 a 1 0 2
ROW 135 144 30 5 1;0;|0 a 1 0 2
CRLF|0 a 1 0 2
LAYERED|0 a 1 0 8
ROW 119 144 2 a 4294967295 0 1 a 0 1 1 5 5 1 0|4294967295 a 1
CROWDED_ROW|0 a 1 0 2
LAYERED_WALLS|7 a 1 0 2
PLACES|0 a 1 0 1
BRIDGE|0 a 1 0 1
ROW 101 144 -0 +000 10 10 num net +1 a +007 1 1 5 5 1 0|7 a 1 0
ROW 101 144 -0 +000 10 10 num net +1 \x00? +007 1 1 5 5 1|7 \x00ÿ 1 0";

#[test]
fn a_design_has_the_nets_of_its_text(rt: HostRuntime) -> Result<(), Fail> {
    check_rows(rt.alloc(), TEXTS, &Texts)
}

/// A text, and what is wrong with it: first words that are missing, then numbers, and last adjustments between tiles that
/// are no neighbours. One number has 1000 digits.
const FAULTS: &str = "ROW 0 144|grid expected at byte 0
ROW 0 144 g|grid expected at byte 0
ROW 0 144 gird|grid expected at byte 0
ROW 0 144  \t\r;|grid expected at byte 4
ROW 11 144 Vertical|vertical expected at byte 11
ROW 20 144 capacit|capacity expected at byte 20
ROW 31 144|horizontal expected at byte 31
ROW 53 144 x|minimum expected at byte 53
ROW 61 144 widths 1|width expected at byte 61
ROW 77 144 width|spacing expected at byte 77
ROW 87 144|via expected at byte 87
ROW 111 144 net|num expected at byte 111
ROW 115 144 num|net expected at byte 115
ROW 121 144|name expected at byte 121
ROW 119 144 4194304|name expected at byte 126
ROW 119 144 one|number expected at byte 119
ROW 139 144|number expected at byte 139
ROW 0 144 grid 1 -1 x|number expected at byte 10
ROW 101 144 -1099511627776 +|number expected at byte 116
ROW 101 144 -|number expected at byte 101
ROW 101 144 +-1|number expected at byte 101
ROW 101 144 1\x00|number expected at byte 101
ROW 127 144 1022|number expected at byte 131
ROW 119 144 2;a 0 0 1;b 1 16777216 1 x|number expected at byte 144
ROW 101 144 1099511627777|number out of range at byte 101
ROW 101 144 \
9999999999999999999999999999999999999999999999999999999999999999999999999999999999999999999999999999\
9999999999999999999999999999999999999999999999999999999999999999999999999999999999999999999999999999\
9999999999999999999999999999999999999999999999999999999999999999999999999999999999999999999999999999\
9999999999999999999999999999999999999999999999999999999999999999999999999999999999999999999999999999\
9999999999999999999999999999999999999999999999999999999999999999999999999999999999999999999999999999\
9999999999999999999999999999999999999999999999999999999999999999999999999999999999999999999999999999\
9999999999999999999999999999999999999999999999999999999999999999999999999999999999999999999999999999\
9999999999999999999999999999999999999999999999999999999999999999999999999999999999999999999999999999\
9999999999999999999999999999999999999999999999999999999999999999999999999999999999999999999999999999\
9999999999999999999999999999999999999999999999999999999999999999999999999999999999999999999999999999|number out of range at byte 101
ROW 123 144 4294967296 2 1|number out of range at byte 123
ROW 123 144 -1 2 1|number out of range at byte 123
ROW 0 144 grid 2048 2048 3|grid too large or empty at byte 15
ROW 0 144 grid 1 1 17|grid too large or empty at byte 9
ROW 0 144 grid 0 1 1|grid too large or empty at byte 9
ROW 105 144 0 10|tile size below 1 at byte 105
ROW 108 144 -5|tile size below 1 at byte 108
ROW 29 144 262145|capacity out of range at byte 29
ROW 51 144 -1|capacity out of range at byte 51
ROW 142 144 1 0 0 1 1 0 1 262145|capacity out of range at byte 156
ROW 67 144 1024|width or spacing out of range at byte 67
ROW 85 144 1023|width or spacing out of range at byte 85
ROW 67 144 0;minimum spacing 0|width or spacing out of range at byte 85
ROW 127 144 1023|width or spacing out of range at byte 127
ROW 119 144 4194305|count out of range at byte 119
ROW 119 144 -1|count out of range at byte 119
ROW 125 144 16777217 1|count out of range at byte 125
ROW 142 144 8388609|count out of range at byte 142
ROW 119 144 2;a 0 2 1;5 5 1;25 5 1;b 0 2 1;5 5 1;25 5 1;0;|id 0 again at byte 144
ROW 119 144 3 a 4294967295 0 1 a 0 0 1 a 4294967295 0 1 0|id 4294967295 again at byte 148
ROW 135 144 31 5 1;0;|pin 1 of net 0 outside the grid at byte 135
ROW 135 144 -1 5 1;0;|pin 1 of net 0 outside the grid at byte 135
ROW 129 144 5 11 1;0;|pin 0 of net 0 outside the grid at byte 131
ROW 129 144 5 -1 1;0;|pin 0 of net 0 outside the grid at byte 131
ROW 140 144 0;0;|pin 1 of net 0 on no layer at byte 140
ROW 140 144 2;0;|pin 1 of net 0 on no layer at byte 140
ROW 142 144 1;0 0 1 2 0 1 3|adjustment 0 between no neighbours at byte 154
ROW 142 144 1;2 0 1 3 0 1 3|adjustment 0 between no neighbours at byte 154
ROW 142 144 1;0 0 1 0 1 1 3|adjustment 0 between no neighbours at byte 154
ROW 142 144 1;0 0 1 0 0 2 3|adjustment 0 between no neighbours at byte 154
ROW 142 144 1;-1 0 1 0 0 1 3|adjustment 0 between no neighbours at byte 155
BLOCK 131 131 2 0 0 1 1 0 1 3 0 0 1 1 1 1 3|adjustment 1 between no neighbours at byte 157
BLOCK 131 131 1 0 0 1 1 0 2 3|adjustment 0 between no neighbours at byte 143
BLOCK 131 131 1 0 0 1 0 0 1 3|adjustment 0 between no neighbours at byte 143
BLOCK 131 131 1 0 0 0 0 0 1 3|adjustment 0 between no neighbours at byte 143
BLOCK 131 131 1 0 0 2 0 0 3 3|adjustment 0 between no neighbours at byte 143";

#[test]
fn each_fault_is_told_at_its_place(rt: HostRuntime) -> Result<(), Fail> {
    check_rows(rt.alloc(), FAULTS, &Texts)
}
