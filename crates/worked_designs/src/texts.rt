//! The texts of the worked designs. Most designs are `ROW` with the bytes between two places replaced by others.

ghost use Rattle.std.specs.Prelude.{◌≡◌, ◌++◌, IfOk, drop, length, min, take};

use grid_graph::Design;
use ispd_reader::{InputError, read_design};
use std::alloc::{AllocError, Global};

/// One net of two pins in a row of three tiles, of 144 bytes. The capacities stand at 29 and 51, the corner at 101, the
/// count of nets at 119, the net's count of pins at 125, its pins at 129 and 135, and the count of adjustments at 142.
pub const ROW: &[u8] =
    b"grid 3 1 1\nvertical capacity 0\nhorizontal capacity 4\nminimum width 1\nminimum spacing 1\nvia spacing 1\n0 0 10 10\nnum net 1\na 0 2 1\n5 5 1\n25 5 1\n0\n";

/// The row with three nets from end to end.
pub const CROWDED_ROW: &[u8] =
    b"grid 3 1 1\nvertical capacity 0\nhorizontal capacity 4\nminimum width 1\nminimum spacing 1\nvia spacing 1\n0 0 10 10\nnum net 3\na 0 2 1\n5 5 1\n25 5 1\nb 1 2 1\n5 5 1\n25 5 1\nc 2 2 1\n5 5 1\n25 5 1\n0\n";

/// The row with other line ends, and with the grid's corner and the pins to the lower left.
pub const CRLF: &[u8] =
    b"grid 3 1 1\r\nvertical capacity 0\r\nhorizontal capacity 4\r\nminimum width 1\r\nminimum spacing 1\r\nvia spacing 1\r\n-10 -10 10 10\r\nnum net 1\r\na 0 2 1\r\n-5 -5 1\r\n15 -5 1\r\n0\r\n";

/// A tile on two layers.
pub const STACK: &[u8] =
    b"grid 1 1 2\nvertical capacity 4 4\nhorizontal capacity 4 4\nminimum width 1 1\nminimum spacing 1 1\nvia spacing 1 1\n0 0 10 10\nnum net 1\na 0 2 1\n5 5 1\n5 5 2\n0\n";

/// Two tiles on two layers, of which each has edges in one direction, with the edge between the pins choked.
pub const BRIDGE: &[u8] =
    b"grid 2 1 2\nvertical capacity 0 0\nhorizontal capacity 4 4\nminimum width 1 1\nminimum spacing 1 1\nvia spacing 1 1\n0 0 10 10\nnum net 1\na 0 2 1\n5 5 1\n15 5 1\n1\n0 0 1 1 0 1 0\n";

/// Two tiles on two layers, and a net between the layers of the first.
pub const STACK_OF_TWO: &[u8] =
    b"grid 2 1 2\nvertical capacity 4 4\nhorizontal capacity 4 4\nminimum width 1 1\nminimum spacing 1 1\nvia spacing 1 1\n0 0 10 10\nnum net 1\na 0 2 1\n5 5 1\n5 5 2\n0\n";

/// Four tiles and a net from corner to corner.
pub const SQUARE: &[u8] =
    b"grid 2 2 1\nvertical capacity 2\nhorizontal capacity 2\nminimum width 1\nminimum spacing 1\nvia spacing 1\n0 0 10 10\nnum net 1\na 0 2 1\n5 5 1\n15 15 1\n0\n";

/// Four tiles, with the edge between those of the pins choked.
pub const CHOKED_SQUARE: &[u8] =
    b"grid 2 2 1\nvertical capacity 2\nhorizontal capacity 2\nminimum width 1\nminimum spacing 1\nvia spacing 1\n0 0 10 10\nnum net 1\na 0 2 1\n5 5 1\n15 5 1\n1\n0 0 1 1 0 1 0\n";

/// Three rows and columns, of which the edges from (15,5) to (5,5) and to (15,15) are choked: the first two nets go round
/// both, there and back.
pub const ROUND: &[u8] =
    b"grid 3 3 1\nvertical capacity 4\nhorizontal capacity 4\nminimum width 1\nminimum spacing 1\nvia spacing 1\n0 0 10 10\nnum net 4\na 0 2 1\n5 5 1\n25 5 1\nb 1 2 1\n25 5 1\n5 5 1\nc 2 2 1\n25 25 1\n5 25 1\nd 3 2 1\n15 5 1\n25 5 1\n2\n0 0 1 1 0 1 0\n1 0 1 1 1 1 0\n";

/// The same with both edges of the tile at (5,5) choked: the first and the last net are forced, and the one between them
/// is not.
pub const FORCED: &[u8] =
    b"grid 3 3 1\nvertical capacity 4\nhorizontal capacity 4\nminimum width 1\nminimum spacing 1\nvia spacing 1\n0 0 10 10\nnum net 3\na 0 2 1\n5 5 1\n25 5 1\nb 1 2 1\n5 15 1\n15 5 1\nc 2 2 1\n5 15 1\n5 5 1\n2\n0 0 1 1 0 1 0\n0 0 1 0 1 1 0\n";

/// Three rows and columns on two layers, of which each has edges in one direction.
pub const LAYERED: &[u8] =
    b"grid 3 3 2\nvertical capacity 0 10\nhorizontal capacity 10 0\nminimum width 1 1\nminimum spacing 1 1\nvia spacing 1 1\n10 10 10 10\n\nnum net 1\na 0 2 1\n15 15 1\n35 35 1\n0\n";

/// Three columns, two rows and two layers, with wires along x on the lower layer and along y on the upper one: what is left
/// are walls, but for the first edge of the upper layer, which was opened. The last edge of the lower layer is choked. The
/// nets are of the ids 7, 3, 9 and 4; the second has one pin, and both pins of the last lie in one tile.
pub const LAYERED_WALLS: &[u8] =
    b"grid 3 2 2\nvertical capacity 0 4\nhorizontal capacity 4 0\nminimum width 1 1\nminimum spacing 1 1\nvia spacing 1 1\n10 20 10 10\nnum net 4\na 7 2 1\n15 25 1\n35 25 1\nb 3 1 1\n15 35 1\nc 9 2 1\n15 25 1\n15 35 2\nd 4 2 1\n33 22 1\n38 28 1\n2\n0 0 2 1 0 2 4\n1 1 1 2 1 1 0\n";

/// Four tiles on two layers, of which the lower one has wires of width 3, and a net of width 2.
pub const WIDE_WIRES: &[u8] =
    b"grid 4 1 2\nvertical capacity 0 0\nhorizontal capacity 12 12\nminimum width 3 1\nminimum spacing 1 1\nvia spacing 1 1\n0 0 10 10\nnum net 1\na 0 2 2\n5 5 1\n35 5 1\n0\n";

/// Four tiles on two layers, and three nets between the ends of the lower one.
pub const SHARED_LAYERS: &[u8] =
    b"grid 4 1 2\nvertical capacity 0 0\nhorizontal capacity 12 12\nminimum width 1 1\nminimum spacing 1 1\nvia spacing 1 1\n0 0 10 10\nnum net 3\na 0 2 1\n5 5 1\n35 5 1\nb 1 2 1\n5 5 1\n35 5 1\nc 2 2 1\n5 5 1\n35 5 1\n0\n";

/// Two rows of three tiles, and three nets between the ends of the first, each of which uses four times what an edge has.
pub const SHARED_ROW: &[u8] =
    b"grid 3 2 1\nvertical capacity 2\nhorizontal capacity 2\nminimum width 1\nminimum spacing 1\nvia spacing 1\n0 0 10 10\nnum net 3\na 0 2 7\n5 5 1\n25 5 1\nb 1 2 7\n5 5 1\n25 5 1\nc 2 2 7\n5 5 1\n25 5 1\n0\n";

/// Two nets from one corner to the next along a side of three tiles. Both first take the short way of two edges, on which
/// only one has room. In the first round of repair one of them goes round by the other side, which has room for it.
pub const TWO_ALONG: &[u8] =
    b"grid 3 2 1\nvertical capacity 2\nhorizontal capacity 2\nminimum width 1\nminimum spacing 1\nvia spacing 1\n0 0 10 10\nnum net 2\na 0 2 1\n5 5 1\n25 5 1\nb 1 2 1\n5 5 1\n25 5 1\n0\n";

/// Two nets between two tiles, whose edge has room for one. The three edges of the other way have room for none, so that going
/// round there makes the overflow 3 in place of 2.
pub const NO_WAY_ROUND: &[u8] =
    b"grid 2 2 1\nvertical capacity 2\nhorizontal capacity 2\nminimum width 1\nminimum spacing 1\nvia spacing 1\n0 0 10 10\nnum net 2\na 0 2 1\n5 5 1\n15 5 1\nb 1 2 1\n5 5 1\n15 5 1\n3\n0 0 1 0 1 1 1\n1 0 1 1 1 1 1\n0 1 1 1 1 1 1\n";

/// Five rows and columns on two layers, and a net with a pin in the middle of each side and one in the middle.
pub const STAR: &[u8] =
    b"grid 5 5 2\nvertical capacity 8 8\nhorizontal capacity 8 8\nminimum width 1 1\nminimum spacing 1 1\nvia spacing 1 1\n0 0 10 10\nnum net 1\na 0 5 1\n25 5 1\n25 45 1\n5 25 1\n45 25 1\n25 25 2\n0\n";

/// Six tiles in a row, and a net with a pin in each.
pub const SIX_IN_A_ROW: &[u8] =
    b"grid 6 1 1\nvertical capacity 0\nhorizontal capacity 4\nminimum width 1\nminimum spacing 1\nvia spacing 1\n0 0 10 10\nnum net 1\na 0 6 1\n5 5 1\n15 5 1\n25 5 1\n35 5 1\n45 5 1\n55 5 1\n0\n";

/// Three nets from the left column to the right one, over two edges with room for one each.
pub const CUT: &[u8] =
    b"grid 2 2 1\nvertical capacity 8\nhorizontal capacity 2\nminimum width 1\nminimum spacing 1\nvia spacing 1\n0 0 10 10\nnum net 3\na 0 2 1\n5 5 1\n15 5 1\nb 1 2 1\n5 5 1\n15 5 1\nc 2 2 1\n5 15 1\n15 15 1\n0\n";

/// A wall between the first two columns, with a gap that has room for two of three nets.
pub const GAP: &[u8] =
    b"grid 3 3 1\nvertical capacity 20\nhorizontal capacity 20\nminimum width 1\nminimum spacing 1\nvia spacing 1\n0 0 10 10\nnum net 3\na 0 2 1\n5 5 1\n25 5 1\nb 1 2 1\n5 15 1\n25 15 1\nc 2 2 1\n5 25 1\n25 25 1\n3\n0 0 1 1 0 1 0\n0 1 1 1 1 1 4\n0 2 1 1 2 1 0\n";

/// A tile in the middle of two layers, with room for one net on each of its four ways out, and five nets out of it.
pub const BOX: &[u8] =
    b"grid 3 3 2\nvertical capacity 0 20\nhorizontal capacity 20 0\nminimum width 1 1\nminimum spacing 1 1\nvia spacing 1 1\n0 0 10 10\nnum net 5\na 0 2 1\n15 15 1\n5 5 1\nb 1 2 1\n15 15 1\n25 5 1\nc 2 2 1\n15 15 1\n5 25 1\nd 3 2 1\n15 15 1\n25 25 1\ne 4 2 1\n15 15 1\n5 15 1\n4\n0 1 1 1 1 1 2\n1 1 1 2 1 1 2\n1 0 2 1 1 2 2\n1 1 2 1 2 2 2\n";

/// Three nets out of such a tile.
pub const ROOM: &[u8] =
    b"grid 3 3 2\nvertical capacity 0 20\nhorizontal capacity 20 0\nminimum width 1 1\nminimum spacing 1 1\nvia spacing 1 1\n0 0 10 10\nnum net 3\na 0 2 1\n15 15 1\n5 5 1\nb 1 2 1\n15 15 1\n25 5 1\nc 2 2 1\n15 15 1\n5 25 1\n4\n0 1 1 1 1 1 2\n1 1 1 2 1 1 2\n1 0 2 1 1 2 2\n1 1 2 1 2 2 2\n";

/// A row whose first edge has room for one of three nets, and whose last one has a third less than its two nets need, of which
/// one has wide wires.
pub const PLACES: &[u8] =
    b"grid 4 1 1\nvertical capacity 0\nhorizontal capacity 20\nminimum width 1\nminimum spacing 1\nvia spacing 1\n0 0 10 10\nnum net 5\na 0 2 1\n5 5 1\n15 5 1\nb 1 2 1\n5 5 1\n15 5 1\nc 2 2 1\n5 5 1\n15 5 1\nd 3 2 3\n25 5 1\n35 5 1\ne 4 2 1\n25 5 1\n35 5 1\n2\n0 0 1 1 0 1 2\n2 0 1 3 0 1 4\n";

/// Two rows, columns and layers without nets, of 131 bytes, up to the adjustments.
pub const BLOCK: &[u8] =
    b"grid 2 2 2 vertical capacity 1 2 horizontal capacity 3 4 minimum width 1 1 minimum spacing 1 1 via spacing 1 1 0 0 10 10 num net 0 ";

/// The row without capacity, up to its count of nets.
pub const WALLED: &[u8] =
    b"grid 3 1 1\nvertical capacity 0\nhorizontal capacity 0\nminimum width 1\nminimum spacing 1\nvia spacing 1\n0 0 10 10\nnum net ";

/// A hundred columns and rows on two layers, of which each has edges in one direction, up to the count of nets.
const VAST: &[u8] =
    b"grid 100 100 2\nvertical capacity 0 8\nhorizontal capacity 8 0\nminimum width 1 1\nminimum spacing 1 1\nvia spacing 1 1\n0 0 10 10\nnum net ";

/// The text with the bytes between two places replaced.
pub fn edited(
    alloc: Global,
    text: &[u8],
    from: usize,
    to: usize,
    by: &[u8],
) -> Result<Vec<u8>, AllocError>
    ensures { IfOk result (λ bytes. bytes.items ≡ take (min from (length text.now)) text.now ++ by.now ++ drop (min to (length text.now)) text.now) }
{
    let mut bytes = Vec::from_slice(alloc, &text[..from.min(text.len())])?;
    bytes.extend_from_slice(by)?;
    bytes.extend_from_slice(&text[to.min(text.len())..])?;
    Ok(bytes)
}

/// The design of the row with the bytes between two places replaced.
pub fn design(alloc: Global, from: usize, to: usize, by: &[u8]) -> Result<Design, InputError> {
    read_design(alloc, edited(alloc, ROW, from, to, by)?.as_slice())
}

/// The vast grid with this many nets, each from one corner to a tile of the upper layer.
pub fn vast(alloc: Global, nets: u32) -> Result<Vec<u8>, AllocError> {
    let mut text = Vec::from_slice(alloc, VAST)?;
    text.extend_from_slice(nets.to_string(alloc)?.as_bytes())?;
    for k in 0..nets {
        let (x, y) = (k % 100 * 10 + 5, k / 100 % 100 * 10 + 5);
        text.extend_from_slice(format!(in alloc; "\nn {k} 2 1 5 5 1 {x} {y} 2")?.as_bytes())?;
    }
    Ok(text)
}

/// The vast grid with one net of this many pins, tile by tile on the upper layer.
pub fn crowd(alloc: Global, pins: u32) -> Result<Vec<u8>, AllocError> {
    let mut text = Vec::from_slice(alloc, VAST)?;
    text.extend_from_slice(format!(in alloc; "1\nn 0 {pins} 1")?.as_bytes())?;
    for k in 0..pins {
        let (x, y) = (k % 100 * 10 + 5, k / 100 % 100 * 10 + 5);
        text.extend_from_slice(format!(in alloc; "\n{x} {y} 2")?.as_bytes())?;
    }
    Ok(text)
}
