//! Texts and sums of `gr_make` that were computed by an independent ChaCha8 and an independent writer.

ghost use Rattle.std.specs.Prelude.{IfOk};
ghost use Rattle.gr_make.specs.Shapes.{IsShape};

use crate::text_fields::field_of;
use gr_desk::{Desk, MemDesk, Port};
use gr_make::{Shape, make};
use std::alloc::Global;
use std::test::Fail;
use test_rows::{Answers, check_rows, four_fields, number_of, three_numbers};

/// The shape of so many columns, rows and layers, and of so many nets.
fn shape_of(sides: &'static str, nets: &'static str) -> Result<Shape, Fail>
    ensures { IfOk result IsShape }
{
    let (cols, rows, layers) = three_numbers::<u32>(sides)?;
    let nets = number_of::<u32>(nets)?;
    if cols < 2 || cols > 1024 || rows < 2 || rows > 1024 {
        return Err(Fail::new("no such sides"));
    }
    if layers < 2 || layers > 8 || nets > 1048576 {
        return Err(Fail::new("no such shape"));
    }
    Ok(Shape {
        cols,
        rows,
        layers,
        nets,
    })
}

/// All bytes in one number: the sum of each byte times a power of 31, modulo 2^64.
fn checksum(text: &[u8]) -> u64 {
    let mut sum = 0u64;
    for byte in text {
        sum = sum.wrapping_mul(31).wrapping_add(u64::from(*byte));
    }
    sum
}

/// What is asked of a text: `text`, or `sum` for its length and its checksum.
fn asked_of(alloc: Global, asked: &'static str, text: &[u8]) -> Result<String, Fail> {
    match asked {
        "text" => field_of(alloc, text),
        "sum" => {
            let (length, sum) = (text.len(), checksum(text));
            Ok(format!(in alloc; "{length} {sum}")?)
        }
        _ => Err(Fail::new(asked)),
    }
}

/// The same of the design of a seed, which is written to the desk.
fn asked_of_made(
    alloc: Global,
    asked: &'static str,
    seed: u64,
    shape: Shape,
    desk: &mut MemDesk,
) -> Result<String, Fail>
    requires { IsShape shape }
{
    desk.create(Port::DesignOut, "made.gr")?;
    make(desk, Port::DesignOut, seed, shape)?;
    asked_of(alloc, asked, desk.written(Port::DesignOut))
}

struct Designs;

impl Answers for Designs {
    fn answer(&self, alloc: Global, given: &'static str) -> Result<String, Fail> {
        let (asked, seed, sides, nets) = four_fields(given)?;
        let (seed, shape) = (number_of(seed)?, shape_of(sides, nets)?);
        let mut desk = MemDesk::new(alloc, Vec::new(alloc), Vec::new(alloc));
        asked_of_made(alloc, asked, seed, shape, &mut desk)
    }
}

/// What is asked, a seed, the columns, rows and layers, the nets, and the text, or its length and its checksum. Of the texts the
/// first has too few tiles for an adjustment. Of the three nets of the second the last has the most pins. The third is that of the
/// greatest seed on the most layers, without a net: the first words are those of the adjustment. The last row has the largest shape.
const DESIGNS: &str =
    "text|7|2 2 2|2|grid 2 2 2;vertical capacity 0 8;horizontal capacity 8 0;minimum width 1 1;minimum spacing 1 1;via spacing 1 1;0 0 10 10;num net 2;n0 0 6 1;8 0 1;1 17 1;11 19 1;14 6 1;1 7 1;11 7 1;n1 1 3 1;3 16 1;5 18 1;1 2 1;0;
text|7|5 4 3|3|grid 5 4 3;vertical capacity 0 8 0;horizontal capacity 8 0 8;minimum width 1 1 1;minimum spacing 1 1 1;via spacing 1 1 1;0 0 10 10;num net 3;n0 0 6 1;8 20 1;41 17 1;31 39 1;44 26 1;21 7 1;31 7 1;n1 1 3 1;33 16 1;45 38 1;21 22 1;n2 2 7 1;45 19 1;9 14 1;44 4 1;49 33 1;34 20 1;27 19 1;26 25 1;1;2 3 1 3 3 1 3;
text|18446744073709551615|4 4 8|0|grid 4 4 8;vertical capacity 0 8 0 8 0 8 0 8;horizontal capacity 8 0 8 0 8 0 8 0;minimum width 1 1 1 1 1 1 1 1;minimum spacing 1 1 1 1 1 1 1 1;via spacing 1 1 1 1 1 1 1 1;0 0 10 10;num net 0;1;0 0 1 1 0 1 5;
sum|0|16 16 4|200|10000 13726826384681352293
sum|3|100 60 6|1000|63404 17911276876960728584
sum|3|1024 1024 8|1048576|77022818 3285538849633169964";

#[test]
fn designs_are_written_in_full(rt: HostRuntime) -> Result<(), Fail> {
    check_rows(rt.alloc(), DESIGNS, &Designs)
}
