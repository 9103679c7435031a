//! The nets.

ghost use Rattle.std.specs.Prelude.{◌≡◌, ◌<◌, ◌+◌, ◌*◌, flat_map, map};
ghost use Rattle.gr_desk.specs.Pens.{Puts, pen_told, HasSameDesk};
ghost use Rattle.seed_streams.specs.SeedWords.{stream_length};
ghost use Rattle.gr_make.specs.MadeNets.{pin_count, made_pin, made_pins, made_net, net_words, made_nets};
ghost use Rattle.gr_make.specs.MadeText.{line_text, pin_line, net_lines};
ghost use Rattle.gr_make.specs.Shapes.{IsShape};

use crate::lines::{put_fields, put_numbers};
use crate::random_words::RandomWords;
use crate::shape::Shape;
use gr_desk::{Desk, Pen};

/// The width and the height of a tile.
pub(crate) const TILE_SIDE: u32 = 10;

/// The fewest pins of a net.
const MIN_PINS: u32 = 2;

/// How many numbers of pins a net's is drawn from.
const PIN_COUNTS: u32 = 6;

/// Puts the nets, in the order of their numbers.
pub(crate) fn put_nets<D: Desk>(pen: &mut Pen<'_, D>, words: &mut RandomWords, shape: Shape)
    requires shape { IsShape shape }
    requires none_drawn { words.old.count ≡ 0 }
    ensures same_desk { HasSameDesk pen.old pen.new }
    ensures puts { Puts (pen_told D.told pen.old) (pen_told D.told pen.new) (flat_map line_text (flat_map net_lines (made_nets words.old.seed shape))) }
    ensures drawn { words.new ≡ record words.old { count = net_words words.old.seed shape.nets } }
{
    for number in 0..shape.nets {
        put_net(pen, words, shape, number);
    }
}

/// Puts the net of a number.
fn put_net<D: Desk>(pen: &mut Pen<'_, D>, words: &mut RandomWords, shape: Shape, number: u32)
    requires shape { IsShape shape }
    requires left { words.old.count + 15 < stream_length }
    ensures same_desk { HasSameDesk pen.old pen.new }
    ensures puts { Puts (pen_told D.told pen.old) (pen_told D.told pen.new) (flat_map line_text (net_lines (made_net words.old.seed shape words.old.count number))) }
    ensures drawn { words.new ≡ record words.old { count = words.old.count + (1 + 2 * pin_count words.old.seed words.old.count) } }
{
    let pins = MIN_PINS + words.draw(PIN_COUNTS);
    pen.put(b"n");
    pen.put_number(number);
    put_fields(pen, &[number, pins, 1]);
    pen.put(b"\n");
    put_pins(pen, words, shape, pins);
}

/// Puts so many pins.
fn put_pins<D: Desk>(pen: &mut Pen<'_, D>, words: &mut RandomWords, shape: Shape, count: u32)
    requires shape { IsShape shape }
    requires left { words.old.count + 2 * count < stream_length }
    ensures same_desk { HasSameDesk pen.old pen.new }
    ensures puts { Puts (pen_told D.told pen.old) (pen_told D.told pen.new) (flat_map line_text (map pin_line (made_pins words.old.seed shape words.old.count count))) }
    ensures drawn { words.new ≡ record words.old { count = words.old.count + 2 * count } }
{
    for _ in 0..count {
        put_pin(pen, words, shape);
    }
}

/// Puts a pin.
fn put_pin<D: Desk>(pen: &mut Pen<'_, D>, words: &mut RandomWords, shape: Shape)
    requires shape { IsShape shape }
    requires left { words.old.count + 2 < stream_length }
    ensures same_desk { HasSameDesk pen.old pen.new }
    ensures puts { Puts (pen_told D.told pen.old) (pen_told D.told pen.new) (line_text (pin_line (made_pin words.old.seed shape words.old.count))) }
    ensures drawn { words.new ≡ record words.old { count = words.old.count + 2 } }
{
    let x = words.draw(TILE_SIDE * shape.cols);
    let y = words.draw(TILE_SIDE * shape.rows);
    put_numbers(pen, x, &[y, 1]);
}
