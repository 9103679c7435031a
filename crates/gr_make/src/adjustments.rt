//! The adjustments.

ghost use Rattle.std.specs.Prelude.{◌≡◌, ◌<◌, ◌+◌, ◌∷◌, [], decimal, flat_map, map};
ghost use Rattle.gr_desk.specs.Pens.{Puts, pen_told, HasSameDesk};
ghost use Rattle.seed_streams.specs.SeedWords.{stream_length};
ghost use Rattle.gr_make.specs.MadeAdjustments.{adjustment_count, made_adjustment, made_adjustments};
ghost use Rattle.gr_make.specs.MadeNets.{net_words};
ghost use Rattle.gr_make.specs.MadeText.{line_text, adjustment_line};
ghost use Rattle.gr_make.specs.Shapes.{IsShape};

use crate::lines::put_numbers;
use crate::random_words::RandomWords;
use crate::shape::Shape;
use gr_desk::{Desk, Pen};

/// How many tiles of a layer there are for each adjustment.
const TILES_PER_ADJUSTMENT: u32 = 16;

/// How many capacities an adjustment's is drawn from, of which the first is 0.
const LEVELS: u32 = 8;

/// Puts how many adjustments there are, and the adjustments.
pub(crate) fn put_adjustments<D: Desk>(pen: &mut Pen<'_, D>, words: &mut RandomWords, shape: Shape)
    requires shape { IsShape shape }
    requires nets_drawn { words.old.count ≡ net_words words.old.seed shape.nets }
    ensures same_desk { HasSameDesk pen.old pen.new }
    ensures puts { Puts (pen_told D.told pen.old) (pen_told D.told pen.new) (flat_map line_text ((decimal (adjustment_count shape) ∷ []) ∷ map adjustment_line (made_adjustments words.old.seed shape))) }
{
    let count = shape.cols * shape.rows / TILES_PER_ADJUSTMENT;
    put_numbers(pen, count, &[]);
    for _ in 0..count {
        put_adjustment(pen, words, shape);
    }
}

/// Puts an adjustment.
fn put_adjustment<D: Desk>(pen: &mut Pen<'_, D>, words: &mut RandomWords, shape: Shape)
    requires shape { IsShape shape }
    requires left { words.old.count + 3 < stream_length }
    ensures same_desk { HasSameDesk pen.old pen.new }
    ensures puts { Puts (pen_told D.told pen.old) (pen_told D.told pen.new) (line_text (adjustment_line (made_adjustment words.old.seed shape words.old.count))) }
    ensures drawn { words.new ≡ record words.old { count = words.old.count + 3 } }
{
    let col = words.draw(shape.cols - 1);
    let row = words.draw(shape.rows);
    let level = words.draw(LEVELS);
    put_numbers(pen, col, &[row, 1, col + 1, row, 1, level]);
}
