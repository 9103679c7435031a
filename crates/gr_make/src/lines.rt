//! Lines of a text.

ghost use Rattle.std.specs.Prelude.{◌≡◌, ◌∷◌, ◌++◌, codes, decimal, flat_map, map};
ghost use Rattle.gr_desk.specs.Pens.{Puts, pen_told, HasSameDesk};
ghost use Rattle.gr_make.specs.MadeText.{line_text};

use gr_desk::{Desk, Pen};

/// Puts a line: words, and numbers behind them.
pub(crate) fn put_line<D: Desk>(pen: &mut Pen<'_, D>, words: &[u8], numbers: &[u32])
    ensures same_desk { HasSameDesk pen.old pen.new }
    ensures puts { Puts (pen_told D.told pen.old) (pen_told D.told pen.new) (line_text (words.now ∷ map decimal numbers.now)) }
{
    pen.put(words);
    put_fields(pen, numbers);
    pen.put(b"\n");
}

/// Puts a line of numbers, of which the first is given apart.
pub(crate) fn put_numbers<D: Desk>(pen: &mut Pen<'_, D>, first: u32, others: &[u32])
    ensures same_desk { HasSameDesk pen.old pen.new }
    ensures puts { Puts (pen_told D.told pen.old) (pen_told D.told pen.new) (line_text (map decimal (first ∷ others.now))) }
{
    pen.put_number(first);
    put_fields(pen, others);
    pen.put(b"\n");
}

/// Puts numbers, each behind a space.
pub(crate) fn put_fields<D: Desk>(pen: &mut Pen<'_, D>, numbers: &[u32])
    ensures same_desk { HasSameDesk pen.old pen.new }
    ensures puts { Puts (pen_told D.told pen.old) (pen_told D.told pen.new) (flat_map (λ n. codes " " ++ decimal n) numbers.now) }
{
    for number in numbers {
        put_field(pen, *number);
    }
}

fn put_field<D: Desk>(pen: &mut Pen<'_, D>, number: u32)
    ensures same_desk { HasSameDesk pen.old pen.new }
    ensures puts { Puts (pen_told D.told pen.old) (pen_told D.told pen.new) (codes " " ++ decimal number) }
{
    pen.put(b" ");
    pen.put_number(number);
}
