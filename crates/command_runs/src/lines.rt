//! Lines of the report.

ghost use Rattle.std.specs.Prelude.{◌≡◌, [], ◌∷◌, codes};
ghost use Rattle.gr_desk.specs.Pens.{Puts, pen_told, HasSameDesk};
ghost use Rattle.command_runs.specs.Lines.{fields, line, budget_line, wanted_part, numbers_of, ending_of, lines_of};

use crate::refusal::Refusal;
use crate::said::Said;
use crate::text_fault::TextFault;
use gr_desk::{Desk, Pen};
use ispd_reader::Wanted;
use tree_set::Budget;

/// Puts numbers, each behind a space.
pub fn put_fields<D: Desk>(pen: &mut Pen<'_, D>, numbers: &[u64])
    ensures same_desk { HasSameDesk pen.old pen.new }
    ensures puts { Puts (pen_told D.told pen.old) (pen_told D.told pen.new) (fields numbers.now) }
{
    for number in numbers {
        pen.put(b" ");
        pen.put_number(*number);
    }
}

/// Puts a line: a word, and numbers behind it.
pub fn put_line<D: Desk>(pen: &mut Pen<'_, D>, word: &[u8], numbers: &[u64])
    ensures same_desk { HasSameDesk pen.old pen.new }
    ensures puts { Puts (pen_told D.told pen.old) (pen_told D.told pen.new) (line word.now numbers.now) }
{
    pen.put(word);
    put_fields(pen, numbers);
    pen.put(b"\n");
}

/// Puts the line of the budget, where there is one.
pub fn put_budget<D: Desk>(pen: &mut Pen<'_, D>, budget: Option<Budget>)
    ensures same_desk { HasSameDesk pen.old pen.new }
    ensures puts { Puts (pen_told D.told pen.old) (pen_told D.told pen.new) (budget_line budget) }
{
    match budget {
        Some(budget) => put_line(pen, b"budget", &[budget.most]),
        None => {}
    }
}

/// Puts the word that was wanted, where one was.
fn put_wanted<D: Desk>(pen: &mut Pen<'_, D>, wanted: Option<Wanted>)
    ensures same_desk { HasSameDesk pen.old pen.new }
    ensures puts { Puts (pen_told D.told pen.old) (pen_told D.told pen.new) (wanted_part wanted) }
{
    match wanted {
        Some(wanted) => {
            pen.put(b" ");
            pen.put(wanted.word().as_bytes());
        }
        None => {}
    }
}

/// Puts the numbers of a fault of a text that is read beside a design.
fn put_text_fault<D: Desk>(pen: &mut Pen<'_, D>, fault: TextFault)
    ensures same_desk { HasSameDesk pen.old pen.new }
    ensures puts { Puts (pen_told D.told pen.old) (pen_told D.told pen.new) (fields (numbers_of (Refusal.Text fault))) }
{
    put_fields(pen, &[u64::from(fault.number())]);
    match fault.place() {
        Some(at) => put_fields(pen, &[at as u64]),
        None => {}
    }
}

/// Puts the numbers that stand behind the status of a refusal.
fn put_numbers<D: Desk>(pen: &mut Pen<'_, D>, refusal: Refusal)
    ensures same_desk { HasSameDesk pen.old pen.new }
    ensures puts { Puts (pen_told D.told pen.old) (pen_told D.told pen.new) (fields (numbers_of refusal)) }
{
    match refusal {
        Refusal::Input(fault) => {
            put_fields(pen, &[u64::from(fault.number())]);
            put_fields(pen, fault.fields().as_slice());
        }
        Refusal::Unreachable(net) => put_fields(
            pen,
            &[
                u64::from(net.number()),
                u64::from(net.id),
                u64::from(net.terminal),
            ],
        ),
        Refusal::Text(fault) => put_text_fault(pen, fault),
        Refusal::NoCommand | Refusal::Unread | Refusal::NoMemory => {}
    }
}

/// Puts what stands behind the numbers of a refusal.
fn put_ending<D: Desk>(pen: &mut Pen<'_, D>, refusal: Refusal)
    ensures same_desk { HasSameDesk pen.old pen.new }
    ensures puts { Puts (pen_told D.told pen.old) (pen_told D.told pen.new) (ending_of refusal) }
{
    match refusal {
        Refusal::NoCommand => pen.put(
            b"\nusage: grouter route|measure|judge|make|trial|eco|climb|guide\n",
        ),
        Refusal::Input(fault) => {
            put_wanted(pen, fault.wanted());
            pen.put(b"\n");
        }
        Refusal::Text(_) | Refusal::Unreachable(_) | Refusal::Unread | Refusal::NoMemory => {
            pen.put(b"\n");
        }
    }
}

/// Puts what a refusal says.
fn put_refusal<D: Desk>(pen: &mut Pen<'_, D>, refusal: Refusal)
    ensures same_desk { HasSameDesk pen.old pen.new }
    ensures puts { Puts (pen_told D.told pen.old) (pen_told D.told pen.new) (lines_of refusal) }
{
    pen.put(b"refused");
    put_fields(pen, &[u64::from(refusal.status())]);
    put_numbers(pen, refusal);
    put_ending(pen, refusal);
}

impl Said for Refusal {
    ghost may = { λ _. Unit {0} };

    ghost text = { lines_of };

    fn put<D: Desk>(&self, pen: &mut Pen<'_, D>) {
        put_refusal(pen, *self);
    }
}
