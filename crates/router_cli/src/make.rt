//! The command `make`.

ghost use Rattle.std.specs.Prelude.{◌≡◌};
ghost use Rattle.command_words.specs.CommandLine.{HasMakeRanges};
ghost use Rattle.gr_desk.specs.Pens.{HasSameDesk, Puts, pen_told};
ghost use Rattle.gr_make.specs.Shapes.{IsShape};
ghost use Rattle.router_cli.specs.MakeRun.{IsMakeRun, made_line, make_task_of};

use crate::outputs::make_design;
use command_runs::{Said, put_fields, say, say_unwritten};
use command_words::MakeRequest;
use gr_desk::{Desk, Failed, Pen};
use gr_make::Shape;

/// Makes the design that is asked for, reports how many nets it has, and answers the status.
pub(crate) fn make<D: Desk>(desk: &mut D, request: &MakeRequest<'_>) -> u8
    requires ranges { HasMakeRanges request.now }
    ensures { IsMakeRun (make_task_of request.now) (D.told desk.old) (D.told desk.new) result }
{
    let shape = shape_of(request);
    match make_design(desk, request.output, request.seed, shape) {
        Ok(()) => say(desk, &Made { nets: shape.nets }, false),
        Err(Failed) => say_unwritten(desk),
    }
}

/// How large the design is to be.
fn shape_of(request: &MakeRequest<'_>) -> Shape
    requires { HasMakeRanges request.now }
    ensures shape { result ≡ (make_task_of request.now).shape }
    ensures limits { IsShape result }
{
    Shape {
        cols: request.cols,
        rows: request.rows,
        layers: request.layers,
        nets: request.nets,
    }
}

/// That a design with so many nets was made.
#[derive(Drop)]
struct Made {
    nets: u32,
}

impl Said for Made {
    ghost may = { λ _. Unit {0} };

    ghost text = { λ made. made_line made.nets };

    fn put<D: Desk>(&self, pen: &mut Pen<'_, D>) {
        pen.put(b"made");
        put_fields(pen, &[u64::from(self.nets)]);
        pen.put(b" nets\n");
    }
}
