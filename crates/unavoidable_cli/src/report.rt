//! The report of a finding.

ghost use Rattle.std.specs.Prelude.{◌≡◌, All, flat_map};
ghost use Rattle.gr_desk.specs.Pens.{Puts, pen_told, HasSameDesk};
ghost use Rattle.unavoidable_cli.specs.PricedEdges.{IsEdgeOf, edge_line, edges_text};
ghost use Rattle.unavoidable_cli.specs.Report.{HasEdges, finding_report};

use crate::finding::Finding;
use crate::priced_edge::PricedEdge;
use cert_text::put_labelled_fraction;
use command_runs::{Said, put_budget, put_fields, put_line};
use gr_desk::{Desk, Pen};
use grid_base::Piece;
use grid_graph::Grid;
use route_text::put_point;

/// Puts the line of an edge: its two ends and its price.
fn put_edge<D: Desk>(pen: &mut Pen<'_, D>, grid: &Grid, priced: PricedEdge)
    requires { IsEdgeOf grid.now priced }
    ensures same_desk { HasSameDesk pen.old pen.new }
    ensures puts { Puts (pen_told D.told pen.old) (pen_told D.told pen.new) (edge_line grid.now priced) }
{
    let (start, end) = grid.size().ends_of(Piece::Edge(priced.edge));
    put_point(pen, grid, start);
    pen.put(b"-");
    put_point(pen, grid, end);
    put_fields(pen, &[u64::from(priced.price)]);
    pen.put(b"\n");
}

/// Puts the lines of edges.
fn put_edge_lines<D: Desk>(pen: &mut Pen<'_, D>, grid: &Grid, edges: &[PricedEdge])
    requires { All (IsEdgeOf grid.now) edges.now }
    ensures same_desk { HasSameDesk pen.old pen.new }
    ensures puts { Puts (pen_told D.told pen.old) (pen_told D.told pen.new) (flat_map (edge_line grid.now) edges.now) }
{
    for priced in edges {
        put_edge(pen, grid, *priced);
    }
}

/// Puts how many edges there are, behind a word, and the line of each.
fn put_edges<D: Desk>(pen: &mut Pen<'_, D>, word: &[u8], grid: &Grid, edges: &[PricedEdge])
    requires { All (IsEdgeOf grid.now) edges.now }
    ensures same_desk { HasSameDesk pen.old pen.new }
    ensures puts { Puts (pen_told D.told pen.old) (pen_told D.told pen.new) (edges_text word.now grid.now edges.now) }
{
    put_line(pen, word, &[edges.len() as u64]);
    put_edge_lines(pen, grid, edges);
}

impl Said for Finding {
    ghost may = { HasEdges };

    ghost text = { finding_report };

    fn put<D: Desk>(&self, pen: &mut Pen<'_, D>) {
        let grid = &self.design.grid;
        put_labelled_fraction(pen, b"bound", self.new.bound);
        put_edges(pen, b"bottleneck", grid, self.bottleneck.as_slice());
        put_line(pen, b"overflow", &[self.overflow]);
        put_edges(pen, b"cut", grid, self.cut.as_slice());
        put_line(pen, b"routes", &[self.routes]);
        put_budget(pen, self.new.budget);
    }
}
