//! The text of a routing.

ghost use Rattle.std.specs.Prelude.{◌≡◌, All, length};
ghost use Rattle.grid_graph.specs.Grids.{size_of};
ghost use Rattle.tree_set.specs.Routings.{ArePieces};
ghost use Rattle.gr_desk.specs.Pens.{Ends, Puts, pen_told, HasSameDesk};
ghost use Rattle.route_text.specs.RouteText.{routes_text};

use crate::net::put_net;
use gr_desk::{Desk, Failed, Pen, Port};
use grid_graph::Design;
use tree_set::Tree;

/// Writes the route text of one set per net to the port: the blocks of the nets, in their order.
///
/// After `Failed` some part from the front of the text was written.
pub fn write_routes<D: Desk>(
    desk: &mut D,
    port: Port,
    design: &Design,
    trees: &[Tree],
) -> Result<(), Failed>
    requires one_each { length trees.now ≡ length design.now.nets }
    requires pieces { All (ArePieces (size_of design.now.grid)) trees.now }
    ensures ends { Ends (D.told desk.old) (D.told desk.new) port (routes_text design.now.grid design.now.nets trees.now) result }
{
    let mut pen = Pen::new(desk, port);
    put_nets(&mut pen, design, trees);
    pen.finish()
}

/// Puts the blocks of all nets.
fn put_nets<D: Desk>(pen: &mut Pen<'_, D>, design: &Design, trees: &[Tree])
    requires one_each { length trees.now ≡ length design.now.nets }
    requires pieces { All (ArePieces (size_of design.now.grid)) trees.now }
    ensures same_desk { HasSameDesk pen.old pen.new }
    ensures puts { Puts (pen_told D.told pen.old) (pen_told D.told pen.new) (routes_text design.now.grid design.now.nets trees.now) }
{
    let nets = design.nets.list();
    for k in 0..trees.len() {
        put_net(pen, &design.grid, &nets[k], &trees[k]);
    }
}
