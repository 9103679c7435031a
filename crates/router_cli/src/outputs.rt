//! The files that a run makes, but for certificates.

ghost use Rattle.std.specs.Prelude.{◌≡◌, length, All};
ghost use Rattle.gr_desk.specs.declared.port.Port.TheVariants.{RoutesOut, DesignOut};
ghost use Rattle.gr_make.specs.MadeText.{made_text};
ghost use Rattle.gr_make.specs.Shapes.{IsShape};
ghost use Rattle.grid_graph.specs.Grids.{size_of};
ghost use Rattle.route_text.specs.RouteText.{routes_text};
ghost use Rattle.tree_set.specs.Routings.{ArePieces};
ghost use Rattle.command_runs.specs.Outputs.{Makes};

use gr_desk::{Desk, Failed, Port};
use gr_make::{Shape, make};
use grid_graph::Design;
use route_text::write_routes;
use tree_set::Tree;

/// Creates a file under the name, and writes the routes of all nets to it.
pub(crate) fn make_routes<D: Desk>(
    desk: &mut D,
    name: &str,
    design: &Design,
    trees: &[Tree],
) -> Result<(), Failed>
    requires one_each { length trees.now ≡ length design.now.nets }
    requires pieces { All (ArePieces (size_of design.now.grid)) trees.now }
    ensures { Makes (D.told desk.old) (D.told desk.new) RoutesOut name.now (routes_text design.now.grid design.now.nets trees.now) result }
{
    desk.create(Port::RoutesOut, name)?;
    write_routes(desk, Port::RoutesOut, design, trees)
}

/// Creates a file under the name, and writes the design that is made from the seed to it.
pub(crate) fn make_design<D: Desk>(
    desk: &mut D,
    name: &str,
    seed: u64,
    shape: Shape,
) -> Result<(), Failed>
    requires shape { IsShape shape }
    ensures { Makes (D.told desk.old) (D.told desk.new) DesignOut name.now (made_text seed shape) result }
{
    desk.create(Port::DesignOut, name)?;
    make(desk, Port::DesignOut, seed, shape)
}
