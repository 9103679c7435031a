//! The files that a run makes for routes and for a certificate.

ghost use Rattle.std.specs.Prelude.{◌≡◌, length, All};
ghost use Rattle.gr_desk.specs.declared.port.Port.TheVariants.{CertOut, RoutesOut};
ghost use Rattle.cert_text.specs.CertText.{cert_text};
ghost use Rattle.grid_graph.specs.Grids.{size_of};
ghost use Rattle.route_text.specs.RouteText.{routes_text};
ghost use Rattle.tree_set.specs.Routings.{ArePieces};
ghost use Rattle.command_runs.specs.Outputs.{Makes};

use cert_text::{Cert, write_cert};
use gr_desk::{Desk, Failed, Port};
use grid_graph::Design;
use route_text::write_routes;
use tree_set::Tree;

/// Creates a file under the name, and writes the certificate to it.
pub fn make_cert<D: Desk>(desk: &mut D, name: &str, cert: &Cert) -> Result<(), Failed>
    ensures { Makes (D.told desk.old) (D.told desk.new) CertOut name.now (cert_text cert.now) result }
{
    desk.create(Port::CertOut, name)?;
    write_cert(desk, Port::CertOut, cert)
}

/// Creates a file under the name, and writes the routes of all nets to it.
pub fn make_routes<D: Desk>(
    desk: &mut D,
    name: &str,
    design: &Design,
    trees: &[Tree],
) -> Result<(), Failed>
    requires one_each { length trees.now ≡ length design.now.nets }
    requires pieces { All (ArePieces (size_of design.now.grid)) trees.now }
    ensures { Makes (D.told desk.old) (D.told desk.new) RoutesOut name.now (routes_text design.now.grid design.now.nets trees.now) result }
{
    desk.create(Port::RoutesOut, name)?;
    write_routes(desk, Port::RoutesOut, design, trees)
}
