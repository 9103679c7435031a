//! What a certificate claims of routes and of a design.

ghost use Rattle.std.specs.Prelude.{◌≡◌, ◌↔◌, [], ◌∷◌, IsTrue};
ghost use Rattle.route_judge.specs.Counts as counts;
ghost use Rattle.route_judge.specs.Objections as objections;
ghost use Rattle.route_judge.specs.Objections.{Differ};
ghost use Rattle.route_judge.specs.Orders.{measure_objections, count_objections};
ghost use Rattle.route_judge.specs.Stops.{StopsAt};

use crate::counted::Counted;
use crate::reason::Reason;
use crate::stop::Stop;
use cert_text::Cert;
use grid_base::Edge;
use grid_graph::{Design, Grid, Ground};
use tree_set::{Fraction, Measure};

/// Whether two fractions differ in value, or one is there and the other not.
fn differ(stated: Option<Fraction>, found: Option<Fraction>) -> bool
    ensures { IsTrue result ↔ Differ stated found }
{
    match (stated, found) {
        (None, None) => false,
        (Some(f), Some(g)) => !f.less_or_equal(&g) || !g.less_or_equal(&f),
        _ => true,
    }
}

/// Tests what is stated of the measure.
pub(crate) fn test_measure(design: &Design, cert: &Cert, found: &Measure) -> Result<(), Stop>
    ensures { StopsAt design.now (measure_objections cert.now found.now) result }
{
    if cert.overflow != found.overflow {
        return Err(Stop::Refused(Reason::WrongOverflow {
            stated: cert.overflow,
            found: found.overflow,
        }));
    }
    if cert.wirelength != found.wirelength {
        return Err(Stop::Refused(Reason::WrongWirelength {
            stated: cert.wirelength,
            found: found.wirelength,
        }));
    }
    if differ(cert.peak, found.peak) {
        return Err(Stop::Refused(Reason::WrongPeak {
            stated: cert.peak,
            found: found.peak,
        }));
    }
    Ok(())
}

/// Whether a net with this ground is forced.
fn needs_choked_edges(over: Ground) -> bool
    ensures { result ≡ counts.needs_choked_edges over }
{
    match over {
        Ground::Open => false,
        Ground::WithChoked => true,
    }
}

/// How many of the grounds are those of forced nets.
pub fn forced_count(grounds: &[Ground]) -> u64
    ensures { result ≡ counts.forced_count grounds.now }
{
    let mut count = 0;
    for over in grounds {
        count += u64::from(needs_choked_edges(*over));
    }
    count
}

/// How many edges are open.
pub fn open_count(grid: &Grid) -> u64
    ensures { result ≡ counts.open_count grid.now }
{
    let mut count = 0;
    for e in 0..2 * grid.size().vertices() {
        count += u64::from(grid.capacity(Edge(e)) > 0);
    }
    count
}

/// Tests what is counted of the design.
pub(crate) fn test_counts(design: &Design, grounds: &[Ground], cert: &Cert) -> Result<(), Stop>
    ensures { StopsAt design.now (count_objections design.now grounds.now cert.now) result }
{
    test_count(
        design,
        Counted::Nets,
        u64::from(cert.nets),
        design.nets.list().len() as u64,
    )?;
    test_count(
        design,
        Counted::Forced,
        u64::from(cert.forced),
        forced_count(grounds),
    )?;
    test_count(
        design,
        Counted::Prices,
        cert.prices.list().len() as u64,
        open_count(&design.grid),
    )
}

/// Tests one of the numbers.
fn test_count(design: &Design, what: Counted, stated: u64, found: u64) -> Result<(), Stop>
    ensures { StopsAt design.now (objections.wrong_count what stated found ∷ []) result }
{
    if stated != found {
        return Err(Stop::Refused(Reason::WrongCount {
            what,
            stated,
            found,
        }));
    }
    Ok(())
}
