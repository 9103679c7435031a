//! The certificate that a climb comes to.

ghost use Rattle.std.specs.Prelude.{None, IfOk};
ghost use Rattle.cert_text.specs.Certs.{IsCertWithin};
ghost use Rattle.grid_graph.specs.Grounds.{AreGrounds};
ghost use Rattle.route_judge.specs.Judgements.{IsJudged};
ghost use Rattle.route_judge.specs.Limits.{AreBlocks};
ghost use Rattle.bound_climb.specs.Climbs.{MayBeTurns};
ghost use Rattle.climb_cli.specs.ClimbedCerts.{IsClimbedCert, IsWirelengthOfBlocks};

use crate::block_loads::loads_of_blocks;
use crate::climbed_cert::ClimbedCert;
use bound_climb::climb;
use cert_text::Cert;
use command_runs::GroundedDesign;
use grid_base::NoMemory;
use judge_laws::open_prices;
use route_judge::listed_prices;
use route_text::BlockList;
use std::alloc::Global;
use std::thread::Threads;

/// What a climb of so many turns comes to, from the loads of blocks with this wirelength and from the prices of a certificate,
/// which are accepted.
pub(crate) fn climbed_cert<R: Threads + Sync>(
    rt: &R,
    alloc: Global,
    grounded: &GroundedDesign,
    blocks: &BlockList,
    wirelength: u64,
    cert: Cert,
    turns: u32,
) -> Result<ClimbedCert, NoMemory>
    requires grounds { AreGrounds grounded.now.design.grid grounded.now.design.nets grounded.now.grounds.items }
    requires blocks { AreBlocks blocks.now }
    requires cert { IsCertWithin cert }
    requires judged { IsJudged grounded.now.design grounded.now.grounds.items blocks.now cert None }
    requires wirelength { IsWirelengthOfBlocks grounded.now.design blocks.now wirelength }
    requires turns { MayBeTurns turns }
    ensures { IfOk result (IsClimbedCert grounded.now.design grounded.now.grounds.items blocks.now cert turns) }
{
    let design = &grounded.design;
    let grounds = grounded.grounds.as_slice();
    let loads = loads_of_blocks(alloc, design, grounds, blocks, wirelength)?;
    let prices = listed_prices(alloc, &design.grid, cert.prices.list())?;
    let climbed = climb(
        rt,
        alloc,
        design,
        grounds,
        prices.as_slice(),
        cert.budget,
        loads.as_slice(),
        turns,
    )?;
    let open = open_prices(alloc, &design.grid, climbed.prices.as_slice())?;
    Ok(ClimbedCert {
        cert: Cert {
            nets: cert.nets,
            forced: cert.forced,
            overflow: cert.overflow,
            wirelength: cert.wirelength,
            peak: cert.peak,
            bound: climbed.bound,
            budget: climbed.budget,
            prices: open,
        },
        turn: climbed.turn,
    })
}
