//! What comes of a design, routes and a certificate that were read.

ghost use Rattle.std.specs.Prelude.{◌≡◌, IfErr, IfOk, IfSome, OnOk};
ghost use Rattle.command_words.specs.MapLine.{IsLayerNumber, map_task_of};
ghost use Rattle.congestion_cells.specs.TileUses.{AreLayersOf};
ghost use Rattle.grid_graph.specs.Grids.{size_of};
ghost use Rattle.grid_graph.specs.Grounds.{AreGrounds};
ghost use Rattle.route_judge.specs.Limits.{AreBlocks};
ghost use Rattle.congestion_cli.specs.MapHeadline.{HasLayer, IsMissing, IsDrawableOutcome, IsOutcomeOf, cut_objections, shown_of};
ghost use Rattle.route_judge.specs.Objections.{Finds};

use crate::drawing::Drawing;
use crate::drawn::drawing_of;
use crate::map_input::MapInput;
use crate::no_layer::LayerMissing;
use cert_text::Cert;
use command_runs::GroundedDesign;
use command_words::MapRequest;
use congestion_cells::ShownLayers;
use grid_base::{NoMemory, Size};
use grid_graph::Design;
use judge_cli::{RoutedInput, RoutesReport};
use route_judge::{Checked, Counted, Reason, forced_count, judge_routes, loads_of, open_count};
use std::alloc::Global;

/// What comes of them.
#[derive(Drop)]
pub(crate) enum Outcome {
    Drawn {
        drawing: Drawing,
        report: RoutesReport,
    },
    Objected(Reason),
    NoLayer(LayerMissing),
}

/// That a certificate has not one price for each open edge, if that is so.
fn wrong_prices(design: &Design, cert: &Option<Cert>) -> Option<Reason>
    ensures { Finds design.now (cut_objections design.now cert.now) result }
{
    match cert {
        None => None,
        Some(cert) => {
            let stated = cert.prices.list().len() as u64;
            let found = open_count(&design.grid);
            if stated == found {
                return None;
            }
            Some(Reason::WrongCount {
                what: Counted::Prices,
                stated,
                found,
            })
        }
    }
}

/// The layers that are asked for, where the grid has them.
fn shown_layers(size: Size, layer: Option<u32>) -> Result<ShownLayers, LayerMissing>
    requires { IfSome layer IsLayerNumber }
    ensures shown { IfOk result (λ shown. shown ≡ shown_of size layer) }
    ensures within { IfOk result (AreLayersOf size) }
    ensures there { OnOk result (HasLayer size layer) }
    ensures missing { IfErr result (IsMissing size layer) }
{
    match layer {
        None => Ok(ShownLayers::all(size)),
        Some(asked) => {
            let there = size.layers();
            if asked > there {
                return Err(LayerMissing { asked, there });
            }
            Ok(ShownLayers::one(size, asked - 1))
        }
    }
}

/// What comes of a design, blocks and the certificate of a cut.
pub(crate) fn outcome_of(
    alloc: Global,
    request: &MapRequest<'_>,
    input: MapInput,
) -> Result<Outcome, NoMemory>
    requires layer { IfSome request.now.layer IsLayerNumber }
    requires grounds { AreGrounds input.routed.grounded.design.grid input.routed.grounded.design.nets input.routed.grounded.grounds.items }
    requires blocks { AreBlocks input.routed.blocks }
    ensures drawable { IfOk result IsDrawableOutcome }
    ensures outcome { IfOk result (IsOutcomeOf (map_task_of request.now) input.routed.grounded.design input.routed.grounded.grounds.items input.routed.blocks input.cert) }
{
    let MapInput { routed, cert } = input;
    let RoutedInput { grounded, blocks } = routed;
    let GroundedDesign { design, grounds } = grounded;
    let grounds = grounds.as_slice();
    match judge_routes(alloc, &design, grounds, &blocks)? {
        Checked::No(reason) => Ok(Outcome::Objected(reason)),
        Checked::Yes { measure, beyond } => {
            match wrong_prices(&design, &cert) {
                Some(reason) => return Ok(Outcome::Objected(reason)),
                None => {}
            }
            let report = RoutesReport {
                nets: design.nets.list().len() as u64,
                forced: forced_count(grounds),
                beyond,
                measure,
            };
            let shown = match shown_layers(design.grid.size(), request.layer) {
                Ok(shown) => shown,
                Err(missing) => return Ok(Outcome::NoLayer(missing)),
            };
            let loads = loads_of(alloc, &design, grounds, &blocks)?;
            let drawing = drawing_of(alloc, design, loads, shown, request.form, &cert, measure)?;
            Ok(Outcome::Drawn { drawing, report })
        }
    }
}
