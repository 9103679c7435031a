//! What stands behind the header: the nets, and the adjustments.

ghost use Rattle.std.specs.Prelude.{◌≡◌, [], List, length, true, None, Ok, Err, IfOk, IfErr, IfSome};
ghost use Rattle.text_scan.specs.Reading.{tokens_left};
ghost use Rattle.grid_graph.specs.Layouts.{IsGridParts, layout_of_parts};
ghost use Rattle.design_tokens.specs.CutTokens.{keeps_name};
ghost use Rattle.design_tokens.specs.Parsing.{Reading, refusal_in};
ghost use Rattle.ispd_reader.specs.Adjustments.{Adjustment};
ghost use Rattle.ispd_reader.specs.Designs.{Contents, IsDesignOf};
ghost use Rattle.ispd_reader.specs.NetsLeft.{awaits_name};
ghost use Rattle.ispd_reader.specs.BodyLeft.{body_left, after_header, HasCapacities, IsReadyBody, BodyMovesOn};
ghost use Rattle.ispd_reader.specs.Views.{header_of};

use crate::adjustments_reader::AdjustmentsReader;
use crate::nets_reader::NetsReader;
use design_tokens::{CutToken, InputError, InputFault};
use grid_graph::{Design, Grid, GridParts};
use std::alloc::Global;

/// The grid, and what of the nets and of the adjustments has been read.
#[derive(Drop)]
pub(crate) struct Body {
    grid: Grid,
    nets: NetsReader,
    adjustments: AdjustmentsReader,
}

impl Body {
    /// The grid is there, and nothing else has been read.
    #[inline(never)]
    pub(crate) fn new(alloc: Global, parts: GridParts) -> Result<Self, InputError>
        requires { IsGridParts parts }
        ensures left { IfOk result (λ body. (r : Reading) → body_left body [] r ≡ after_header (header_of (layout_of_parts parts)) r) }
        ensures capacities { IfOk result (λ body. HasCapacities body []) }
        ensures ready { IfOk result IsReadyBody }
        ensures memory { IfErr result (λ e. refusal_in e ≡ None) }
    {
        let grid = Grid::new(alloc, parts)?;
        let nets = NetsReader::new(alloc, &grid);
        let adjustments = AdjustmentsReader::new();
        Ok(Body {
            grid,
            nets,
            adjustments,
        })
    }

    /// Whether the next token is a name.
    pub(crate) fn awaits_name(&self) -> bool
        ensures { result ≡ awaits_name self.now.nets }
    {
        self.nets.awaits_name()
    }

    /// Takes the next token.
    pub(crate) fn take(&mut self, alloc: Global, token: &CutToken) -> Result<(), InputError>
        requires ready { IsReadyBody self.old }
        requires named { awaits_name self.old.nets ≡ true → keeps_name token.now ≡ true }
        ensures takes { (made : List Adjustment) → HasCapacities self.old made → BodyMovesOn token.now result self.old made self.new }
        ensures ready { IfOk result (λ _. IsReadyBody self.new) }
    {
        if self.nets.is_done() {
            self.adjustments.take(&mut self.grid, token)
        } else {
            self.nets.take(alloc, &self.grid, token)
        }
    }

    /// The design, where no token is left in a text of so many bytes.
    pub(crate) fn end(self, bytes: usize) -> Result<Design, InputError>
        requires { IsReadyBody self }
        ensures design { (made : List Adjustment) → HasCapacities self made → IfOk result (λ d. (c : Contents) × IsDesignOf d c × ((r : Reading) → tokens_left r ≡ [] → body_left self made r ≡ Ok c)) }
        ensures refusal { (made : List Adjustment) → IfErr result (λ e. IfSome (refusal_in e) (λ fault. (r : Reading) → tokens_left r ≡ [] → (length r.text ≡ bytes) → body_left self made r ≡ Err fault)) }
    {
        if !self.nets.is_done() {
            return Err(InputError::Input(InputFault::Syntax {
                at: bytes,
                wanted: self.nets.wanted(),
            }));
        }
        match self.adjustments.wanted() {
            Some(wanted) => Err(InputError::Input(InputFault::Syntax { at: bytes, wanted })),
            None => Ok(Design {
                grid: self.grid,
                nets: self.nets.into_nets(),
            }),
        }
    }
}
