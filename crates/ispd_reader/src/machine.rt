//! The machine of tokens: what has been read of a design, token by token.

ghost use Rattle.ispd_reader.specs.MachineStages.{IsReady, IsReady-prop};

use crate::machine_stage::MachineStage;
use design_tokens::{CutToken, InputError};
use grid_graph::Design;
use std::alloc::Global;

/// What has been read of a design. Once a token is refused, all of it is let go.
#[derive(Drop)]
pub(crate) struct Machine {
    stage: MachineStage,
    pub ghost ready: { IsReady stage } by { IsReady-prop stage },
}

impl Machine {
    ghost use Rattle.std.specs.Prelude.{◌≡◌, [], List, length, true, Ok, Err, IfOk, IfErr, IfSome};
    ghost use Rattle.text_scan.specs.Reading.{tokens_left};
    ghost use Rattle.design_tokens.specs.CutTokens.{keeps_name};
    ghost use Rattle.design_tokens.specs.Parsing.{Reading, refusal_in};
    ghost use Rattle.ispd_reader.specs.Adjustments.{Adjustment};
    ghost use Rattle.ispd_reader.specs.Designs.{Contents, contents_at, IsDesignOf};
    ghost use Rattle.ispd_reader.specs.MachineLeft.{left_of, Stands, awaits_a_name, MovesOn};

    /// Nothing has been read.
    pub(crate) fn new(alloc: Global) -> Self
        ensures left { (r : Reading) → left_of result [] r ≡ contents_at r }
        ensures stands { Stands result [] }
    {
        Machine {
            stage: MachineStage::new(alloc),
        }
    }

    /// Whether the next token is a name.
    pub(crate) fn awaits_name(&self) -> bool
        ensures { result ≡ awaits_a_name self.now }
    {
        match &self.stage {
            MachineStage::Header(_) => false,
            MachineStage::Body(body) => body.awaits_name(),
        }
    }

    /// Takes the next token.
    pub(crate) fn take(&mut self, alloc: Global, token: &CutToken) -> Result<(), InputError>
        requires named { awaits_a_name self.old ≡ true → keeps_name token.now ≡ true }
        ensures takes { (made : List Adjustment) → Stands self.old made → MovesOn token.now result self.old made self.new }
    {
        match self.stage.take(alloc, token) {
            Ok(()) => Ok(()),
            Err(refusal) => {
                self.stage = MachineStage::new(alloc);
                Err(refusal)
            }
        }
    }

    /// The design, where no token is left in a text of so many bytes.
    pub(crate) fn end(self, bytes: usize) -> Result<Design, InputError>
        ensures design { (made : List Adjustment) → Stands self made → IfOk result (λ d. (c : Contents) × IsDesignOf d c × ((r : Reading) → tokens_left r ≡ [] → left_of self made r ≡ Ok c)) }
        ensures refusal { (made : List Adjustment) → Stands self made → IfErr result (λ e. IfSome (refusal_in e) (λ fault. (r : Reading) → tokens_left r ≡ [] → (length r.text ≡ bytes) → left_of self made r ≡ Err fault)) }
    {
        self.stage.end(bytes)
    }
}
