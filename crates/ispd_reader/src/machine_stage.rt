//! Which part of a design text is read.

ghost use Rattle.std.specs.Prelude.{◌≡◌, [], List, length, true, Ok, Err, IfOk, IfErr, IfSome};
ghost use Rattle.text_scan.specs.Reading.{tokens_left};
ghost use Rattle.design_tokens.specs.CutTokens.{keeps_name};
ghost use Rattle.design_tokens.specs.Parsing.{Reading, refusal_in};
ghost use Rattle.ispd_reader.specs.Adjustments.{Adjustment};
ghost use Rattle.ispd_reader.specs.Designs.{Contents, contents_at, IsDesignOf};
ghost use Rattle.ispd_reader.specs.MachineStages.{IsReady, IsOfHeader, HasMade, awaits_name_at, left_at_stage, StageMovesOn};

use crate::body::Body;
use crate::header_reader::HeaderReader;
use design_tokens::{CutToken, InputError, InputFault};
use grid_graph::Design;
use std::alloc::Global;

/// The header is read, or what stands behind it.
#[derive(Drop)]
pub(crate) enum MachineStage {
    Header(HeaderReader),
    Body(Body),
}

impl MachineStage {
    /// Nothing has been read.
    #[cold]
    #[inline(never)]
    pub(crate) fn new(alloc: Global) -> Self
        ensures left { (r : Reading) → left_at_stage result [] r ≡ contents_at r }
        ensures made { HasMade result [] }
        ensures ready { IsReady result }
    {
        MachineStage::Header(HeaderReader::new(alloc))
    }

    /// Takes the next token.
    pub(crate) fn take(&mut self, alloc: Global, token: &CutToken) -> Result<(), InputError>
        requires ready { IsReady self.old }
        requires named { awaits_name_at self.old ≡ true → keeps_name token.now ≡ true }
        ensures takes { (made : List Adjustment) → HasMade self.old made → StageMovesOn token.now result self.old made self.new }
        ensures ready { IfOk result (λ _. IsReady self.new) }
    {
        match self {
            MachineStage::Header(_) => self.take_of_header(alloc, token),
            MachineStage::Body(body) => body.take(alloc, token),
        }
    }

    /// Takes the next token of the header. Behind its last one stands the body.
    #[inline(never)]
    fn take_of_header(&mut self, alloc: Global, token: &CutToken) -> Result<(), InputError>
        requires ready { IsReady self.old }
        requires header { IsOfHeader self.old }
        ensures takes { (made : List Adjustment) → HasMade self.old made → StageMovesOn token.now result self.old made self.new }
        ensures ready { IfOk result (λ _. IsReady self.new) }
    {
        let MachineStage::Header(header) = self else {
            return Ok(());
        };
        if let Some(parts) = header.take(token)? {
            *self = MachineStage::Body(Body::new(alloc, parts)?);
        }
        Ok(())
    }

    /// The design, where no token is left in a text of so many bytes.
    pub(crate) fn end(self, bytes: usize) -> Result<Design, InputError>
        requires { IsReady self }
        ensures design { (made : List Adjustment) → HasMade self made → IfOk result (λ d. (c : Contents) × IsDesignOf d c × ((r : Reading) → tokens_left r ≡ [] → left_at_stage self made r ≡ Ok c)) }
        ensures refusal { (made : List Adjustment) → IfErr result (λ e. IfSome (refusal_in e) (λ fault. (r : Reading) → tokens_left r ≡ [] → (length r.text ≡ bytes) → left_at_stage self made r ≡ Err fault)) }
    {
        match self {
            MachineStage::Header(header) => Err(InputError::Input(InputFault::Syntax {
                at: bytes,
                wanted: header.wanted(),
            })),
            MachineStage::Body(body) => body.end(bytes),
        }
    }
}
