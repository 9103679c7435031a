//! Reading a design.

ghost use Rattle.std.specs.Prelude.{IfOk, IfErr};
ghost use Rattle.design_tokens.specs.Parsing.{Refuses, refusal_in};
ghost use Rattle.ispd_reader.specs.Designs.{contents_of, IsDesignOfText};

use crate::reader::Reader;
use design_tokens::InputError;
use grid_graph::Design;
use std::alloc::Global;

/// The design that a text in the ISPD 2008 input format names. `Input` says what is wrong with the
/// text, at the first place in the order of reading.
pub fn read_design(alloc: Global, bytes: &[u8]) -> Result<Design, InputError>
    ensures design { IfOk result (λ d. IsDesignOfText bytes.now d) }
    ensures refusal { IfErr result (λ e. Refuses refusal_in e (contents_of bytes.now)) }
{
    let mut reader = Reader::new(alloc)?;
    reader.feed(bytes)?;
    reader.end()
}
