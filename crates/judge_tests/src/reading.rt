//! Reads routes that the judge can be given.

ghost use Rattle.std.specs.Prelude.{IfOk};
ghost use Rattle.route_judge.specs.Limits.{AreBlocks};

use route_text::{Block, read_routes};
use std::alloc::Global;
use std::test::Fail;

/// The blocks of a text of fewer than 2^32 bytes.
pub fn blocks_of(alloc: Global, routes: &[u8]) -> Result<Vec<Block>, Fail>
    ensures { IfOk result (λ blocks. AreBlocks blocks.items) }
{
    if routes.len() >= 1 << 32 {
        return Err(Fail::new("a text that is too long"));
    }
    let blocks = read_routes(alloc, routes)?;
    Ok(blocks)
}
