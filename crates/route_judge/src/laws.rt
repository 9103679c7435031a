//! What the words of the contracts amount to. Nothing is computed here: each contract is a law.

ghost use Rattle.std.specs.Prelude.{◌≡◌, ◌<◌, ◌≤◌, ℕ, List, All, Option};
ghost use Rattle.grid_graph.specs.declared.design.Design.{Design};
ghost use Rattle.route_text.specs.declared.block.Block.{Block};
ghost use Rattle.route_text.specs.ReadLimits.{IsBlockInRange, block_and_segment_count};
ghost use Rattle.route_judge.specs.declared.reason.Reason.{Reason};
ghost use Rattle.route_judge.specs.Limits.{number_limit, AreBlocks};
ghost use Rattle.route_judge.specs.Objections.{Objection, Finds};

/// There is one first objection that applies, or none: no two reasons can be given.
pub fn one_reason_is_found()
    ensures { (d : Design) (objections : List Objection) (one other : Option Reason) → Finds d objections one → Finds d objections other → one ≡ other }
{}

/// The blocks of a text of fewer than 2^32 bytes can be judged: a text has no more blocks and segments than bytes.
pub fn short_texts_can_be_judged()
    ensures { (blocks : List Block) (bytes : ℕ) → All IsBlockInRange blocks → block_and_segment_count blocks ≤ bytes → bytes < number_limit → AreBlocks blocks }
{}
