//! Reads a route text.

ghost use Rattle.std.specs.Prelude.{◌≡◌, ◌≤◌, ◌+◌, ◌++◌, length, IfOk, IfErr, OnOk};
ghost use Rattle.std.specs.List.{All};
ghost use Rattle.text_scan.specs.Moves.{Moves};
ghost use Rattle.route_text.specs.Blocks.{begins_number, further_at, segments_at, block_name_at, block_at, blocks_of};
ghost use Rattle.route_text.specs.LentBlocks.{added, headed_block};
ghost use Rattle.route_text.specs.ReadLimits.{IsSegmentInRange, IsBlockInRange, block_and_segment_count};
ghost use Rattle.route_text.specs.declared.route_error.RouteError.TheVariants.{NoMemory};
ghost use Rattle.route_text.specs.Reads.{RefusesRoute, IsRouteReadAs};

use crate::block::Block;
use crate::block_head::BlockHead;
use crate::block_heading::BlockHeading;
use crate::block_list::BlockList;
use crate::parts::{segment, token_number};
use crate::route_error::RouteError;
use crate::segment::{Segment, Segments};
use grid_graph::{MAX_NUMBER, Name};
use std::alloc::Global;
use text_scan::Scanner;

/// The blocks of a route text.
pub fn read_routes(alloc: Global, bytes: &[u8]) -> Result<Vec<Block>, RouteError>
    ensures blocks { IfOk result (λ blocks. blocks_of bytes.now ≡ Ok blocks.items) }
    ensures refusal { IfErr result (λ e. RefusesRoute e (blocks_of bytes.now)) }
    ensures range { IfOk result (λ blocks. All IsBlockInRange blocks.items) }
    ensures few { IfOk result (λ blocks. block_and_segment_count blocks.items ≤ length bytes.now) }
{
    let mut scanner = Scanner::over(bytes);
    let mut blocks = Vec::new(alloc);
    while scanner.peek().is_some() {
        blocks.push(block(alloc, &mut scanner)?)?;
    }
    Ok(blocks)
}

/// The blocks of a route text, in little memory.
pub fn read_block_list(alloc: Global, bytes: &[u8]) -> Result<BlockList, RouteError>
    ensures blocks { IfOk result (λ blocks. blocks_of bytes.now ≡ Ok blocks) }
    ensures refusal { IfErr result (λ e. RefusesRoute e (blocks_of bytes.now)) }
    ensures range { IfOk result (λ blocks. All IsBlockInRange blocks) }
    ensures few { IfOk result (λ blocks. block_and_segment_count blocks ≤ length bytes.now) }
{
    let mut scanner = Scanner::over(bytes);
    let mut names = Vec::new(alloc);
    let mut segments = Vec::new(alloc);
    let mut heads = Vec::new(alloc);
    while scanner.peek().is_some() {
        let heading = next_block(&mut scanner, &mut segments)?;
        names.extend_from_slice(heading.name)?;
        heads.push(BlockHead {
            id: heading.id,
            name_end: end_of(names.len())?,
            segments_end: end_of(segments.len())?,
        })?;
    }
    Ok(BlockList::of(names, segments, heads))
}

/// The end of a list, where it fits.
fn end_of(len: usize) -> Result<u32, RouteError>
    ensures end { IfOk result (λ end. end ≡ len) }
    ensures no_memory { IfErr result (λ e. e ≡ NoMemory) }
{
    match u32::try_from(len) {
        Ok(end) => Ok(end),
        Err(_) => Err(RouteError::NoMemory),
    }
}

/// The next block.
fn block(alloc: Global, scanner: &mut Scanner<'_>) -> Result<Block, RouteError>
    ensures block { IsRouteReadAs (λ b. b) result scanner.new (block_at scanner.old) }
    ensures passed { IfOk result (λ b. Moves (1 + length b.segments) scanner.old scanner.new) }
    ensures range { IfOk result (λ b. IsBlockInRange b) }
{
    let mut segments = Vec::new(alloc);
    let BlockHeading { name, id } = next_block(scanner, &mut segments)?;
    let name = Vec::from_slice(alloc, name)?;
    Ok(Block {
        name: Name::of(name),
        id,
        segments: Segments::of(segments),
    })
}

/// What stands before the next block's segments. The segments are put on the list.
#[tactic(auto, unfolding(crate::specs::Blocks::block_at))]
fn next_block<'a>(
    scanner: &mut Scanner<'a>,
    segments: &mut Vec<Segment>,
) -> Result<BlockHeading<'a>, RouteError>
    ensures block { IsRouteReadAs (headed_block (added segments.old.items segments.new.items)) result scanner.new (block_at scanner.old) }
    ensures kept { OnOk result (segments.new.items ≡ segments.old.items ++ added segments.old.items segments.new.items) }
    ensures passed { OnOk result (Moves (1 + length (added segments.old.items segments.new.items)) scanner.old scanner.new) }
    ensures range { OnOk result (All IsSegmentInRange (added segments.old.items segments.new.items)) }
{
    let name = name(scanner)?;
    let id = token_number(scanner, 0, i64::from(u32::MAX))?;
    further(scanner)?;
    add_segments(scanner, segments)?;
    Ok(BlockHeading {
        name,
        id: id as u32,
    })
}

/// A name: any token.
fn name<'a>(scanner: &mut Scanner<'a>) -> Result<&'a [u8], RouteError>
    ensures name { IsRouteReadAs (λ name. name.now) result scanner.new (block_name_at scanner.old) }
    ensures passed { IfOk result (λ _. Moves 1 scanner.old scanner.new) }
{
    match scanner.token() {
        Some(span) => Ok(scanner.bytes(span)),
        None => Err(RouteError::Syntax {
            at: scanner.place(),
        }),
    }
}

/// The further number, where one follows: its value is ignored.
#[tactic(auto, unfolding(crate::specs::Blocks::further_at))]
fn further(scanner: &mut Scanner<'_>) -> Result<(), RouteError>
    ensures further { IsRouteReadAs (λ _. tt) result scanner.new (further_at scanner.old) }
    ensures passed { IfOk result (λ _. Moves 0 scanner.old scanner.new) }
{
    if begins_number(scanner.peek()) {
        token_number(scanner, -MAX_NUMBER, MAX_NUMBER)?;
    }
    Ok(())
}

fn begins_number(byte: Option<u8>) -> bool
    ensures { result ≡ begins_number byte }
{
    match byte {
        None => false,
        Some(b) => b.is_ascii_digit() || b == b'+' || b == b'-',
    }
}

/// The segments up to the `!` are put on the list, and the `!` is passed.
fn add_segments(scanner: &mut Scanner<'_>, segments: &mut Vec<Segment>) -> Result<(), RouteError>
    ensures segments { IsRouteReadAs (λ _. added segments.old.items segments.new.items) result scanner.new (segments_at scanner.old) }
    ensures kept { OnOk result (segments.new.items ≡ segments.old.items ++ added segments.old.items segments.new.items) }
    ensures passed { OnOk result (Moves (1 + length (added segments.old.items segments.new.items)) scanner.old scanner.new) }
    ensures range { OnOk result (All IsSegmentInRange (added segments.old.items segments.new.items)) }
{
    while !scanner.mark(b'!') {
        segments.push(segment(scanner)?)?;
    }
    Ok(())
}
