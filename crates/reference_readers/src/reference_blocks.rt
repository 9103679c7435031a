//! The blocks of a route text, by an automaton.
//!
//! It has a state for each part of a block, and one loop takes one word, number or mark after the other: no function
//! stands for a part of the text, and a segment is a row of marks and numbers. It shares nothing with the reader that is
//! used but the types of the answer.

ghost use Rattle.std.specs.Prelude.{◌≡◌, ◌<◌, ◌≤◌, ◌+◌, ◌==◌, ◌++◌, ◌∷◌, [], false, length, slice_index, IfOk, IfErr, Ok};
ghost use Rattle.text_scan.specs.Tokens.{is_blank};
ghost use Rattle.text_scan.specs.Reading.{Reading};
ghost use Rattle.route_text.specs.declared.route_error.RouteError.TheVariants.{NoMemory};
ghost use Rattle.route_text.specs.Blocks.{blocks_of};
ghost use Rattle.route_text.specs.Reads.{RefusesRoute};
ghost use Rattle.reference_readers.specs.ReferenceBlocks.{ReadsAsBefore, at, block_of, left_among, left_at_further, left_at_id};
ghost use Rattle.reference_readers.specs.ReferenceBlocks.{left_at_name, left_at_segments, left_in_row, text_left, with_next_number};

use crate::reference_numbers::{begins_number, number_end, number_within, word_end};
use crate::reference_tokens::is_blank;
use crate::taken::{Part, Taken};
use grid_graph::Name;
use route_text::{Block, Point, RouteError, Segment, Segments};
use std::alloc::Global;
use std::mem;

/// The greatest coordinate, and the greatest further number.
const FARTHEST: i64 = 1 << 40;

/// A segment behind its first mark, where `#` stands for a number.
const SEGMENT: &[u8] = b"#,#,#)-(#,#,#)";

/// The blocks of the text, or the first place at which it is no list of blocks.
pub fn blocks_by_automaton(alloc: Global, text: &[u8]) -> Result<Vec<Block>, RouteError>
    ensures blocks { IfOk result (λ blocks. blocks_of text.now ≡ Ok blocks.items) }
    ensures refusal { IfErr result (λ e. RefusesRoute e (blocks_of text.now)) }
{
    let mut taken = nothing_taken(alloc);
    let mut place = 0;
    while place < text.len() {
        place = take(&mut taken, alloc, text, place)?;
    }
    match taken.part {
        Part::Name => Ok(taken.blocks),
        _ => Err(RouteError::Syntax { at: place }),
    }
}

/// Nothing of a text.
fn nothing_taken(alloc: Global) -> Taken
    ensures { (r : Reading) → text_left result r ≡ left_at_name [] r }
{
    let origin = Point {
        x: 0,
        y: 0,
        layer: 0,
    };
    Taken {
        blocks: Vec::new(alloc),
        part: Part::Name,
        name: Vec::new(alloc),
        id: 0,
        segments: Vec::new(alloc),
        segment: Segment {
            from: origin,
            to: origin,
        },
    }
}

/// Takes what stands at this place, and says where it ends.
fn take(state: &mut Taken, alloc: Global, text: &[u8], place: usize) -> Result<usize, RouteError>
    requires { place < length text.now }
    ensures taken { ReadsAsBefore (text_left state.old (at text.now place)) text.now state.new result }
    ensures forward { IfOk result (λ end. (place < end) × (end ≤ length text.now)) }
{
    if is_blank(text[place]) {
        return Ok(place + 1);
    }
    match state.part {
        Part::Name => take_name(state, alloc, text, place),
        Part::Id => take_id(state, text, place),
        Part::Further => take_further(state, alloc, text, place),
        Part::Segments(row) => take_from_row(state, row, alloc, text, place),
    }
}

/// Takes a name: any word.
fn take_name(
    state: &mut Taken,
    alloc: Global,
    text: &[u8],
    place: usize,
) -> Result<usize, RouteError>
    requires inside { place < length text.now }
    requires no_blank { is_blank (slice_index text.now place) ≡ false }
    ensures taken { ReadsAsBefore (left_at_name state.old.blocks.items (at text.now place)) text.now state.new result }
    ensures forward { IfOk result (λ end. (place < end) × (end ≤ length text.now)) }
{
    let end = word_end(text, place);
    state.name = Vec::from_slice(alloc, &text[place..end])?;
    state.segments.clear();
    state.part = Part::Id;
    Ok(end)
}

/// Takes an id: a word that is a number.
fn take_id(state: &mut Taken, text: &[u8], place: usize) -> Result<usize, RouteError>
    requires inside { place < length text.now }
    requires no_blank { is_blank (slice_index text.now place) ≡ false }
    ensures taken { ReadsAsBefore (left_at_id state.old (at text.now place)) text.now state.new result }
    ensures forward { IfOk result (λ end. (place < end) × (end ≤ length text.now)) }
{
    let end = word_end(text, place);
    let Some(id) = number_within(&text[place..end], 0, i64::from(u32::MAX)) else {
        return Err(RouteError::Syntax { at: place });
    };
    state.id = id as u32;
    state.part = Part::Further;
    Ok(end)
}

/// Takes a further number, where one begins; else what stands between segments.
fn take_further(
    state: &mut Taken,
    alloc: Global,
    text: &[u8],
    place: usize,
) -> Result<usize, RouteError>
    requires inside { place < length text.now }
    requires no_blank { is_blank (slice_index text.now place) ≡ false }
    ensures taken { ReadsAsBefore (left_at_further state.old (at text.now place)) text.now state.new result }
    ensures forward { IfOk result (λ end. (place < end) × (end ≤ length text.now)) }
{
    if !begins_number(text[place]) {
        return take_between(state, alloc, text, place);
    }
    let end = word_end(text, place);
    let Some(_) = number_within(&text[place..end], -FARTHEST, FARTHEST) else {
        return Err(RouteError::Syntax { at: place });
    };
    state.part = Part::Segments(b"");
    Ok(end)
}

/// Takes the next of a row of marks and numbers, or what stands between segments where none is left.
fn take_from_row(
    state: &mut Taken,
    row: &'static [u8],
    alloc: Global,
    text: &[u8],
    place: usize,
) -> Result<usize, RouteError>
    requires inside { place < length text.now }
    requires no_blank { is_blank (slice_index text.now place) ≡ false }
    ensures taken { ReadsAsBefore (left_among row.now state.old (at text.now place)) text.now state.new result }
    ensures forward { IfOk result (λ end. (place < end) × (end ≤ length text.now)) }
{
    match row.split_first() {
        None => take_between(state, alloc, text, place),
        Some((b'#', rest)) => take_number(state, rest, text, place),
        Some((mark, rest)) => take_mark(state, *mark, rest, text, place),
    }
}

/// Takes the first mark of a segment, or the end of the block.
fn take_between(
    state: &mut Taken,
    alloc: Global,
    text: &[u8],
    place: usize,
) -> Result<usize, RouteError>
    requires inside { place < length text.now }
    requires no_blank { is_blank (slice_index text.now place) ≡ false }
    ensures taken { ReadsAsBefore (left_at_segments state.old (at text.now place)) text.now state.new result }
    ensures forward { IfOk result (λ end. (place < end) × (end ≤ length text.now)) }
{
    let byte = text[place];
    if byte == b'(' {
        state.part = Part::Segments(SEGMENT);
        return Ok(place + 1);
    }
    if byte != b'!' {
        return Err(RouteError::Syntax { at: place });
    }
    end_block(state, alloc)?;
    Ok(place + 1)
}

/// Takes a number of a segment.
fn take_number(
    state: &mut Taken,
    rest: &'static [u8],
    text: &[u8],
    place: usize,
) -> Result<usize, RouteError>
    requires inside { place < length text.now }
    requires no_blank { is_blank (slice_index text.now place) ≡ false }
    ensures taken { ReadsAsBefore (left_in_row state.old (35 ∷ rest.now) (at text.now place)) text.now state.new result }
    ensures forward { IfOk result (λ end. (place < end) × (end ≤ length text.now)) }
{
    let end = number_end(text, place);
    let Some(number) = number_within(&text[place..end], -FARTHEST, FARTHEST) else {
        return Err(RouteError::Syntax { at: place });
    };
    state.segment = with_number(state.segment, number);
    go_on(state, rest)?;
    Ok(end)
}

/// Takes a mark of a segment.
fn take_mark(
    state: &mut Taken,
    mark: u8,
    rest: &'static [u8],
    text: &[u8],
    place: usize,
) -> Result<usize, RouteError>
    requires inside { place < length text.now }
    requires no_blank { is_blank (slice_index text.now place) ≡ false }
    requires mark { (mark == 35) ≡ false }
    ensures taken { ReadsAsBefore (left_in_row state.old (mark ∷ rest.now) (at text.now place)) text.now state.new result }
    ensures forward { IfOk result (λ end. (place < end) × (end ≤ length text.now)) }
{
    if text[place] != mark {
        return Err(RouteError::Syntax { at: place });
    }
    go_on(state, rest)?;
    Ok(place + 1)
}

/// Goes on with the rest of a row; where nothing is left of it, the segment is whole.
fn go_on(state: &mut Taken, rest: &'static [u8]) -> Result<(), RouteError>
    ensures rest { IfOk result (λ _. (r : Reading) → text_left state.new r ≡ left_in_row state.old rest.now r) }
    ensures memory { IfErr result (λ e. e ≡ NoMemory) }
{
    if rest.is_empty() {
        state.segments.push(state.segment)?;
    }
    state.part = Part::Segments(rest);
    Ok(())
}

/// Ends the block, which is whole.
fn end_block(state: &mut Taken, alloc: Global) -> Result<(), RouteError>
    ensures ended { IfOk result (λ _. (r : Reading)
        → text_left state.new r ≡ left_at_name (state.old.blocks.items ++ block_of state.old ∷ []) r) }
    ensures memory { IfErr result (λ e. e ≡ NoMemory) }
{
    let name = mem::replace(&mut state.name, Vec::new(alloc));
    let segments = mem::replace(&mut state.segments, Vec::new(alloc));
    state.blocks.push(Block {
        name: Name::of(name),
        id: state.id,
        segments: Segments::of(segments),
    })?;
    state.part = Part::Name;
    Ok(())
}

/// The six numbers of a segment, with a new one behind them and without the first.
fn with_number(segment: Segment, number: i64) -> Segment
    ensures { result ≡ with_next_number segment number }
{
    Segment {
        from: Point {
            x: segment.from.y,
            y: segment.from.layer,
            layer: segment.to.x,
        },
        to: Point {
            x: segment.to.y,
            y: segment.to.layer,
            layer: number,
        },
    }
}
