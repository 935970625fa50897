// The answer to `why L`. Document 02, P3.
#![tactic(auto, using(crate::proofs::Laying::pieces_append), unfolding(crate::specs::Laying::spaced))]

ghost use Rattle.std.specs.Prelude.{◌≡◌, []};
ghost use Rattle.text.specs.Bytes.{collected_in};
ghost use Rattle.graph.specs.Whole.{whole};
ghost use Rattle.graph.specs.Whys.{chain_of};
ghost use Rattle.listing.specs.Laying.{with_pieces};
ghost use Rattle.listing.specs.Whys.{cut_line, found_fields, pair_line, numbers_line, lacks_answer, why_answer};

use crate::answer::{decimal_line, refusal_line};
use crate::sheet::id_fields;
use clocks::tagged_op::TaggedOp;
use graph::{EventGraph, Pasts, Slots};
use positions::NodeIndex;
use text::buffer::Buffer;

// 0 and the word.
#[tactic(auto, unfolding(crate::specs::Words::bytes))]
fn cut_line(out: &mut Buffer)
    ensures written { collected_in out.new ≡ with_pieces (collected_in out.old) cut_line }
    ensures same_reference { out.new.bytes.ghost_name ≡ out.old.bytes.ghost_name }
{
    out.put_number(0);
    out.put(b" ");
    out.put(b"cut");
    out.put(b"\n");
}

// The id fields of a position where an event is held.
fn found_fields(out: &mut Buffer, found: Option<TaggedOp>)
    ensures written { collected_in out.new ≡ with_pieces (collected_in out.old) (found_fields found) }
    ensures same_reference { out.new.bytes.ghost_name ≡ out.old.bytes.ghost_name }
{
    if let Some(e) = found {
        id_fields(out, e.id());
    }
}

// 0 and six fields, the later id first.
fn pair_line(out: &mut Buffer, later: Option<TaggedOp>, earlier: Option<TaggedOp>)
    ensures written { collected_in out.new ≡ with_pieces (collected_in out.old) (pair_line later earlier) }
    ensures same_reference { out.new.bytes.ghost_name ≡ out.old.bytes.ghost_name }
{
    out.put_number(0);
    out.put(b" ");
    found_fields(out, later);
    out.put(b" ");
    found_fields(out, earlier);
    out.put(b"\n");
}

// Numbers with a space between.
fn numbers_line(out: &mut Buffer, list: &[usize])
    ensures written { collected_in out.new ≡ with_pieces (collected_in out.old) (numbers_line list.now) }
    ensures same_reference { out.new.bytes.ghost_name ≡ out.old.bytes.ghost_name }
{
    match list {
        [] => out.put(b"\n"),
        [first, rest @ ..] => decimal_line(out, *first, rest),
    }
}

// The chain's positions from one downward; a list of 256 has always room.
fn chain_line(out: &mut Buffer, g: &EventGraph, i: NodeIndex, pasts: &Pasts)
    ensures written { collected_in out.new ≡ with_pieces (collected_in out.old) (numbers_line (chain_of (whole g.now [] pasts.now) i.0)) }
    ensures same_reference { out.new.bytes.ghost_name ≡ out.old.bytes.ghost_name }
{
    let mut list = [0usize; 256];
    let n = g.chain(i, pasts, &mut list).unwrap_or(0);
    numbers_line(out, &list[..n]);
}

// The two ids, and the chain from the later position.
fn lacks_answer<'a>(
    out: &mut Buffer,
    g: &EventGraph,
    later: NodeIndex,
    earlier: NodeIndex,
    slots: &'a Slots,
    pasts: &'a Pasts,
)
    ensures written { collected_in out.new ≡ with_pieces (collected_in out.old) (lacks_answer (whole g.now slots.now pasts.now) later.0 earlier.0) }
    ensures same_reference { out.new.bytes.ghost_name ≡ out.old.bytes.ghost_name }
{
    pair_line(out, g.event_at(later, slots), g.event_at(earlier, slots));
    chain_line(out, g, later, pasts);
}

// Why a length is no cut.
pub fn why_answer<'a>(
    out: &mut Buffer,
    g: &EventGraph,
    length: usize,
    slots: &'a Slots,
    pasts: &'a Pasts,
)
    ensures written { collected_in out.new ≡ with_pieces (collected_in out.old) (why_answer (whole g.now slots.now pasts.now) length) }
    ensures same_reference { out.new.bytes.ghost_name ≡ out.old.bytes.ghost_name }
{
    match g.why(length, pasts) {
        Ok(None) => cut_line(out),
        Ok(Some(lack)) => lacks_answer(out, g, lack.later, lack.earlier, slots, pasts),
        Err(refusal) => refusal_line(out, refusal),
    }
}
