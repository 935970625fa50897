// Answer lines, put into a lent buffer.
#![tactic(auto, using(crate::proofs::Laying::pieces_append), unfolding(crate::specs::Laying::spaced))]

ghost use Rattle.std.specs.Prelude.{◌≡◌, ℕ, [], ◌∷◌, ◌++◌, take};
ghost use Rattle.text.specs.Numbers.{spelled};
ghost use Rattle.text.specs.Bytes.{collected_in};
ghost use Rattle.clocks.specs.Refusals.{number_of, number_in};
ghost use Rattle.graph.specs.Cuts.{found_by};
ghost use Rattle.graph.specs.Whole.{count_in};
ghost use Rattle.listing.specs.Laying.{with_pieces, spaced, newline, line_of};
ghost use Rattle.listing.specs.Answers.{number_line, none_line, greatest_answer, check_answer, advance_told, count_answer};

use clocks::causal_frontier::CausalFrontier;
use clocks::refusal::Refusal;
use clocks::vector::DESKS;
use graph::advance::Advanced;
use numbers::wide;
use text::buffer::Buffer;

// A number after a space.
pub(super) fn spaced_decimal(out: &mut Buffer, n: usize)
    ensures written { collected_in out.new ≡ with_pieces (collected_in out.old) (spaced (n ∷ [])) }
    ensures same_reference { out.new.bytes.ghost_name ≡ out.old.bytes.ghost_name }
{
    out.put(b" ");
    out.put_number(wide(n));
}

// Numbers, each after a space.
fn spaced_decimals(out: &mut Buffer, list: &[usize])
    ensures written { collected_in out.new ≡ with_pieces (collected_in out.old) (spaced list.now) }
    ensures same_reference { out.new.bytes.ghost_name ≡ out.old.bytes.ghost_name }
{
    for n in list {
        spaced_decimal(out, *n);
    }
}

// The numbers behind a line's first piece, and its end.
pub(super) fn line_rest(out: &mut Buffer, list: &[usize])
    ensures written { collected_in out.new ≡ with_pieces (collected_in out.old) (spaced list.now ++ (newline ∷ [])) }
    ensures same_reference { out.new.bytes.ghost_name ≡ out.old.bytes.ghost_name }
{
    spaced_decimals(out, list);
    out.put(b"\n");
}

// A line of numbers.
pub fn decimal_line(out: &mut Buffer, first: usize, list: &[usize])
    ensures written { collected_in out.new ≡ with_pieces (collected_in out.old) (line_of (spelled first) list.now) }
    ensures same_reference { out.new.bytes.ghost_name ≡ out.old.bytes.ghost_name }
{
    out.put_number(wide(first));
    line_rest(out, list);
}

// A line of a word and numbers.
pub fn word_line(out: &mut Buffer, word: &[u8], list: &[usize])
    ensures written { collected_in out.new ≡ with_pieces (collected_in out.old) (line_of word.now list.now) }
    ensures same_reference { out.new.bytes.ghost_name ≡ out.old.bytes.ghost_name }
{
    out.put(word);
    line_rest(out, list);
}

// The number alone.
pub fn number_line(out: &mut Buffer, number: usize)
    ensures written { collected_in out.new ≡ with_pieces (collected_in out.old) (number_line number) }
    ensures same_reference { out.new.bytes.ghost_name ≡ out.old.bytes.ghost_name }
{
    decimal_line(out, number, &[]);
}

// A refusal's number.
pub(super) fn refusal_line(out: &mut Buffer, refusal: Refusal)
    ensures written { collected_in out.new ≡ with_pieces (collected_in out.old) (number_line (number_of refusal)) }
    ensures same_reference { out.new.bytes.ghost_name ≡ out.old.bytes.ghost_name }
{
    number_line(out, usize::from(refusal));
}

// 0 and a dash.
fn none_line(out: &mut Buffer)
    ensures written { collected_in out.new ≡ with_pieces (collected_in out.old) none_line }
    ensures same_reference { out.new.bytes.ghost_name ≡ out.old.bytes.ghost_name }
{
    out.put_number(0);
    out.put(b" ");
    out.put(b"-");
    out.put(b"\n");
}

// 0, a frontier's entries and what stands behind them.
fn frontier_line(out: &mut Buffer, f: CausalFrontier, behind: &[usize])
    ensures written { collected_in out.new ≡ with_pieces (collected_in out.old) (line_of (spelled 0) (take f.len f.entries ++ behind.now)) }
    ensures same_reference { out.new.bytes.ghost_name ≡ out.old.bytes.ghost_name }
{
    let entries = f.entries();
    out.put_number(0);
    spaced_decimals(out, &entries[..f.len().min(DESKS)]);
    line_rest(out, behind);
}

// What `greatest` found.
#[tactic(auto, using(crate::proofs::Laying::nothing_behind), unfolding(crate::specs::Answers::greatest_answer))]
pub fn greatest_answer(out: &mut Buffer, found: Result<Option<CausalFrontier>, Refusal>)
    ensures written { (r : ℕ) → collected_in out.new ≡ with_pieces (collected_in out.old) (greatest_answer (found_by r found)) }
    ensures same_reference { out.new.bytes.ghost_name ≡ out.old.bytes.ghost_name }
{
    match found {
        Ok(Some(f)) => frontier_line(out, f, &[]),
        Ok(None) => none_line(out),
        Err(refusal) => refusal_line(out, refusal),
    }
}

// What `advance` found, and how many went.
#[tactic(auto, unfolding(crate::specs::Answers::advance_answer))]
pub fn advance_answer(out: &mut Buffer, moved: Result<Option<Advanced>, Refusal>)
    ensures written { (r : ℕ) → collected_in out.new ≡ with_pieces (collected_in out.old) (advance_told r moved) }
    ensures same_reference { out.new.bytes.ghost_name ≡ out.old.bytes.ghost_name }
{
    match moved {
        Ok(Some(a)) => frontier_line(out, a.frontier, &[a.count]),
        Ok(None) => none_line(out),
        Err(refusal) => refusal_line(out, refusal),
    }
}

// What `remove` removed.
#[tactic(auto, unfolding(crate::specs::Answers::count_answer))]
pub fn count_answer(out: &mut Buffer, removed: Result<usize, Refusal>)
    ensures written { collected_in out.new ≡ with_pieces (collected_in out.old) (count_answer (number_in removed) (count_in removed)) }
    ensures same_reference { out.new.bytes.ghost_name ≡ out.old.bytes.ghost_name }
{
    match removed {
        Ok(count) => decimal_line(out, 0, &[count]),
        Err(refusal) => refusal_line(out, refusal),
    }
}

// What `check` said.
pub fn check_answer(out: &mut Buffer, told: Result<bool, Refusal>)
    ensures written { collected_in out.new ≡ with_pieces (collected_in out.old) (check_answer told) }
    ensures same_reference { out.new.bytes.ghost_name ≡ out.old.bytes.ghost_name }
{
    match told {
        Ok(is_critical) => decimal_line(out, 0, &[usize::from(is_critical)]),
        Err(refusal) => refusal_line(out, refusal),
    }
}
