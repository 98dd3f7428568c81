// What the numbers of a flat call stand for, and answers as words.
#![tactic(auto)]

ghost use Rattle.std.specs.Prelude.{◌≡◌, [], ◌∷◌, length};
ghost use Rattle.std.specs.Result.{result_ok};
ghost use Rattle.refusals.specs.Numbers.{refusal_number, number_of};
ghost use Rattle.reducer.specs.Readings.{edges_of, kind_of};
ghost use Rattle.capi_words.specs.Words.{edges_from, kind_from, op_from, stride_from, state_kind_from, written, words_number, lookup_words, segment_words};

use reducer::{Edges, Kind, PairOperation, RegularEdges};
use refusals::Refusal;
use state_refusals::StateKind;

// ---- what the numbers stand for; they are the C interface

#[tactic(auto, unfolding(crate::specs::Words::edges_from))]
pub fn edges_from<'a>(
    irregular: u64,
    min: f64,
    max: f64,
    n_bins: usize,
    list: &'a [f64],
) -> Edges<'a>
    ensures { edges_of result ≡ edges_from irregular min max n_bins list.entry.now }
{
    if irregular == 0 {
        Edges::Regular(RegularEdges { min, max, n_bins })
    } else {
        Edges::Irregular(list)
    }
}

#[tactic(auto, unfolding(crate::specs::Words::kind_from))]
pub fn kind_from<'a>(form: u64, edges: Edges<'a>) -> Kind<'a>
    ensures { kind_of result ≡ kind_from form (edges_of edges.entry) }
{
    match form {
        0 => Kind::Comp0Mean,
        1 => Kind::ComponentSumMean,
        _ => Kind::ComponentSumHistogram(edges),
    }
}

#[tactic(auto, unfolding(crate::specs::Words::op_from))]
pub fn op_from(subtract: u64) -> PairOperation
    ensures { result ≡ op_from subtract }
{
    if subtract == 0 {
        PairOperation::ElementwiseMultiply
    } else {
        PairOperation::ElementwiseSub
    }
}

#[tactic(auto, unfolding(crate::specs::Words::stride_from))]
pub fn stride_from(stated: u64, stride: usize) -> Option<usize>
    ensures { result ≡ stride_from stated stride }
{
    if stated == 0 { None } else { Some(stride) }
}

#[tactic(auto, unfolding(crate::specs::Words::state_kind_from))]
pub fn state_kind_from(histogram: u64, n_bins: usize) -> StateKind
    ensures { result ≡ state_kind_from histogram n_bins }
{
    if histogram == 0 {
        StateKind::Mean
    } else {
        StateKind::Histogram(n_bins)
    }
}

// ---- answers

fn refused(refusal: Refusal) -> [u64; 3]
    ensures { result ≡ refusal_number refusal ∷ 0 ∷ 0 ∷ [] }
{
    [u64::from(u32::from(refusal)), 0, 0]
}

// The number, whether there is a bin, and the bin.
pub fn lookup_words(answer: Result<Option<usize>, Refusal>) -> [u64; 3]
    ensures { result ≡ lookup_words (number_of answer) (result_ok answer) }
{
    match answer {
        Ok(Some(i)) => [0, 1, i as u64],
        Ok(None) => [0, 0, 0],
        Err(refusal) => refused(refusal),
    }
}

// The number, and the bounds.
pub fn segment_words(answer: Result<(usize, usize), Refusal>) -> [u64; 3]
    ensures { result ≡ segment_words (number_of answer) (result_ok answer) }
{
    match answer {
        Ok((start, stop)) => [0, start as u64, stop as u64],
        Err(why) => refused(why),
    }
}

// Writes the words in front, where there is room for them. One by one: copied as one part, they wait for what was just stored, some 5 ns.
#[tactic(auto, using(crate::proofs::Numbers::three_stored), unfolding(crate::specs::Words::written, crate::specs::Words::words_number))]
fn write_words(words: &[u64; 3], out: &mut [u64]) -> Result<(), Refusal>
    ensures number { number_of result ≡ words_number 0 (length out.old) }
    ensures out_after { out.new ≡ written words.now out.old }
{
    if out.len() < words.len() {
        return Err(Refusal::PackShape);
    }
    out[0] = words[0];
    out[1] = words[1];
    out[2] = words[2];
    Ok(())
}

// Writes a lookup's words, and gives the call's number: its own refusal's, before that of too short a slice.
#[tactic(auto, using(crate::proofs::Numbers::number_of_and))]
pub fn write_lookup(answer: Result<Option<usize>, Refusal>, out: &mut [u64]) -> u32
    ensures number { result ≡ words_number (number_of answer) (length out.old) }
    ensures out_after { out.new ≡ written (lookup_words (number_of answer) (result_ok answer)) out.old }
{
    let written = write_words(&lookup_words(answer), out);
    refusals::number_of(answer.and(written))
}

// Writes a segment's words, and gives the call's number, as a lookup does.
#[tactic(auto, using(crate::proofs::Numbers::number_of_and))]
pub fn write_segment(answer: Result<(usize, usize), Refusal>, out: &mut [u64]) -> u32
    ensures number { result ≡ words_number (number_of answer) (length out.old) }
    ensures out_after { out.new ≡ written (segment_words (number_of answer) (result_ok answer)) out.old }
{
    let written = write_words(&segment_words(answer), out);
    refusals::number_of(answer.and(written))
}
