// Index arithmetic.
#![tactic(auto)]

ghost use Rattle.std.specs.Prelude.{◌≡◌, ◌<◌, ◌≤◌};
ghost use Rattle.std.specs.Result.{result_ok};
ghost use Rattle.definitions.specs.Rules.{refusal, if_accepted, segment_rules};
ghost use Rattle.definitions.specs.Segments.{segment_start, segment_stop};
ghost use Rattle.refusals.specs.Numbers.{number_of};

use refusals::Refusal;

// The bounds of one of n_segments segments of n_indices indices: the sizes differ by at most one, and the longer segments come first.
#[tactic(auto, unfolding(definitions::specs::Segments::segment_start))]
pub fn segment_idx_bounds(
    n_indices: usize,
    seg_index: usize,
    n_segments: usize,
) -> Result<(usize, usize), Refusal>
    ensures number { number_of result ≡ refusal (segment_rules seg_index n_segments) }
    ensures bounds { result_ok result ≡ if_accepted (segment_rules seg_index n_segments)
        (Some (segment_start n_indices n_segments seg_index, segment_stop n_indices n_segments seg_index)) None }
{
    if seg_index < n_segments {
        let start = segment_start(n_indices, n_segments, seg_index);
        let stop = segment_start(n_indices, n_segments, seg_index + 1);
        return Ok((start, stop));
    }
    Err(Refusal::SegmentIndex)
}

// Where segment i of k starts: after i quotients, and one index more for each longer segment before it. For i = k it is the end.
#[tactic(auto, using(crate::proofs::Segments::start_closed, crate::proofs::Segments::start_within))]
fn segment_start(n: usize, k: usize, i: usize) -> usize
    requires { (0 < k) × (i ≤ k) }
    ensures { result ≡ segment_start n k i }
{
    i * (n / k) + i.min(n % k)
}
