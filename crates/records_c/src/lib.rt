// The entry over record files for C: librecords.a.
#![tactic(auto)]

ghost use Rattle.std.specs.Prelude.{◌≡◌, length};
ghost use Rattle.definitions.specs.Rules.{refusal};
ghost use Rattle.definitions.specs.Records.{entry_rules, entry_output};

// 0, or the number of the first rule that the call breaks.
#[unsafe(no_mangle)]
pub extern "C" fn pairstat_curve(points: &[u8], edges: &[u8], output: &mut [u8]) -> u32
    ensures value { result ≡ refusal (entry_rules points.now edges.now (length output.old)) }
    ensures output_after { output.new ≡ entry_output points.now edges.now output.old }
{
    refusals::number_of(records::pairstat_curve(points, edges, output))
}
