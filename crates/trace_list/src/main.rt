// The program trace-list: the list of the trace on standard input, after its kinds and its version. One byte more than the longest
// input is read, to tell an input that is too long.
#![tactic(auto)]

ghost use Rattle.std.specs.Prelude.{◌≡◌, take};
ghost use Rattle.io.specs.Counts.{IsPrefixLen};
ghost use Rattle.listing.specs.Listing.{list_text};

use std::process::ExitCode;

// The list of an input, whole: the buffer holds every list.
fn listed(input: &[u8], out: &mut [u8; 131072]) -> usize
    ensures out_after { take result out.new ≡ list_text input.now }
    ensures prefix_len { IsPrefixLen result out.new }
{
    listing::list(input, out)
}

fn run(rt: &(impl Input + Print)) -> std::io::Result<()> {
    let mut input = [0u8; 8193];
    let n = streams::read_full(&mut rt.reader(), &mut input);
    let mut out = [0u8; 131072];
    let m = listed(&input[..n], &mut out);
    rt.write_all(&out[..m])
}

fn main(rt: HostRuntime) -> std::io::Result<ExitCode> {
    streams::ended(run(&rt))
}
