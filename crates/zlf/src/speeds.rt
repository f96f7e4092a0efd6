// The wall chart of speeds: a line for each region, whose numbers are what `speed::speed_for` gives.
ghost use Rattle.text.specs.Put.{Puts};
ghost use Rattle.zlf.specs.Chart.{region_line, lines_below};

use crate::out::Lines;
use text::Out;

// How many regions the chart has.
const REGIONS: u8 = 32;

// The line for a region.
fn put_region(out: &mut Out, region: u8, plain: bool)
    ensures { Puts (region_line plain region) out.old out.new }
{
    if plain {
        fields::chart_fields(out, region);
    } else {
        show::chart_line(out, region);
    }
}

// The lines for all of them, from 0 on.
fn put_regions(out: &mut Out, plain: bool)
    ensures { Puts (lines_below plain 32) out.old out.new }
{
    for region in 0..REGIONS {
        put_region(out, region, plain);
    }
}

// The chart.
pub fn speeds(rt: &HostRuntime, plain: bool) -> u8 {
    let mut room = io::buffer();
    let out = Out {
        bytes: &mut room,
        at: 0,
    };
    let mut lines = Lines { rt, out, plain };
    lines.put_heading(b"region  name      ch 0  ch 1  ch 2  ch 3\n");
    put_regions(&mut lines.out, plain);
    lines.put_heading(
        b"9.6k is also the answer where the wall chart is empty, and for every other region and channel\n",
    );
    lines.finish(0)
}
