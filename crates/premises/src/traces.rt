// The example traces, put into a lent buffer: each function is proved to put exactly the bytes of its definition, of which the theorems are
// (plain_examples/specs/Traces.antt).
ghost use Rattle.std.specs.Prelude.{◌≡◌};
ghost use Rattle.text.specs.Put.{Puts};
ghost use Rattle.plain_examples.specs.Traces.{zeros, header, second, head, blank, tail, falling, nested, distant, large};

use text::Out;

// Half past eight on 1 May 2024, as .NET stores it in UTC.
const START: u64 = 5_250_187_508_427_387_904;

// So many seconds later.
fn second(n: u8) -> u64
    ensures { result ≡ second n }
{
    START + u64::from(n) * 10_000_000
}

fn put_zeros(out: &mut Out, n: usize)
    ensures { Puts (zeros n) out.old out.new }
{
    for _ in 0..n {
        out.put_byte(0);
    }
}

// Version 104, and zeros.
fn put_header(out: &mut Out)
    ensures { Puts header out.old out.new }
{
    out.put_text(&104u32.to_le_bytes());
    put_zeros(out, 2044);
}

// What stands before a record's payload: ticks, properties, length.
fn put_head(out: &mut Out, ticks: u64, size: u32)
    ensures { Puts (head ticks size) out.old out.new }
{
    out.put_text(&ticks.to_le_bytes());
    out.put_byte(0);
    out.put_text(&size.to_le_bytes());
}

// A record whose payload is zeros.
fn put_blank(out: &mut Out, ticks: u64, size: u32)
    ensures { Puts (blank ticks size) out.old out.new }
{
    put_head(out, ticks, size);
    put_zeros(out, size as usize);
    out.put_byte(0xFE);
}

// Three records, and one byte more.
pub fn put_tail(out: &mut Out)
    ensures { Puts tail out.old out.new }
{
    put_header(out);
    put_blank(out, second(0), 1);
    put_blank(out, second(1), 1);
    put_blank(out, second(2), 1);
    out.put_byte(0);
}

// Two records, the second earlier.
pub fn put_falling(out: &mut Out)
    ensures { Puts falling out.old out.new }
{
    put_header(out);
    put_blank(out, second(1), 40001);
    put_blank(out, second(0), 40001);
}

// One record; in its payload another begins that is earlier and ends where it ends.
pub fn put_nested(out: &mut Out)
    ensures { Puts nested out.old out.new }
{
    put_header(out);
    put_head(out, second(1), 80016);
    put_zeros(out, 40002);
    put_blank(out, second(0), 40001);
}

// Two records past the first window.
pub fn put_distant(out: &mut Out)
    ensures { Puts distant out.old out.new }
{
    put_header(out);
    put_zeros(out, 1048576);
    put_blank(out, second(0), 1);
    put_blank(out, second(1), 1);
}

// Three records of the largest size.
pub fn put_large(out: &mut Out)
    ensures { Puts large out.old out.new }
{
    put_header(out);
    put_blank(out, second(0), 1048576);
    put_blank(out, second(1), 1048576);
    put_blank(out, second(2), 1048576);
}
