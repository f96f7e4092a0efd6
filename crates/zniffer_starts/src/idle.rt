// Bytes that an idle parser ignores: all but those that start a command or a frame.
ghost use Rattle.std.specs.Prelude.{◌≡◌, ◌+◌, ◌/◌, ◌≤◌, length, drop, position};
ghost use Rattle.std.specs.List.{prefix_len};
ghost use Rattle.std.specs.Simd.{first_chunks};
ghost use Rattle.zniffer_starts.specs.Idle.{starts, all_quiet, idle_of};

// How many bytes are looked at together: the loop over so many becomes vector instructions.
const BLOCK: usize = 32;

// Kept: by matches! a block of 32 bytes takes 20 instructions, and 17 so.
fn starts_any(b: u8) -> bool
    ensures { result ≡ starts b }
{
    (b == 0x23) | (b == 0x21)
}

// Whether no byte of a block starts anything.
fn is_quiet(block: &[u8; BLOCK]) -> bool
    ensures { result ≡ all_quiet block.now }
{
    block.iter().fold(true, |quiet, b| quiet & !starts_any(*b))
}

// How many quiet blocks are at the start.
fn quiet_blocks(s: &[u8]) -> usize
    ensures { result ≡ prefix_len all_quiet (first_chunks 32 (length s.now / 32) s.now) }
{
    let (blocks, _) = s.as_chunks::<BLOCK>();
    blocks.iter().take_while(|block| is_quiet(block)).count()
}

// The place after them.
fn past_quiet(s: &[u8]) -> usize
    ensures { (result ≤ length s.now) × (idle_of s.now ≡ result + idle_of (drop result s.now)) }
{
    quiet_blocks(s) * BLOCK
}

// The place of the first byte that starts something.
fn first_start(s: &[u8]) -> Option<usize>
    ensures { result ≡ position starts s.now }
{
    s.iter().position(|b| starts_any(*b))
}

// How many bytes at the start are ignored: the place of the first that starts something, or all.
pub fn idle_bytes(s: &[u8]) -> usize
    ensures { result ≡ idle_of s.now }
{
    let at = past_quiet(s);
    let rest = &s[at..];
    at + first_start(rest).unwrap_or(rest.len())
}
