// How often a wake-up beam repeats: beam_count of pti/mod.rs.
#![tactic(auto)]

ghost use Rattle.std.specs.Prelude.{◌≡◌};
ghost use Rattle.beam.specs.Beam.{beam_count};

// Marker byte repeated throughout a wake-up beam.
pub const BEAM_MARKER: u8 = 0x55;

// Count how many times a beam repeats within `data`.
//
// A beam is the same short pattern sent over and over. Rather than divide the length, each candidate repetition is compared against the
// first and the scan realigns on the 0x55 marker when one does not match.
#[tactic(auto, using(crate::proofs::Beats::turns))]
pub fn beam_count(frame_length: usize, data: &[u8]) -> u16
    ensures { result ≡ beam_count frame_length «data».now }
{
    if frame_length == 0 {
        return 1;
    }
    // A truncated beam, missing its home id hash, is still one beam.
    let Some((pattern, mut rest)) = data.split_at_checked(frame_length) else {
        return 1;
    };
    let mut count: u16 = 1;
    // Where less is left than the pattern, no repeat is.
    while frame_length <= rest.len()
        && let [first, after @ ..] = rest
    {
        if *first == BEAM_MARKER && rest.starts_with(pattern) {
            count = count.saturating_add(1);
            rest = &rest[frame_length..];
        } else {
            rest = after;
        }
    }
    count
}
