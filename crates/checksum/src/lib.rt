// The header's sum: the CRC that zlf/reader.rs takes from the crate crc16. It goes by closed rules of shifts and exclusive ors, eight
// bytes at a time and then byte by byte, with no table.
//
// A sum is the remainder of a division without carries by the polynomial x^16 + x^12 + x^5 + 1. The quotient's bits are those that fall
// out at the top, and each flips the bits 4, 11 and 16 places below it. So the quotient q of a register r satisfies (1 + p) q = r, where p
// is the sum of the shifts by 4, 11 and 16 places down. Now (1 + p)^16 is 1 + p^16, and p^16 leaves nothing of 64 bits; so q is (1 + p)^15 r,
// which is (1 + p) (1 + p^2) (1 + p^4) (1 + p^8) r. A square doubles the shifts: 8, 22 and 32 for p^2, 16 and 44 for p^4, 32 for p^8.
#![tactic(auto)]

ghost use Rattle.std.specs.Prelude.{◌≡◌, ◌/◌, ◌^◌};
ghost use Rattle.checksum.specs.Sum.{sum_byte, sum_from, sum_of};
ghost use Rattle.checksum.specs.Division.{octets, sum_in, times};

// A register whose sum is the start, 0x1D0F.
const START: u64 = 0xFFFF;

// The quotient by the polynomial's fourth power, x^64 + x^48 + x^20 + 1: (1 + p^4) (1 + p^8) r.
#[tactic(auto, using(crate::proofs::SumRule::fourth_divided))]
fn fourth_quotient(register: u64) -> u64
    ensures { times 4 result / 2 ^ 64 ≡ register }
{
    let a = register ^ (register >> 32);
    a ^ (a >> 16) ^ (a >> 44)
}

// The quotient by the polynomial.
#[tactic(auto, using(crate::proofs::SumRule::divided))]
fn quotient(register: u64) -> u64
    ensures { times 1 result / 2 ^ 16 ≡ register }
{
    let b = fourth_quotient(register);
    let c = b ^ (b >> 8) ^ (b >> 22) ^ (b >> 32);
    c ^ (c >> 4) ^ (c >> 11) ^ (c >> 16)
}

// The sum of a register's bytes: the lower 16 bits of its quotient times the polynomial.
#[tactic(auto, using(crate::proofs::SumRule::remains))]
fn remainder(register: u64) -> u16
    ensures { result ≡ sum_in register }
{
    let q = quotient(register);
    ((q ^ (q << 5) ^ (q << 12)) % 0x1_0000) as u16
}

// One byte of the sum, high bit first: it is added to the upper half, which falls out. Of eight bits, all that the compiler leaves of the
// quotient is top ^ (top >> 4).
#[tactic(auto, using(crate::proofs::SumRule::whole_byte))]
fn sum_byte(sum: u16, byte: u8) -> u16
    ensures { result ≡ sum_byte sum byte }
{
    let top = (sum >> 8) ^ u16::from(byte);
    (sum << 8) ^ remainder(u64::from(top))
}

// Eight bytes of the sum: the register falls out and leaves its remainder by the fourth power, to which the bytes are added.
#[tactic(auto, using(crate::proofs::SumRule::whole_word))]
fn sum_word(register: u64, word: u64) -> u64
    ensures { sum_in result ≡ sum_from (sum_in register) (octets 8 word) }
{
    let q = fourth_quotient(register);
    q ^ (q << 20) ^ (q << 48) ^ word
}

// The sum of bytes: the catalogue's CRC-16/SPI-FUJITSU, also called AUG-CCITT.
pub fn header_sum(bytes: &[u8]) -> u16
    ensures { result ≡ sum_of bytes.now }
{
    let (words, rest) = bytes.as_chunks::<8>();
    let mut register = START;
    for word in words {
        register = sum_word(register, u64::from_be_bytes(*word));
    }
    let mut sum = remainder(register);
    for byte in rest {
        sum = sum_byte(sum, *byte);
    }
    sum
}
