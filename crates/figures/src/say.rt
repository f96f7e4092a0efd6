// What is said in more than one place: fields with a space before each.
use crate::made;
use layout::Refusal;
use std::io;
use text::Out;

// A number, or that nothing was found.
pub fn found(rt: &impl Print, n: Option<usize>) -> io::Result<()> {
    match n {
        Some(n) => print!(rt; " {n}"),
        None => print!(rt; " none"),
    }
}

pub fn whether(rt: &impl Print, yes: bool) -> io::Result<()> {
    print!(rt; "{}", if yes { " yes" } else { " no" })
}

// A refusal, by its number.
pub fn refused(rt: &impl Print, refusal: impl Refusal) -> io::Result<()> {
    print!(rt; " R {}", refusal.number())
}

// Bytes in hexadecimal, or - where there is none. They go in one write; a payload has no more than 255.
pub fn hex(rt: &impl Print, bytes: &[u8]) -> io::Result<()> {
    let mut digits = [0u8; 511];
    let mut out = Out {
        bytes: &mut digits,
        at: 0,
    };
    out.put_byte(b' ');
    if bytes.is_empty() {
        out.put_byte(b'-');
    } else {
        out.put_hex(bytes);
    }
    let len = out.at;
    rt.write_all(made::part(&digits, len))
}
