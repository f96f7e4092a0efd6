// The parser belongs to the caller, and every byte updates it in its place: a thin layer over the parser by value, in the
// Rust's order.
#![tactic(auto)]

ghost use Rattle.std.specs.Prelude.{◌≡◌};
ghost use Rattle.zniffer.specs.Parse.{fresh_parser, step_of, run_from};

use zniffer::{Answer, Parser, Used, fresh, run, step};

// Several bytes.
pub fn parse_bytes(p: &mut Parser, input: &[u8]) -> Used
    ensures { (p.new ≡ (run_from 0 input.now p.old).parser) × (result ≡ (run_from 0 input.now p.old).out) }
{
    let t = run(*p, input);
    *p = t.parser;
    t.out
}

// One byte.
pub fn parse(p: &mut Parser, value: u8) -> Answer
    ensures { (p.new ≡ (step_of p.old value).parser) × (result ≡ (step_of p.old value).answer) }
{
    let s = step(*p, value);
    *p = s.parser;
    s.answer
}

// The parser is made fresh.
pub fn timeout(p: &mut Parser)
    ensures { p.new ≡ fresh_parser }
{
    *p = fresh();
}

// Several bytes, from a fresh parser of its own, which it lends: whoever calls it lends nothing.
pub fn parse_all(input: &[u8]) -> Used
    ensures { result ≡ (run_from 0 input.now fresh_parser).out }
{
    let mut p = fresh();
    parse_bytes(&mut p, input)
}
