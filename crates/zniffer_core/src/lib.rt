// The parser's numbers alone, from any numbers: a step, and a run over several bytes. Whoever needs no payload, or finds it in the
// bytes that were given, runs these. Carried over from `zniffer_parser.rs`.
#![tactic(auto)]

ghost use Rattle.std.specs.Prelude.{◌≡◌, true, ◌+◌, ◌≤◌, ◌<◌, length, drop};
ghost use Rattle.zniffer_tests.specs.Tests.{reachable_of};
ghost use Rattle.zniffer_numbers.specs.Numbers.{fresh_core};
ghost use Rattle.zniffer_core.specs.Run.{core_step_of, core_run_from};

use zniffer_numbers::{Core, CoreStep, ParserResult, fresh_core, goes_on};
use zniffer_starts::{header_of, idle_bytes};
use zniffer_states::{take_byte, whole_of};
use zniffer_tests::reachable;

// What several bytes leave and give, and how many of them were used.
#[derive(Clone, Copy, Debug, PartialEq, Eq)]
pub struct CoreRan {
    pub core: Core,
    pub result: ParserResult,
    pub used: usize,
}

// One byte, at any numbers.
#[tactic(auto, using(crate::proofs::RunLaws::took, crate::proofs::RunLaws::refuses))]
pub fn core_step(c: Core, value: u8) -> CoreStep
    ensures { result ≡ core_step_of c value }
{
    if reachable(c) {
        take_byte(c, value)
    } else {
        CoreStep {
            core: fresh_core(),
            result: ParserResult::InvalidFrame,
        }
    }
}

// Numbers that some bytes were passed over with, and the place after these.
#[derive(Clone, Copy, Debug, PartialEq, Eq)]
struct Ahead {
    pub core: Core,
    pub at: usize,
}

// Bytes that an idle parser ignores change nothing, and a payload's but the last the count alone: those from a place on are passed
// over at once.
fn skip_ahead(c: Core, s: &[u8], at: usize) -> Ahead
    requires { (reachable_of c ≡ true) × (at ≤ length s.now) }
    ensures { (result.at ≤ length s.now) × (at ≤ result.at) × (reachable_of result.core ≡ true)
        × (core_run_from at (drop at s.now) c ≡ core_run_from result.at (drop result.at s.now) result.core) }
{
    match c.state {
        0 => Ahead {
            core: c,
            at: at + idle_bytes(&s[at..]),
        },
        3 => {
            let by = usize::from(c.length - c.count - 1).min(s.len() - at);
            Ahead {
                core: Core {
                    count: c.count + by as u8,
                    ..c
                },
                at: at + by,
            }
        }
        _ => Ahead { core: c, at },
    }
}

// Several bytes, up to the first result that wants no more. What a byte leaves passes the test, so it is not made again
// at each byte.
fn run_reached(c: Core, s: &[u8]) -> CoreRan
    requires { reachable_of c ≡ true }
    ensures { result ≡ core_run_from 0 s.now c }
{
    let mut q = c;
    let mut used = 0;
    loop {
        let ahead = skip_ahead(q, s, used);
        let Some(value) = s.get(ahead.at) else {
            return CoreRan {
                core: ahead.core,
                result: ParserResult::IncompleteFrame,
                used: ahead.at,
            };
        };
        let t = take_byte(ahead.core, *value);
        used = ahead.at + 1;
        if !goes_on(t.result) {
            return CoreRan {
                core: t.core,
                result: t.result,
                used,
            };
        }
        q = t.core;
    }
}

// Several bytes, from a fresh parser's numbers. A command or a frame that lies whole at their start, as nearly all do, is answered at
// once.
pub fn run_fresh(s: &[u8]) -> CoreRan
    ensures { result ≡ core_run_from 0 s.now fresh_core }
{
    let h = header_of(s);
    let used = h.size + usize::from(h.core.length);
    if h.size == 0 || used > s.len() {
        return run_reached(fresh_core(), s);
    }
    CoreRan {
        core: fresh_core(),
        result: whole_of(h.core),
        used,
    }
}

// Several bytes, from any numbers.
pub fn run_core(c: Core, s: &[u8]) -> CoreRan
    ensures { result ≡ core_run_from 0 s.now c }
{
    if reachable(c) {
        if c.state == 0 {
            run_fresh(s)
        } else {
            run_reached(c, s)
        }
    } else if s.is_empty() {
        CoreRan {
            core: c,
            result: ParserResult::IncompleteFrame,
            used: 0,
        }
    } else {
        CoreRan {
            core: fresh_core(),
            result: ParserResult::InvalidFrame,
            used: 1,
        }
    }
}
