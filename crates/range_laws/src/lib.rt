// Ranges of symbols: the guards and terms of bytes and code points, what they mean, and that they form an alphabet.
#![tactic(auto)]

ghost use Rattle.std.specs.Prelude.{◌≤◌};
ghost use Rattle.alphabet.specs.Laws.{Lawful};
ghost use Rattle.range_laws.specs.Ranges.{ranges, clamped};

// A guard: all symbols from the low one to the high one, both included.
#[derive(Clone, Copy, Debug, PartialEq)]
pub struct Range {
    pub low: u32,
    pub high: u32,
}

// A term: one symbol everywhere, or the symbol read plus a number, where the sum is a symbol.
#[derive(Clone, Copy, Debug, PartialEq)]
pub enum RangeTerm {
    Constant(u32),
    Shift(i32),
}

// Ranges form an alphabet at every size.
pub fn ranges_are_lawful(size: u32) -> u8
    ensures { Lawful (ranges (clamped size)) }
{
    0
}
