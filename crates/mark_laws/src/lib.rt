// Shelf marks: the guards and terms of the 37 marks, what they mean, and that they form an alphabet.
#![tactic(auto)]

ghost use Rattle.alphabet.specs.Laws.{Lawful};
ghost use Rattle.mark_laws.specs.Marks.{marks};
ghost use Rattle.mark_laws.specs.Sets.{Canonical, ConstantNarrows};

// A guard: a set of marks, where bit v stands for mark v.
#[derive(Clone, Copy, Debug, PartialEq)]
pub struct MarkSet {
    pub bits: u64,
}

// A term: one mark everywhere, or the mark read times a factor plus an offset, modulo 37.
#[derive(Clone, Copy, Debug, PartialEq)]
pub enum MarkTerm {
    Constant(u32),
    Turn { factor: u32, offset: u32 },
}

// Marks form an alphabet.
pub fn marks_are_lawful() -> u8
    ensures { Lawful marks }
{
    0
}

// A set of marks has one guard only, and a constant narrows a guard to itself or to nothing.
pub fn sets_are_canonical() -> u8
    ensures canonical { Canonical }
    ensures constant { ConstantNarrows }
{
    0
}
