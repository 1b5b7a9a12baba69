// The sequence of calls.
use crate::filters::Filter;

// How long the scratch is that a call is lent. The tests of a shelf have types of the same names, which they fill in other
// ways: a program takes nothing from tests.
#[derive(Clone, Copy)]
pub struct Lent {
    pub steps: usize,
    pub symbols: usize,
}

pub const PLENTY: Lent = Lent {
    steps: 100,
    symbols: 6000,
};

const NONE: Lent = Lent {
    steps: 0,
    symbols: 0,
};

// Enough for two filters of one state with outputs of 3 symbols at most, and one short in either part.
const EXACT: Lent = Lent {
    steps: 4,
    symbols: 90,
};

const FEW_STEPS: Lent = Lent {
    steps: 3,
    symbols: 90,
};

const FEW_SYMBOLS: Lent = Lent {
    steps: 4,
    symbols: 89,
};

// How long the lists for a joined filter are.
#[derive(Clone, Copy)]
pub struct Lists {
    pub states: usize,
    pub rules: usize,
    pub outputs: usize,
    pub pairs: usize,
}

const LONG: Lists = Lists {
    states: 8,
    rules: 16,
    outputs: 32,
    pairs: 8,
};

// Just long enough for `Twice` joined with itself, and one short.
const FOUR: Lists = Lists {
    states: 1,
    rules: 1,
    outputs: 4,
    pairs: 1,
};

const THREE: Lists = Lists {
    states: 1,
    rules: 1,
    outputs: 3,
    pairs: 1,
};

const NO_PAIR: Lists = Lists {
    states: 1,
    rules: 1,
    outputs: 4,
    pairs: 0,
};

#[derive(Clone, Copy)]
pub enum Text {
    Empty,
    // The symbols 10, 12 and 10.
    Three,
    // A number that is no symbol.
    Foreign,
}

#[derive(Clone, Copy)]
pub enum Call {
    File(Filter, Lent),
    Join(usize, usize, Lists, Lent),
    // The last number is the length of the witness.
    Compare(usize, usize, Lent, usize),
    // The last number is the length of the output.
    Transduce(usize, Text, usize),
    // Exchanges the first rule of the second holding for a spare one, or back.
    ExchangeRule,
    // Counts one output more or less, and the other way the next time.
    Miscount,
}

pub static TOUR: [Call; 65] = [
    Call::Compare(1, 1, PLENTY, 20),
    Call::File(Filter::Copy, NONE),
    Call::File(Filter::InParts, NONE),
    Call::File(Filter::InParts, EXACT),
    Call::File(Filter::Escape, FEW_STEPS),
    Call::File(Filter::Escape, FEW_SYMBOLS),
    Call::File(Filter::Escape, EXACT),
    Call::File(Filter::There, EXACT),
    Call::File(Filter::Back, PLENTY),
    Call::File(Filter::Closing, PLENTY),
    Call::File(Filter::Only(10), PLENTY),
    Call::File(Filter::Late, PLENTY),
    Call::File(Filter::Twice, PLENTY),
    Call::File(Filter::Stateless, PLENTY),
    Call::File(Filter::Marked, PLENTY),
    Call::File(Filter::Astray, PLENTY),
    Call::File(Filter::Backward, NONE),
    Call::File(Filter::Beyond, PLENTY),
    Call::File(Filter::Wordy, PLENTY),
    Call::File(Filter::Unfilled, PLENTY),
    Call::File(Filter::OpenEnded, PLENTY),
    Call::File(Filter::Foreign, PLENTY),
    Call::File(Filter::Stretched, PLENTY),
    Call::File(Filter::Overlapping, PLENTY),
    Call::Compare(1, 2, EXACT, 4),
    Call::Compare(2, 1, FEW_SYMBOLS, 4),
    Call::Compare(1, 2, EXACT, 3),
    Call::Compare(1, 1, EXACT, 3),
    Call::Compare(1, 1, EXACT, 4),
    Call::Compare(1, 5, PLENTY, 20),
    Call::Compare(3, 4, PLENTY, 20),
    Call::Compare(6, 2, PLENTY, 20),
    Call::Compare(0, 1, PLENTY, 20),
    Call::Compare(1, 17, PLENTY, 20),
    Call::Join(1, 2, LONG, PLENTY),
    Call::Join(2, 2, LONG, FEW_SYMBOLS),
    Call::Join(2, 2, LONG, PLENTY),
    Call::Compare(8, 2, PLENTY, 20),
    Call::Join(7, 7, THREE, PLENTY),
    Call::Join(7, 7, NO_PAIR, PLENTY),
    Call::Join(7, 7, FOUR, PLENTY),
    Call::Join(6, 5, LONG, PLENTY),
    Call::Compare(10, 6, PLENTY, 20),
    Call::Join(0, 3, LONG, PLENTY),
    Call::Join(3, 20, LONG, PLENTY),
    Call::Transduce(2, Text::Three, 6),
    Call::Transduce(2, Text::Three, 7),
    Call::Transduce(3, Text::Three, 9),
    Call::Transduce(6, Text::Three, 9),
    Call::Transduce(5, Text::Empty, 9),
    Call::Transduce(6, Text::Empty, 0),
    Call::Transduce(1, Text::Foreign, 9),
    Call::Transduce(99, Text::Three, 9),
    Call::ExchangeRule,
    Call::File(Filter::Copy, PLENTY),
    Call::Join(1, 1, LONG, PLENTY),
    Call::Transduce(1, Text::Three, 9),
    Call::ExchangeRule,
    Call::Miscount,
    Call::Compare(1, 2, PLENTY, 20),
    Call::Miscount,
    Call::Compare(1, 2, PLENTY, 20),
    Call::Join(3, 4, LONG, PLENTY),
    Call::Compare(1, 11, PLENTY, 20),
    Call::Join(4, 3, LONG, PLENTY),
];
