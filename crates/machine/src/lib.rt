// Abstract transducers: the theory that comparing and joining filters rests on.
// Each function stands for a theorem, which its contract states.
#![tactic(auto)]

ghost use Rattle.machine.specs.Theorems.{LagsDecide, NothingMissed, PairsCompose, SearchKeeps, ShortlexOrders, SymbolsIdle, TextsCovered, TextsFit};

// Shortlex is a strict total order.
pub fn shortlex_orders_texts() -> u8
    ensures { ShortlexOrders }
{
    0
}

// What is left of two outputs decides how they can still become equal.
pub fn lags_decide() -> u8
    ensures { LagsDecide }
{
    0
}

// Texts that lead nowhere new are covered by earlier ones.
pub fn texts_are_covered() -> u8
    ensures { TextsCovered }
{
    0
}

// Two symbols of a class stand for all larger ones.
pub fn symbols_are_idle<T: Copy>() -> u8
    ensures { SymbolsIdle T }
{
    0
}

// A search that leaves out what is covered misses nothing.
pub fn nothing_is_missed() -> u8
    ensures { NothingMissed }
{
    0
}

// The invariants of such a search, from its first text to its answer.
pub fn search_keeps() -> u8
    ensures { SearchKeeps }
{
    0
}

// The texts of a search fit where they are kept.
pub fn texts_fit() -> u8
    ensures { TextsFit }
{
    0
}

// A machine over pairs of states composes two machines.
pub fn pairs_compose() -> u8
    ensures { PairsCompose }
{
    0
}
