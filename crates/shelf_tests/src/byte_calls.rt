// Calls on a shelf of bytes, with plenty of scratch where none is given.
use crate::calls::{LONG, Lent, Lists, PLENTY, compare_on, file_on, join_on, transduce_on};
use crate::memory::WIDE;
use crate::samples::{ByteMemory, byte_shelf};
use answers::Fault;
use filter::Outcome;
use ranges::Bytes;
use std::alloc::Global;
use std::process::Abort;
use std::test::Fail;
use table::Draft;

pub fn file(
    rt: &impl Abort,
    heap: Global,
    memory: &mut ByteMemory,
    draft: &Draft<'_, Bytes>,
) -> Result<Result<usize, Fault>, Fail> {
    file_on::<Bytes>(rt, heap, memory, draft, PLENTY)
}

pub fn file_with(
    rt: &impl Abort,
    heap: Global,
    memory: &mut ByteMemory,
    draft: &Draft<'_, Bytes>,
    steps: usize,
    symbols: usize,
) -> Result<Result<usize, Fault>, Fail> {
    file_on::<Bytes>(rt, heap, memory, draft, Lent { steps, symbols })
}

pub fn join(
    rt: &impl Abort,
    heap: Global,
    memory: &mut ByteMemory,
    first: usize,
    second: usize,
) -> Result<Result<usize, Fault>, Fail> {
    join_on::<Bytes>(rt, heap, memory, first, second, LONG, PLENTY)
}

pub fn join_with(
    rt: &impl Abort,
    heap: Global,
    memory: &mut ByteMemory,
    first: usize,
    second: usize,
    lists: Lists,
    lent: Lent,
) -> Result<Result<usize, Fault>, Fail> {
    join_on::<Bytes>(rt, heap, memory, first, second, lists, lent)
}

// With a witness that is longer than needed.
pub fn compare(
    rt: &impl Abort,
    heap: Global,
    memory: &mut ByteMemory,
    first: usize,
    second: usize,
) -> Result<Result<Option<Vec<u32>>, Fault>, Fail> {
    compare_on::<Bytes>(rt, heap, memory, first, second, PLENTY, 50)
}

pub fn compare_with(
    rt: &impl Abort,
    heap: Global,
    memory: &mut ByteMemory,
    first: usize,
    second: usize,
    lent: Lent,
    length: usize,
) -> Result<Result<Option<Vec<u32>>, Fault>, Fail> {
    compare_on::<Bytes>(rt, heap, memory, first, second, lent, length)
}

pub fn transduce(
    rt: &impl Abort,
    heap: Global,
    memory: &mut ByteMemory,
    number: usize,
    text: &[u32],
    length: usize,
) -> Result<(Result<Outcome, Fault>, Vec<u32>), Fail> {
    transduce_on::<Bytes>(rt, heap, memory, number, text, length)
}

// A shelf on which these filters are filed, each of them held.
pub fn shelf_of(
    rt: &impl Abort,
    heap: Global,
    drafts: &[Draft<'_, Bytes>],
) -> Result<ByteMemory, Fail> {
    let mut memory = byte_shelf(heap, WIDE)?;
    for draft in drafts {
        let next = memory.head.holdings.saturating_add(1);
        assert_eq!(rt; file(rt, heap, &mut memory, draft)?, Ok(next));
    }
    Ok(memory)
}
