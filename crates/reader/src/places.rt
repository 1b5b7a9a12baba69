// Where the bodies of a file begin and end.
ghost use Rattle.std.specs.Prelude.{◌≡◌, ◌+◌, ◌*◌, ◌<◌, ◌≤◌, length};
ghost use Rattle.codec_laws.specs.Numbers.{at};
ghost use Rattle.stored_laws.specs.Format.{to_outputs_lem as before_outputs, body_size, bodies_at};
ghost use Rattle.reader.specs.Parts.{counts_at_lem, body_at, whole};

use codec::Record;
use holdings::Entry;

// The bytes of a body in front of its outputs.
pub(crate) fn to_outputs(entry: Entry) -> usize
    ensures place { result ≡ before_outputs entry }
    ensures bound { result ≤ 65535 * 17 }
{
    entry.states as usize * 3 + entry.rules as usize * 14
}

// How many bytes a body has.
pub(crate) fn size_of(entry: Entry) -> usize
    ensures size { result ≡ body_size entry }
    ensures bound { result ≤ 65535 * 22 }
{
    to_outputs(entry) + entry.outputs as usize * 5
}

// The counts of the body behind i others.
pub(crate) fn counts_at(file: &[u8], i: usize) -> Entry
    requires within { i < at file.now 1 }
    requires starts { bodies_at file.now ≤ length file.now }
    ensures { result ≡ counts_at_lem file.now i }
{
    let place = 2 + i * 6;
    Entry::read(&file[place..place + 6])
}

// Where the body behind i others begins; behind all, where the last one ends.
pub(crate) fn body_at(file: &[u8], i: usize) -> usize
    requires within { i ≤ at file.now 1 }
    requires few { at file.now 1 ≤ 16 }
    requires starts { bodies_at file.now ≤ length file.now }
    ensures place { result ≡ body_at file.now i }
    ensures bound { result ≤ 98 + i * 1441770 }
{
    // A chain is no plainer: its closure would need the clauses of `counts_at`, and `sum` a bound.
    let mut place = 2 + file[1] as usize * 6;
    for j in 0..i {
        place += size_of(counts_at(file, j));
    }
    place
}

// Whether a file has at most 16 bodies and is as long as its contents say.
pub(crate) fn is_whole(file: &[u8]) -> bool
    ensures { result ≡ whole file.now }
{
    let [_, count, rest @ ..] = file else {
        return false;
    };
    let bodies = *count as usize;
    bodies <= 16 && bodies * 6 <= rest.len() && body_at(file, bodies) == file.len()
}
