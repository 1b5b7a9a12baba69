// A reader and the bodies that it hands out, all borrowed from the file.
ghost use Rattle.std.specs.Prelude.{◌≡◌, ◌<◌};
ghost use Rattle.reader.specs.Parts.{body_at, number_of};

use holdings::Entry;

// Bytes of a file, and the place at which they begin.
#[derive(Clone, Copy)]
pub struct Span<'a> {
    pub place: usize,
    pub bytes: &'a [u8],
}

// A body: its counts, and its three parts.
#[derive(Clone, Copy)]
pub struct Body<'a> {
    pub counts: Entry,
    pub states: Span<'a>,
    pub rules: Span<'a>,
    pub outputs: Span<'a>,
}

// A file.
#[derive(Clone, Copy)]
pub struct Reader<'a> {
    pub(crate) file: &'a [u8],
}

// The bodies of a file that are still to be handed out, behind those that were: how many there are in all, and where the
// next one begins, so that each turn reads the counts of one body alone.
#[derive(Drop)]
pub struct Bodies<'a> {
    pub(crate) reader: Reader<'a>,
    pub(crate) given: usize,
    pub(crate) count: usize,
    pub(crate) place: usize,
    ghost counted: { count ≡ number_of reader.file.now },
    ghost placed: { given < count → place ≡ body_at reader.file.now given },
}
