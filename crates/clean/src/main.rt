// Cleans notes with the built-in filters and prints what was done.
//
// Each line of standard input is a note of bytes. The arguments name the filters to use: escape, lower, ascii, public.
// With none, every filter is used on every note.
#![tactic(auto)]

mod script;

use alphabet::Alphabet;
use anyhow::anyhow;
use builtin::{bytes, shelf_marks};
use cleaning::{CleanFault, clean};
use filter::Outcome;
use marks::Marks;
use ranges::Bytes;
use script::{ByteScript, MarkScript, Script, shown, text_of};
use std::env;
use std::io::Read;
use std::str::FromStr;
use table::Draft;

// A filter to use.
#[derive(Clone, Copy, PartialEq)]
enum Choice {
    Escape,
    Lower,
    Ascii,
    Public,
}

// The filters in the order in which they are used.
const CHOICES: [Choice; 4] = [Choice::Escape, Choice::Lower, Choice::Ascii, Choice::Public];

// The filter that an argument names.
impl FromStr for Choice {
    type Err = anyhow::Error;

    fn from_str(name: &str) -> anyhow::Result<Choice> {
        match name {
            "escape" => Ok(Choice::Escape),
            "lower" => Ok(Choice::Lower),
            "ascii" => Ok(Choice::Ascii),
            "public" => Ok(Choice::Public),
            _ => Err(anyhow!("the filters are: escape lower ascii public")),
        }
    }
}

impl Choice {
    // Cleans a note.
    fn clean(self, rt: &HostRuntime, note: &[u8]) -> anyhow::Result<()> {
        match self {
            Choice::Escape => {
                use_filter::<Bytes, ByteScript>(rt, "escape", &bytes::escape(), note)
            }
            Choice::Lower => use_filter::<Bytes, ByteScript>(rt, "lower", &bytes::lower(), note),
            Choice::Ascii => use_filter::<Bytes, ByteScript>(rt, "ascii", &bytes::ascii(), note),
            Choice::Public => {
                use_filter::<Marks, MarkScript>(rt, "public", &shelf_marks::public_form(), note)
            }
        }
    }
}

// The filters that the arguments name, each once, or all of them.
fn choices(rt: &HostRuntime) -> anyhow::Result<Vec<Choice>> {
    let mut chosen = Vec::new(rt.alloc());
    for name in env::args(rt)?.skip(1) {
        let choice = name.as_str().parse::<Choice>()?;
        if !chosen.contains(&choice) {
            chosen.push(choice)?;
        }
    }
    if chosen.is_empty() {
        chosen.extend_from_slice(&CHOICES)?;
    }
    Ok(chosen)
}

// Prints what became of a note.
fn report<S: Script>(
    rt: &HostRuntime,
    cleaned: Result<(Outcome, Vec<u32>), CleanFault>,
) -> anyhow::Result<()> {
    match cleaned {
        Ok((Outcome::Written { state, count }, out)) => {
            let written = shown::<S>(rt.alloc(), out.as_slice())?;
            println!(rt; "    written {written}")?;
            println!(rt; "    state {state}, {count} symbols")?;
            Ok(())
        }
        Ok((Outcome::Rejected { position }, _)) => {
            println!(rt; "    rejected at {position}")?;
            Ok(())
        }
        Err(CleanFault::Refused(fault)) => {
            let code = fault.code();
            println!(rt; "    refused {code}")?;
            Ok(())
        }
        Err(CleanFault::NoMemory) => Err(anyhow!("not enough memory")),
    }
}

// Cleans a note with one filter.
fn use_filter<A: Alphabet, S: Script>(
    rt: &HostRuntime,
    name: &str,
    draft: &Draft<'_, A>,
    note: &[u8],
) -> anyhow::Result<()> {
    let states = draft.states.len();
    let rules = draft.rules.len();
    let outputs = draft.outputs.len();
    println!(rt; "  {name}: {states} states, {rules} rules, {outputs} outputs")?;
    let text = text_of::<S>(rt.alloc(), note)?;
    let cleaned = clean(rt.alloc(), draft, text.as_slice());
    report::<S>(rt, cleaned)
}

// Cleans a note with each of the filters.
fn clean_note(rt: &HostRuntime, chosen: &[Choice], note: &[u8]) -> anyhow::Result<()> {
    let text = text_of::<ByteScript>(rt.alloc(), note)?;
    let note_shown = shown::<ByteScript>(rt.alloc(), text.as_slice())?;
    println!(rt; "note {note_shown}")?;
    for choice in CHOICES {
        if chosen.contains(&choice) {
            choice.clean(rt, note)?;
        }
    }
    Ok(())
}

fn run(rt: &HostRuntime) -> anyhow::Result<()> {
    let chosen = choices(rt)?;
    let mut input = Vec::new(rt.alloc());
    rt.stdin().read_to_end(&mut input)?;
    for line in input.as_slice().split_inclusive(|byte| *byte == b'\n') {
        let note = line.strip_suffix(b"\n").unwrap_or(line);
        clean_note(rt, chosen.as_slice(), note)?;
    }
    Ok(())
}

fn main(rt: HostRuntime) -> anyhow::Result<()> {
    run(&rt)
}
