// Writes the example files of this repository, which are stored shelves made by the library's writer.
//
// With the name of an example as its argument it writes that file to standard output. With none it prints the name of each
// and its bytes in hexadecimal.
#![tactic(auto)]

mod builder;
mod filters;

use anyhow::anyhow;
use builder::{Builder, stored};
use marks::Marks;
use ranges::{Bytes, CodePoints};
use std::alloc::Global;
use std::env;
use std::io::Write;

// The examples, in the order in which they are printed.
const NAMES: [&str; 5] = ["notes", "letters", "marks", "damaged", "empty"];

// Escaping, copying, and copying by two rules, which is the same.
fn notes(heap: Global) -> anyhow::Result<Vec<u8>> {
    let mut bodies = Builder::new(heap);
    bodies.add(&filters::escape())?;
    bodies.add(&filters::copy())?;
    bodies.add(&filters::copy_split())?;
    stored::<Bytes>(heap, &mut bodies)
}

// Greek capitals made small, in two ways, and copying.
fn letters(heap: Global) -> anyhow::Result<Vec<u8>> {
    let mut bodies = Builder::new(heap);
    bodies.add(&filters::greek())?;
    bodies.add(&filters::greek_split())?;
    bodies.add(&filters::copy_points())?;
    stored::<CodePoints>(heap, &mut bodies)
}

// The public form of a mark, a turn and its return, and copying.
fn marks(heap: Global) -> anyhow::Result<Vec<u8>> {
    let mut bodies = Builder::new(heap);
    bodies.add(&filters::public_form())?;
    bodies.add(&filters::turn_there())?;
    bodies.add(&filters::turn_back())?;
    bodies.add(&filters::copy_marks())?;
    stored::<Marks>(heap, &mut bodies)
}

// The first example with a byte changed in its first body, which then leads to a state that does not exist, and one in
// its third, whose rules then overlap.
fn damaged(heap: Global) -> anyhow::Result<Vec<u8>> {
    let mut bytes = notes(heap)?;
    if let Some(next) = bytes.get_mut(26) {
        *next = 1;
    }
    if let Some(high) = bytes.get_mut(138) {
        *high = 0x80;
    }
    Ok(bytes)
}

fn empty(heap: Global) -> anyhow::Result<Vec<u8>> {
    let mut bodies = Builder::new(heap);
    stored::<Bytes>(heap, &mut bodies)
}

// The file of a name.
fn example(heap: Global, name: &str) -> anyhow::Result<Vec<u8>> {
    match name {
        "notes" => notes(heap),
        "letters" => letters(heap),
        "marks" => marks(heap),
        "damaged" => damaged(heap),
        "empty" => empty(heap),
        _ => Err(anyhow!("the examples are: notes letters marks damaged empty")),
    }
}

// Prints each example in lines of 32 bytes.
fn print_all(rt: &HostRuntime) -> anyhow::Result<()> {
    for name in NAMES {
        let bytes = example(rt.alloc(), name)?;
        let size = bytes.len();
        println!(rt; "{name}: {size} bytes")?;
        for row in bytes.as_slice().chunks(32) {
            let mut line = String::new(rt.alloc());
            for byte in row {
                builder::push_hex(&mut line, *byte)?;
            }
            println!(rt; "  {line}")?;
        }
    }
    Ok(())
}

fn run(rt: &HostRuntime) -> anyhow::Result<()> {
    if let Some(name) = env::args(rt)?.nth(1) {
        let bytes = example(rt.alloc(), name.as_str())?;
        rt.stdout().write_all(bytes.as_slice())?;
        return Ok(());
    }
    print_all(rt)
}

fn main(rt: HostRuntime) -> anyhow::Result<()> {
    run(&rt)
}
