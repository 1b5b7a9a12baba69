// How notes are read into texts, and how texts are shown.
use marks::{SIZE, letter, mark_of};
use std::alloc::{AllocError, Global};

// How the symbols of an alphabet are written.
pub trait Script {
    // The symbol that a byte of a note stands for.
    fn symbol(byte: u8) -> u32;

    // The byte that a symbol is shown as, if it has one.
    fn byte(symbol: u32) -> Option<u8>;
}

// What a character that is no mark is read as: a symbol that no guard holds.
const NO_MARK: u32 = SIZE;

pub struct ByteScript {}

pub struct MarkScript {}

impl Script for ByteScript {
    fn symbol(byte: u8) -> u32 {
        byte as u32
    }

    fn byte(symbol: u32) -> Option<u8> {
        u8::try_from(symbol).ok()
    }
}

impl Script for MarkScript {
    fn symbol(byte: u8) -> u32 {
        mark_of(byte).unwrap_or(NO_MARK)
    }

    fn byte(symbol: u32) -> Option<u8> {
        letter(symbol)
    }
}

// A note as a text.
pub fn text_of<S: Script>(heap: Global, note: &[u8]) -> Result<Vec<u32>, AllocError> {
    note.iter().map(|byte| S::symbol(*byte)).collect(heap)
}

// The digits of a byte that is shown by its number.
const DIGITS: [u8; 16] = *b"0123456789ABCDEF";

// Printable ASCII stands as it is; any other byte is shown as \x and two digits. `escape_default` shows quotes and line
// ends in forms of their own, and has small digits; a format of each byte makes notes of such bytes half as slow again.
fn show_byte(line: &mut String, byte: u8) -> Result<(), AllocError> {
    match byte {
        0x20..=0x7e => line.push(byte as char),
        _ => {
            line.push_str("\\x")?;
            line.push(DIGITS[(byte / 16) as usize] as char)?;
            line.push(DIGITS[(byte % 16) as usize] as char)
        }
    }
}

// A text in quotes.
pub fn shown<S: Script>(heap: Global, text: &[u32]) -> Result<String, AllocError> {
    let mut line = String::from_str(heap, "\"")?;
    for symbol in text {
        match S::byte(*symbol) {
            Some(byte) => show_byte(&mut line, byte)?,
            None => line.push('?')?,
        }
    }
    line.push('"')?;
    Ok(line)
}
