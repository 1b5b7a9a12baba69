// The characters that marks are printed as.
ghost use Rattle.std.specs.Prelude.{◌≡◌, ℕ, Some};
ghost use Rattle.marks.specs.Letters.{letter_of, mark_of};

use crate::SIZE;

// The character of each mark, by its value.
const LETTERS: [u8; 37] = *b"0123456789ABCDEFGHIJKLMNOPQRSTUVWXYZ*";

// The character of a mark; a number from 37 on has none. The mark of that character is the mark.
pub fn letter(mark: u32) -> Option<u8>
    ensures rule { result ≡ letter_of mark }
    ensures back { (b : ℕ) → result ≡ Some b → mark_of b ≡ Some mark }
{
    // an `if`, since the table has a character only where the test holds
    if mark < SIZE {
        Some(LETTERS[mark as usize])
    } else {
        None
    }
}

// The mark of a character, or none where no mark has it. The character of that mark is the character.
pub fn mark_of(letter: u8) -> Option<u32>
    ensures rule { result ≡ mark_of letter }
    ensures back { (n : ℕ) → result ≡ Some n → letter_of n ≡ Some letter }
{
    match letter {
        b'0'..=b'9' => Some((letter - b'0') as u32),
        b'A'..=b'Z' => Some((letter - b'A') as u32 + 10),
        b'*' => Some(36),
        _ => None,
    }
}
