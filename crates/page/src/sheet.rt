ghost use Rattle.std.specs.Prelude.{◌≡◌, ℕ, ◌+◌, ◌*◌, ◌<◌, ◌≤◌, ◌↔◌, List, [], ◌∷◌, ◌++◌, length, take, drop, decimal, IsOk, MatchResult};
ghost use Rattle.page.specs.declared.sheet.TheConstants.{ROOM};
ghost use Rattle.page.specs.Lines.{field_text, line_text};
ghost use Rattle.page.specs.Words.{word_text};

use crate::short_buffer::ShortBuffer;
use crate::word::Word;
use std::marker::Model;

// A word and the number after it.
pub(crate) type Field = (Word, u64);

// A page has at most 4,214 bytes: 139 fields of at most 29 with a space each, 35 ends of lines, and the closing word
// with its own.
const ROOM: usize = 4400;

// The text of a page as far as it is written. It lies in fixed memory, since a page that does not fit the buffer leaves
// that as it was.
#[derive(Drop)]
pub(crate) struct Sheet {
    bytes: [u8; ROOM],
    len: usize,
}

impl Model for Sheet {
    ghost Value = { List ℕ };

    ghost view = { λ s. take s.len s.bytes };

    ghost invariant = { λ s. s.len ≤ ROOM };
}

impl Sheet {
    // Nothing written.
    pub(crate) fn new() -> Sheet
        ensures { result ≡ [] }
    {
        Sheet {
            bytes: [0; ROOM],
            len: 0,
        }
    }

    // A byte more.
    fn push(&mut self, byte: u8)
        requires { length self.old < ROOM }
        ensures { self.new ≡ self.old ++ byte ∷ [] }
    {
        self.bytes[self.len] = byte;
        self.len += 1;
    }

    // A word more.
    pub(crate) fn word(&mut self, word: Word)
        requires { length self.old + 8 ≤ ROOM }
        ensures is { self.new ≡ self.old ++ word_text word }
        ensures len { length self.new ≤ length self.old + 8 }
    {
        for byte in word.text() {
            self.push(*byte);
        }
    }

    // A number more, in decimal digits. Of `write!` it could not be proved that it never fails here.
    fn number(&mut self, n: u64)
        requires { length self.old + length (decimal n) ≤ ROOM }
        ensures { self.new ≡ self.old ++ decimal n }
    {
        if n >= 10 {
            self.number(n / 10);
        }
        self.push(b'0' + (n % 10) as u8);
    }

    // A field more.
    #[tactic(auto, using(crate::proofs::Digits::digits))]
    fn field(&mut self, field: Field)
        requires { length self.old + 29 ≤ ROOM }
        ensures is { self.new ≡ self.old ++ field_text field }
        ensures len { length self.new ≤ length self.old + 29 }
    {
        let (word, n) = field;
        self.word(word);
        self.push(b' ');
        self.number(n);
    }

    // Ends the line.
    pub(crate) fn end_line(&mut self)
        requires { length self.old < ROOM }
        ensures { self.new ≡ self.old ++ 10 ∷ [] }
    {
        self.push(b'\n');
    }

    // A line more.
    pub(crate) fn line(&mut self, fields: &[Field])
        requires { length self.old + 30 * length fields.now < ROOM }
        ensures is { self.new ≡ self.old ++ line_text fields.now }
        ensures len { length self.new ≤ length self.old + 30 * length fields.now + 1 }
    {
        for (i, field) in fields.iter().enumerate() {
            if i > 0 {
                self.push(b' ');
            }
            self.field(*field);
        }
        self.end_line();
    }

    // Copies the text to the front of the buffer and answers its length; a buffer that is too short is left as it was.
    pub(crate) fn copy_to(&self, buffer: &mut [u8]) -> Result<usize, ShortBuffer>
        ensures fits { IsOk result ↔ (length self.now ≤ length buffer.old) }
        ensures is { MatchResult result
            (λ n. (n ≡ length self.now) × (buffer.new ≡ self.now ++ drop n buffer.old))
            (λ _. buffer.new ≡ buffer.old) }
        ensures room { length self.now ≤ ROOM }
    {
        let text = &self.bytes[..self.len];
        if buffer.len() < text.len() {
            return Err(ShortBuffer);
        }
        buffer[..text.len()].copy_from_slice(text);
        Ok(text.len())
    }
}
