//! A text that grows.
ghost use Rattle.std.specs.Prelude.{◌≡◌, ◌<◌, ◌++◌, [], OnOk};
ghost use Rattle.std.specs.Fmt.{decimal};
ghost use Rattle.plain_text.specs.Pieces.{field, hex_digit, hex_field, hex_word};

use slack_base::{ByteList, OutOfMemory};
use std::alloc::Global;
use std::marker::Model;

/// A text in bytes. A contract sees the list of its bytes.
#[derive(Drop)]
pub struct Text {
    alloc: Global,
    bytes: Vec<u8>,
}

impl Model for Text {
    ghost use Rattle.std.specs.Prelude.{List, ℕ};

    ghost Value = { List ℕ };

    ghost view = { λ t. t.bytes.items };
}

impl Text {
    /// The empty text. It takes no memory.
    pub fn new(alloc: Global) -> Text
        ensures { result ≡ [] }
    {
        Text {
            alloc,
            bytes: Vec::new(alloc),
        }
    }

    /// Where the text takes its memory.
    pub fn allocator(&self) -> Global {
        self.alloc
    }

    /// The bytes of the text.
    pub fn into_list(self) -> ByteList
        ensures { result ≡ self }
    {
        ByteList::of(self.bytes)
    }

    /// Appends bytes.
    pub fn push_bytes(&mut self, bytes: &[u8]) -> Result<(), OutOfMemory>
        ensures { OnOk result (self.new ≡ self.old ++ bytes.now) }
    {
        self.bytes.extend_from_slice(bytes)?;
        Ok(())
    }

    /// Appends a piece of text.
    pub fn push_str(&mut self, piece: &str) -> Result<(), OutOfMemory>
        ensures { OnOk result (self.new ≡ self.old ++ piece.now) }
    {
        self.push_bytes(piece.as_bytes())
    }

    /// Appends a number in decimal.
    pub fn push_decimal(&mut self, n: u64) -> Result<(), OutOfMemory>
        ensures { OnOk result (self.new ≡ self.old ++ decimal n) }
    {
        let digits = n.to_string(self.alloc)?;
        self.push_bytes(digits.as_bytes())
    }

    /// Appends a name, and then a number in decimal.
    #[tactic(auto, unfolding(crate::specs::Pieces::field))]
    pub fn push_field(&mut self, name: &str, n: u64) -> Result<(), OutOfMemory>
        ensures { OnOk result (self.new ≡ self.old ++ field name.now n) }
    {
        self.push_str(name)?;
        self.push_decimal(n)
    }

    /// Appends the eight hexadecimal digits of a word, and a blank.
    #[tactic(auto, unfolding(crate::specs::Pieces::hex_field))]
    pub fn push_hex_field(&mut self, word: u32) -> Result<(), OutOfMemory>
        ensures { OnOk result (self.new ≡ self.old ++ hex_field word) }
    {
        self.push_hex(word)?;
        self.push_str(" ")
    }

    /// Appends the eight hexadecimal digits of a word.
    #[tactic(auto, unfolding(crate::specs::Pieces::hex_word))]
    pub fn push_hex(&mut self, word: u32) -> Result<(), OutOfMemory>
        ensures { OnOk result (self.new ≡ self.old ++ hex_word word) }
    {
        self.push_bytes(&[
            hex_digit(word / 0x1000_0000 % 16),
            hex_digit(word / 0x100_0000 % 16),
            hex_digit(word / 0x10_0000 % 16),
            hex_digit(word / 0x1_0000 % 16),
            hex_digit(word / 0x1000 % 16),
            hex_digit(word / 0x100 % 16),
            hex_digit(word / 0x10 % 16),
            hex_digit(word % 16),
        ])
    }
}

/// A hexadecimal digit, in lower case.
pub fn hex_digit(digit: u32) -> u8
    requires { digit < 16 }
    ensures { result ≡ hex_digit digit }
{
    if digit < 10 {
        48 + digit as u8
    } else {
        87 + digit as u8
    }
}
