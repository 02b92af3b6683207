//! Names, text constants and texts as bytes.

ghost use Rattle.std.specs.Prelude.{◌≡◌};
ghost use Rattle.quel_tree.specs.Names.{any_length, chars, is_name_length, name, stands_in_chars, stands_in_name, stands_in_text, text};
ghost use Rattle.quel_tree.specs.NameLaws.{chars_exact, name_exact, text_exact};

use calculus::{Chars, Name, Text};
use memory::OutOfMemory;
use std::alloc::Global;
use tree_words::{Fault, Reader, Shape, Spelled, Spelling, short_bytes, write_short};

/// The bytes of text constants.
struct CharsShape;

impl Shape for CharsShape {
    ghost length_is = { any_length };

    ghost stands = { stands_in_chars };

    fn length_is(_length: u8) -> bool {
        true
    }

    fn stands(_length: u8, _following: u8, byte: u8) -> bool {
        calculus::is_printable(byte)
    }
}

/// The spelling of what stands between the quotes of a text constant: a length byte and its bytes.
pub struct CharsTree;

impl Spelled for CharsTree {
    type Value = Chars;

    ghost codec = { λ _. chars };

    ghost exact = { λ _ _. chars_exact };
}

#[tactic(auto, using(crate::specs::NameLaws::chars_read), unfolding(crate::specs::Names::chars))]
impl Spelling for CharsTree {
    fn read(alloc: Global, _levels: u32, reader: &mut Reader) -> Result<Chars, Fault> {
        let bytes = short_bytes::<CharsShape>(reader)?;
        match Chars::of(alloc, bytes)? {
            Some(chars) => Ok(chars),
            None => Err(Fault::OutOfMemory),
        }
    }

    fn write(value: &Chars, out: &mut Vec<u8>) -> Result<(), OutOfMemory> {
        write_short::<CharsShape>(value.bytes(), out)
    }
}

/// The bytes of names.
struct NameShape;

impl Shape for NameShape {
    ghost length_is = { is_name_length };

    ghost stands = { stands_in_name };

    fn length_is(length: u8) -> bool {
        1 <= length && length <= 12
    }

    fn stands(length: u8, following: u8, byte: u8) -> bool {
        let digit = byte.is_ascii_digit();
        let named = byte.is_ascii_lowercase() || digit || byte == b'_';
        let first = following as u16 + 1 == length as u16;
        named && !(first && digit)
    }
}

/// The spelling of a name: a length byte and its bytes.
pub struct NameTree;

impl Spelled for NameTree {
    type Value = Name;

    ghost codec = { λ _. name };

    ghost exact = { λ _ _. name_exact };
}

#[tactic(auto, using(crate::specs::NameLaws::name_read), unfolding(crate::specs::Names::name))]
impl Spelling for NameTree {
    fn read(alloc: Global, _levels: u32, reader: &mut Reader) -> Result<Name, Fault> {
        let bytes = short_bytes::<NameShape>(reader)?;
        match Name::of(alloc, bytes)? {
            Some(name) => Ok(name),
            None => Err(Fault::OutOfMemory),
        }
    }

    fn write(value: &Name, out: &mut Vec<u8>) -> Result<(), OutOfMemory> {
        write_short::<NameShape>(value.bytes(), out)
    }
}

/// The bytes of texts.
struct TextShape;

impl Shape for TextShape {
    ghost length_is = { any_length };

    ghost stands = { stands_in_text };

    fn length_is(_length: u8) -> bool {
        true
    }

    fn stands(_length: u8, following: u8, byte: u8) -> bool {
        calculus::is_printable(byte) && !(following == 0 && byte == b' ')
    }
}

/// The spelling of a text: a length byte and its bytes.
pub struct TextTree;

impl Spelled for TextTree {
    type Value = Text;

    ghost codec = { λ _. text };

    ghost exact = { λ _ _. text_exact };
}

#[tactic(auto, using(crate::specs::NameLaws::text_read), unfolding(crate::specs::Names::text))]
impl Spelling for TextTree {
    fn read(alloc: Global, _levels: u32, reader: &mut Reader) -> Result<Text, Fault> {
        let bytes = short_bytes::<TextShape>(reader)?;
        match Text::of(alloc, bytes)? {
            Some(text) => Ok(text),
            None => Err(Fault::OutOfMemory),
        }
    }

    fn write(value: &Text, out: &mut Vec<u8>) -> Result<(), OutOfMemory> {
        write_short::<TextShape>(value.bytes(), out)
    }
}
