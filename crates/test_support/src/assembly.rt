//! Code files of rules that are written in words.

use crate::hex::bytes_of;
use std::alloc::{AllocError, Global};

/// Each instruction's word, its opcode (and the value of BOOL), and the forms of its fields.
const INSTRUCTIONS: &str = "\
self 01
get 02 number
int 03 integer
false 0400
true 0401
text 05 text
enum 06 symbol
null 07
invalid 08
attr 09 symbol
all 0a symbol
ascoll 0b kind
kindof 0c symbol
typeof 0d symbol
astype 0e symbol
add 10
sub 11
mul 12
div 13
mod 14
neg 15
abs 16
min 17
max 18
lt 19
le 1a
gt 1b
ge 1c
not 20
and 21
or 22
xor 23
implies 24
eq 28 kind
eqx 29
undef 2a
isinv 2b
tlen 2c
substr 2d
size 30
isempty 31
includes 32 kind
count 33 kind
incall 34 kind
excall 35 kind
sum 36
asset 37 kind
let 40 number
if 41 kind number number
forall 42 number
exists 43 number
one 44 number
select 45 number
reject 46 number
collect 47 number
collectflat 48 number
isunique 49 kind number
fold 4a kind number
";

/// A code file in the making. Texts and symbols are numbered by first use. With FOLD it is of version 2, else of version 1.
#[derive(Drop)]
struct Assembler<'t> {
    alloc: Global,
    texts: Vec<&'t str>,
    symbols: Vec<&'t str>,
    rules: Vec<u8>,
    has_fold: bool,
}

/// A count as the code file has it; none of the tests comes near the end.
fn short(number: usize) -> [u8; 2] {
    match u16::try_from(number) {
        Ok(number) => number.to_be_bytes(),
        Err(_) => [255, 255],
    }
}

/// The bytes of a number in decimal digits; of anything else those of 0.
fn short_of(word: &str) -> [u8; 2] {
    word.parse::<u16>().unwrap_or(0).to_be_bytes()
}

/// The place of a name among names, at their end if it is new.
fn place_of<'t>(names: &mut Vec<&'t str>, name: &'t str) -> Result<usize, AllocError> {
    for at in 0..names.len() {
        if names[at] == name {
            return Ok(at);
        }
    }
    let place = names.len();
    names.push(name)?;
    Ok(place)
}

/// The high half of a kind's byte.
fn collection_digit(word: &str) -> u8 {
    match word {
        "Set" => 0x10,
        "OrderedSet" => 0x20,
        "Bag" => 0x30,
        "Sequence" => 0x40,
        _ => 0,
    }
}

/// The low half of a kind's byte. An enumeration is written `Thema::`.
fn element_digit(word: &str) -> u8 {
    match word {
        "Void" => 0,
        "Boolean" => 1,
        "Integer" => 2,
        "String" => 3,
        "AnyObject" => 6,
        _ => if word.ends_with("::") { 4 } else { 5 },
    }
}

/// A kind's collection, empty for a single value, and its elements: `Bag(Integer)`.
fn parts_of_kind(word: &str) -> (&str, &str) {
    match word.split_once('(') {
        Some((collection, rest)) => (collection, rest.strip_suffix(')').unwrap_or("")),
        None => ("", word),
    }
}

impl<'t> Assembler<'t> {
    fn new(alloc: Global) -> Assembler<'t> {
        Assembler {
            alloc,
            texts: Vec::new(alloc),
            symbols: Vec::new(alloc),
            rules: Vec::new(alloc),
            has_fold: false,
        }
    }

    fn put_text(&mut self, text: &'t str) -> Result<(), AllocError> {
        let place = place_of(&mut self.texts, text)?;
        self.rules.extend_from_slice(&short(place))
    }

    fn put_symbol(&mut self, name: &'t str) -> Result<(), AllocError> {
        let place = place_of(&mut self.symbols, name)?;
        self.rules.extend_from_slice(&short(place))
    }

    fn put_kind(&mut self, word: &'t str) -> Result<(), AllocError> {
        let (collection, element) = parts_of_kind(word);
        let digit = element_digit(element);
        self.rules.push(collection_digit(collection) | digit)?;
        if digit == 4 || digit == 5 {
            self.put_symbol(element)?;
        }
        Ok(())
    }

    fn put_field(&mut self, form: &str, word: &'t str) -> Result<(), AllocError> {
        match form {
            "number" => self.rules.extend_from_slice(&short_of(word)),
            "text" => self.put_text(word),
            "symbol" => self.put_symbol(word),
            "kind" => self.put_kind(word),
            "integer" => {
                let integer = word.parse::<i64>().unwrap_or(0);
                self.rules.extend_from_slice(&integer.to_be_bytes())
            }
            _ => Ok(()),
        }
    }

    /// Puts the fields, each in its form.
    fn put_fields(&mut self, forms: &str, words: &'t str) -> Result<(), AllocError> {
        for (form, word) in forms.split(' ').zip(words.split(' ')) {
            self.put_field(form, word)?;
        }
        Ok(())
    }

    /// Puts the opcode and the fields.
    fn put_parts(&mut self, parts: &str, words: &'t str) -> Result<(), AllocError> {
        let (digits, forms) = parts.split_once(' ').unwrap_or((parts, ""));
        let opcode = bytes_of(self.alloc, digits)?;
        self.rules.extend_from_slice(&opcode)?;
        self.put_fields(forms, words)
    }

    /// Puts an instruction; a word that is none becomes a byte that is no opcode.
    fn put_instruction(&mut self, instruction: &'t str) -> Result<(), AllocError> {
        let (name, words) = instruction.split_once(' ').unwrap_or((instruction, ""));
        self.has_fold = self.has_fold || name == "fold";
        for row in INSTRUCTIONS.lines() {
            if let Some((word, parts)) = row.split_once(' ') {
                if word == name {
                    return self.put_parts(parts, words);
                }
            }
        }
        self.rules.push(255)?;
        Ok(())
    }

    /// Puts a rule: its name, its context class and its instructions.
    fn put_rule(
        &mut self,
        name: &'t str,
        context: &'t str,
        code: &'t str,
    ) -> Result<(), AllocError> {
        self.put_text(name)?;
        self.put_symbol(context)?;
        self.rules
            .extend_from_slice(&short(code.split("; ").count()))?;
        for instruction in code.split("; ") {
            self.put_instruction(instruction)?;
        }
        Ok(())
    }

    /// The file of so many rules.
    fn file(self, count: usize) -> Result<Vec<u8>, AllocError> {
        let Assembler {
            alloc,
            mut texts,
            symbols,
            rules,
            has_fold,
        } = self;
        let symbols = symbol_bytes(alloc, &mut texts, &symbols)?;
        let version = if has_fold { 2 } else { 1 };
        let mut bytes = text_bytes(alloc, version, &texts)?;
        bytes.extend_from_slice(&symbols)?;
        bytes.extend_from_slice(&short(count))?;
        bytes.extend_from_slice(&rules)?;
        Ok(bytes)
    }
}

/// Puts a symbol of two names, or of one.
fn put_symbol_with<'t>(
    texts: &mut Vec<&'t str>,
    tag: u8,
    first: &'t str,
    second: Option<&'t str>,
    bytes: &mut Vec<u8>,
) -> Result<(), AllocError> {
    bytes.push(tag)?;
    bytes.extend_from_slice(&short(place_of(texts, first)?))?;
    if let Some(second) = second {
        bytes.extend_from_slice(&short(place_of(texts, second)?))?;
    }
    Ok(())
}

/// Puts a symbol: a literal `Thema::water`, an enumeration `Thema::`, a feature `Cable.depth`, a
/// class `Cable`.
fn put_symbol_of<'t>(
    texts: &mut Vec<&'t str>,
    name: &'t str,
    bytes: &mut Vec<u8>,
) -> Result<(), AllocError> {
    if let Some(enumeration) = name.strip_suffix("::") {
        put_symbol_with(texts, 2, enumeration, None, bytes)
    } else if let Some((enumeration, literal)) = name.split_once("::") {
        put_symbol_with(texts, 4, enumeration, Some(literal), bytes)
    } else if let Some((class, feature)) = name.split_once('.') {
        put_symbol_with(texts, 3, class, Some(feature), bytes)
    } else {
        put_symbol_with(texts, 1, name, None, bytes)
    }
}

/// The symbols' bytes, their count first.
fn symbol_bytes<'t>(
    alloc: Global,
    texts: &mut Vec<&'t str>,
    symbols: &[&'t str],
) -> Result<Vec<u8>, AllocError> {
    let mut bytes = Vec::new(alloc);
    bytes.extend_from_slice(&short(symbols.len()))?;
    for name in symbols {
        put_symbol_of(texts, name, &mut bytes)?;
    }
    Ok(bytes)
}

/// Magic, version, and the texts' bytes, their count first.
fn text_bytes(alloc: Global, version: usize, texts: &[&str]) -> Result<Vec<u8>, AllocError> {
    let mut bytes = Vec::new(alloc);
    bytes.extend_from_slice(b"OCLB")?;
    bytes.extend_from_slice(&short(version))?;
    bytes.extend_from_slice(&short(texts.len()))?;
    for text in texts {
        bytes.extend_from_slice(&short(text.len()))?;
        bytes.extend_from_slice(text.as_bytes())?;
    }
    Ok(bytes)
}

/// The file of rules, each a line `CONTEXT NAME: CODE`.
pub fn file_of_rules(alloc: Global, rules: &str) -> Result<Vec<u8>, AllocError> {
    let mut assembler = Assembler::new(alloc);
    for line in rules.lines() {
        let (head, code) = line.split_once(": ").unwrap_or(("", ""));
        let (context, name) = head.split_once(' ').unwrap_or(("", ""));
        assembler.put_rule(name, context, code)?;
    }
    assembler.file(rules.lines().count())
}
