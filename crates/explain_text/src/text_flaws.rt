//! Why a rule text doesn't spell rules.

use crate::foreign::instead_of_character;
use crate::habits::{Call, call_with_variable, help_at, instead_of_variable, nearest_iteration};
use crate::wanted::write_wanted;
use explain_faults::{Fault, Faults};
use explain_notes::{Input, Note, first_character, quote, visible_text, write_marked};
use ocl_tokens::{TextFault, TextFlaw, Token, TokenKind, tokens};
use std::alloc::{AllocError, Global};

/// What is said of a text's flaw.
#[derive(Drop)]
struct Saying {
    length: usize,
    message: String,
    label: String,
    help: &'static str,
}

impl Saying {
    /// Nothing yet.
    fn new(alloc: Global) -> Saying {
        Saying {
            length: 1,
            message: String::new(alloc),
            label: String::new(alloc),
            help: "",
        }
    }

    /// Says this of so many bytes.
    fn say(
        &mut self,
        length: usize,
        message: &str,
        label: &str,
        help: &'static str,
    ) -> Result<(), AllocError> {
        self.length = length;
        self.help = help;
        self.message.push_str(message)?;
        self.label.push_str(label)
    }
}

/// Characters that can't be seen, with what they are.
static UNSEEN: [(&str, &str); 3] = [
    ("\u{a0}", "a no-break space"),
    ("\u{200b}", "a space of no width"),
    ("\u{feff}", "a byte order mark"),
];

/// What a character is that can't be seen; nothing of every other one.
fn unseen_name(character: &str) -> &'static str {
    for (unseen, name) in &UNSEEN {
        if *unseen == character {
            return *name;
        }
    }
    ""
}

/// What some bytes have from an offset on.
fn rest_of(bytes: &[u8], offset: usize) -> &[u8] {
    bytes.get(offset..).unwrap_or(&[])
}

/// A byte that is no text.
fn bad_byte(saying: &mut Saying, rest: &[u8]) -> Result<(), AllocError> {
    let help = "save the text as UTF-8; if it is a code file, leave --text out";
    saying.say(1, "this isn't UTF-8 text", "", help)?;
    match rest.first() {
        Some(byte) => write!(&mut saying.label, "the byte {byte:02x} can't stand here"),
        None => Ok(()),
    }
}

/// A character that begins no token, or a byte that is no text.
fn bad_character(
    alloc: Global,
    saying: &mut Saying,
    bytes: &[u8],
    offset: usize,
) -> Result<(), AllocError> {
    let rest = rest_of(bytes, offset);
    let character = first_character(rest);
    if character.is_empty() {
        return bad_byte(saying, rest);
    }
    let label = "no token begins with this character";
    saying.say(character.len(), "", label, instead_of_character(rest))?;
    let name = unseen_name(character);
    if !name.is_empty() {
        return write!(&mut saying.message, "{name} can't stand here");
    }
    let written = visible_text(alloc, character.as_bytes())?;
    write!(&mut saying.message, "`{written}` begins nothing here")
}

/// The escape that begins at a byte, which is none of the eight.
fn bad_escape(
    alloc: Global,
    saying: &mut Saying,
    bytes: &[u8],
    offset: usize,
) -> Result<(), AllocError> {
    let label = r#"the escapes are \b \t \n \f \r \" \' \\"#;
    saying.say(2, "", label, r"write \\ for a backslash")?;
    let after = rest_of(bytes, offset.saturating_add(1));
    let written = visible_text(alloc, first_character(after).as_bytes())?;
    write!(&mut saying.message, "`\\{written}` is no escape")
}

/// How many digits some bytes begin with.
fn digits(bytes: &[u8]) -> usize {
    for (index, byte) in bytes.iter().enumerate() {
        if !byte.is_ascii_digit() {
            return index;
        }
    }
    bytes.len()
}

/// The token that begins at an offset.
fn token_at<'a>(tokens: &[Token<'a>], offset: usize) -> Option<Token<'a>> {
    for token in tokens {
        if token.span.start == offset {
            return Some(*token);
        }
    }
    None
}

/// Bytes between which a token can't stand, with what may have been meant.
static MEANT: [(u8, u8, &str); 6] = [
    (b'=', b'=', "`=` alone says that two values are equal"),
    (b'-', b'>', "`implies` says that one follows from the other"),
    (b'=', b'<', "`<=` says that one is at most the other"),
    (b'=', b'>', "`implies` says that one follows from the other"),
    (b'|', b'|', "`or` joins two conditions"),
    (b'\'', b'\'', r"a quote inside a string is written \'"),
];

/// What may have been meant where a token can't stand.
fn meant_by(text: &str, offset: usize) -> &'static str {
    let bytes = text.as_bytes();
    let Some(end) = offset.checked_sub(1) else {
        return "";
    };
    let (Some(before), Some(after)) = (bytes.get(end), bytes.get(offset)) else {
        return "";
    };
    for (first, second, meant) in &MEANT {
        if *first == *before && *second == *after {
            return *meant;
        }
    }
    ""
}

/// Whether two bars stand at an offset, as other languages write `or`.
fn begins_or(text: &str, offset: usize) -> bool {
    rest_of(text.as_bytes(), offset).starts_with(b"||")
}

/// What to write where a token can't stand: by its neighbour, or else by the tokens up to it.
fn help_of(text: &str, tokens: &[Token<'_>], index: usize, offset: usize) -> &'static str {
    if begins_or(text, offset) {
        return "`or` joins two conditions";
    }
    let meant = meant_by(text, offset);
    if meant.is_empty() {
        return help_at(tokens, index);
    }
    meant
}

/// A call of what can't have a variable.
fn variable(alloc: Global, saying: &mut Saying, call: &Call<'_>) -> Result<(), AllocError> {
    saying.help = instead_of_variable(call);
    let name = quote(alloc, call.name)?;
    write!(&mut saying.message, "`{name}` can't have a variable here")?;
    match nearest_iteration(alloc, call.name)? {
        Some(iteration) if call.is_arrow => {
            write!(&mut saying.label, "did you mean `{iteration}`?")
        }
        _ => saying.label.push_str("only an iteration has variables"),
    }
}

/// A token that can't follow those before it, or a text that ends too early.
fn syntax(
    alloc: Global,
    saying: &mut Saying,
    text: &str,
    tokens: &[Token<'_>],
    offset: usize,
) -> Result<(), AllocError> {
    let index = index_at(tokens, offset);
    if !begins_or(text, offset)
        && let Some(call) = call_with_variable(tokens, index)
    {
        return variable(alloc, saying, &call);
    }
    write_wanted(alloc, &mut saying.label, text, tokens, offset)?;
    saying.help = help_of(text, tokens, index, offset);
    match token_at(tokens, offset) {
        Some(token) => {
            saying.length = token.text.len();
            let written = visible_text(alloc, token.text.as_bytes())?;
            write!(&mut saying.message, "`{written}` can't stand here")
        }
        None => {
            saying.length = 0;
            saying.message.push_str("the text ends too early")
        }
    }
}

/// A token that has too much round it, or before it.
fn too_deep(saying: &mut Saying, tokens: &[Token<'_>], offset: usize) -> Result<(), AllocError> {
    let length = match token_at(tokens, offset) {
        Some(token) => token.text.len(),
        None => 1,
    };
    saying.say(
        length,
        "too much is nested here, or too much is chained",
        "at most 64 constructs may be open, and a chain has at most 256 operators or steps",
        "give a part a name by `let`, or write two rules",
    )
}

/// The name of the rule whose `inv` is the token of an index, where one is written.
fn rule_name<'a>(tokens: &[Token<'a>], index: usize) -> Option<&'a str> {
    let next = tokens.get(index..)?.get(1)?;
    match next.kind {
        TokenKind::Identifier => Some(next.text),
        _ => None,
    }
}

/// The name of the rule of a number whose `inv` is the token of an index; one without a name is named by the number.
fn numbered_name(
    alloc: Global,
    tokens: &[Token<'_>],
    index: usize,
    number: usize,
) -> Result<String, AllocError> {
    match rule_name(tokens, index) {
        Some(written) => String::from_str(alloc, written),
        None => format!(in alloc; "inv{number}"),
    }
}

/// The name of the rule whose `inv` is the token of an index.
fn name_of(alloc: Global, tokens: &[Token<'_>], index: usize) -> Result<String, AllocError> {
    let mut number = 0usize;
    for (other, token) in tokens.iter().enumerate() {
        if other <= index && matches!(token.kind, TokenKind::Inv) {
            number = number.saturating_add(1);
        }
    }
    numbered_name(alloc, tokens, index, number)
}

/// Where the `inv` of the first rule of this name stands.
fn first_of_name(
    alloc: Global,
    tokens: &[Token<'_>],
    name: &str,
) -> Result<Option<usize>, AllocError> {
    let mut number = 0usize;
    for (index, token) in tokens.iter().enumerate() {
        if matches!(token.kind, TokenKind::Inv) {
            number = number.saturating_add(1);
            if numbered_name(alloc, tokens, index, number)?.as_str() == name {
                return Ok(Some(token.span.start));
            }
        }
    }
    Ok(None)
}

/// The index of the token that begins at an offset.
fn index_at(tokens: &[Token<'_>], offset: usize) -> usize {
    for (index, token) in tokens.iter().enumerate() {
        if token.span.start == offset {
            return index;
        }
    }
    tokens.len()
}

/// A rule whose name an earlier one has: both are shown.
fn write_duplicate(
    alloc: Global,
    out: &mut Faults,
    input: Input<'_>,
    tokens: &[Token<'_>],
    offset: usize,
) -> Result<(), AllocError> {
    let name = name_of(alloc, tokens, index_at(tokens, offset))?;
    let message = format!(in alloc; "a second rule is named `{name}`")?;
    let note = Note {
        input,
        offset,
        length: 3,
        message: message.as_str(),
        fault: "text 8",
        label: "this is the second",
        help: "",
    };
    out.add_note(alloc, &note)?;
    let words = &mut out.words;
    match first_of_name(alloc, tokens, name.as_str())? {
        Some(first) => write_marked(alloc, words, input.bytes, first, 3, "this is the first"),
        None => Ok(()),
    }
}

/// What is said of a flaw that the tokens show.
fn say_of_tokens(
    alloc: Global,
    saying: &mut Saying,
    text: &str,
    tokens: &[Token<'_>],
    flaw: TextFlaw,
    offset: usize,
) -> Result<(), AllocError> {
    match flaw {
        TextFlaw::TooDeep => too_deep(saying, tokens, offset),
        _ => syntax(alloc, saying, text, tokens, offset),
    }
}

/// What is said of a flaw that leaves no tokens.
fn say_of_bytes(
    alloc: Global,
    saying: &mut Saying,
    bytes: &[u8],
    flaw: TextFlaw,
    offset: usize,
) -> Result<(), AllocError> {
    match flaw {
        TextFlaw::OpenString => saying.say(
            1,
            "this string never closes",
            "it opens here",
            r"a string ends with the next single quote; a quote inside it is written \'",
        ),
        TextFlaw::BadEscape => bad_escape(alloc, saying, bytes, offset),
        TextFlaw::NumberTooLarge => saying.say(
            digits(rest_of(bytes, offset)),
            "this number is too large",
            "the largest is 9223372036854775807",
            "",
        ),
        TextFlaw::OpenComment => saying.say(
            2,
            "this comment never ends",
            "it opens here",
            "end it by `*/`; comments don't nest",
        ),
        _ => bad_character(alloc, saying, bytes, offset),
    }
}

/// Adds the note on a flaw.
fn write_saying(
    alloc: Global,
    out: &mut Faults,
    input: Input<'_>,
    flaw: TextFlaw,
    offset: usize,
    saying: &Saying,
) -> Result<(), AllocError> {
    let number = flaw.number();
    let fault = format!(in alloc; "text {number}")?;
    let note = Note {
        input,
        offset,
        length: saying.length,
        message: saying.message.as_str(),
        fault: fault.as_str(),
        label: saying.label.as_str(),
        help: saying.help,
    };
    out.add_note(alloc, &note)
}

/// Says why a text of these tokens is refused.
fn explain_tokens(
    alloc: Global,
    out: &mut Faults,
    input: Input<'_>,
    text: &str,
    tokens: &[Token<'_>],
    flaw: TextFlaw,
    offset: usize,
) -> Result<(), AllocError> {
    if let TextFlaw::DuplicateRule = flaw {
        return write_duplicate(alloc, out, input, tokens, offset);
    }
    let mut saying = Saying::new(alloc);
    say_of_tokens(alloc, &mut saying, text, tokens, flaw, offset)?;
    write_saying(alloc, out, input, flaw, offset, &saying)
}

/// Says why bytes are refused that leave no tokens, or are no text.
fn explain_bytes(
    alloc: Global,
    out: &mut Faults,
    input: Input<'_>,
    is_text: bool,
    flaw: TextFlaw,
    offset: usize,
) -> Result<(), AllocError> {
    let mut saying = Saying::new(alloc);
    if is_text {
        say_of_bytes(alloc, &mut saying, input.bytes, flaw, offset)?;
    } else {
        bad_character(alloc, &mut saying, input.bytes, offset)?;
    }
    write_saying(alloc, out, input, flaw, offset, &saying)
}

/// How many bytes of a text are read as tokens.
fn length_of_tokens(alloc: Global, text: &str) -> Result<usize, AllocError> {
    match tokens(alloc, text) {
        Ok(_) => Ok(text.len()),
        Err(TextFault::At { offset, .. }) => Ok(offset),
        Err(TextFault::OutOfMemory) => Err(AllocError),
    }
}

/// How many bytes the token has that begins at an offset of a text, whatever is behind it; 1 where none does.
pub fn length_of_token(alloc: Global, bytes: &[u8], offset: usize) -> Result<usize, AllocError> {
    let rest = str::from_utf8(rest_of(bytes, offset)).unwrap_or("");
    let read = length_of_tokens(alloc, rest)?;
    match tokens(alloc, rest.get(0..read).unwrap_or("")) {
        Ok(tokens) => match token_at(&tokens, 0) {
            Some(token) => Ok(token.text.len()),
            None => Ok(1),
        },
        Err(TextFault::At { .. }) => Ok(1),
        Err(TextFault::OutOfMemory) => Err(AllocError),
    }
}

/// Says that a code file is no rule text.
fn explain_code_file(
    alloc: Global,
    out: &mut Faults,
    path: &str,
    flaw: TextFlaw,
) -> Result<(), AllocError> {
    let number = flaw.number();
    let text = format!(in alloc; "this is a code file, and no rule text (text {number})")?;
    out.add(Fault::of_whole(alloc, path, text)?)?;
    writeln!(
        &mut out.words,
        "  it is judged without `--text`; `ocl_explain show` prints its rules as OCL"
    )
}

/// Whether bytes are those of a code file, by how they begin. No rule text begins so.
pub fn is_code_file(bytes: &[u8]) -> bool {
    bytes.starts_with(b"OCLB\x00")
}

/// Says why a rule text is refused that has this flaw at an offset.
pub fn explain_text_flaw(
    alloc: Global,
    out: &mut Faults,
    input: Input<'_>,
    flaw: TextFlaw,
    offset: usize,
) -> Result<(), AllocError> {
    if is_code_file(input.bytes) {
        return explain_code_file(alloc, out, input.path, flaw);
    }
    match str::from_utf8(input.bytes) {
        Ok(text) => explain_flaw_in(alloc, out, input, text, flaw, offset),
        Err(_) => explain_bytes(alloc, out, input, false, flaw, offset),
    }
}

/// Says why a rule text is refused that has this flaw at an offset, by how it is read with spaces in place of some of its parts.
pub fn explain_flaw_in(
    alloc: Global,
    out: &mut Faults,
    input: Input<'_>,
    read: &str,
    flaw: TextFlaw,
    offset: usize,
) -> Result<(), AllocError> {
    match tokens(alloc, read) {
        Ok(tokens) => explain_tokens(alloc, out, input, read, &tokens, flaw, offset),
        Err(TextFault::At { .. }) => explain_bytes(alloc, out, input, true, flaw, offset),
        Err(TextFault::OutOfMemory) => Err(AllocError),
    }
}
