//! Values as OCL writes them.

ghost use Rattle.std.specs.Prelude.{◌≡◌, ◌++◌, ◌<◌, length, take, OnOk, string_bytes};
ghost use Rattle.std.specs.List.{flat_map};
ghost use Rattle.std.specs.Str.{chars};
ghost use Rattle.ocl_base.specs.Words.{begins_with_letter};
ghost use Rattle.imkl_model.specs.ClassModel.{enumeration_at};
ghost use Rattle.owned_values.specs.Meant.{meant, meant_element, meant_elements, IsElementThere, AreElementsThere, IsValueThere};
ghost use Rattle.explain_why.specs.Values.{literal_text, quoted_character, max_quoted, length_note, length_text, quoted_text, has_colon, stands_alone, object_text, class_note, kind_name, element_text, before_element, elements_text, more_text, first_elements_text, some_elements_text, collection_text, value_text, value_note};

use crate::pieces::{put, put_count, put_number};
use crate::words::kind_name;
use explain_notes::push_shown;
use imkl_model::{ClassModel, EnumNo, LiteralNo};
use imkl_population::{ObjectNo, Population};
use ocl_base::{CollectionKind, OutOfMemory, is_reserved};
use owned_values::{Element, Value};
use std::alloc::Global;

/// The greatest number of elements that are shown of a collection.
pub(crate) const MAX_SHOWN: usize = 10;

/// The greatest number that are shown where none stands out.
pub(crate) const MAX_BESIDE: usize = 3;

/// The greatest number of characters that are shown of a text.
const MAX_QUOTED: usize = 60;

/// Puts a literal, with its enumeration.
pub(crate) fn put_literal(
    out: &mut String,
    model: &ClassModel,
    enumeration: EnumNo,
    literal: LiteralNo,
) -> Result<(), OutOfMemory>
    requires enumeration { enumeration < length model.now.enumerations }
    requires literal { literal < length (enumeration_at model.now enumeration).literals }
    ensures { OnOk result (string_bytes out.new ≡ string_bytes out.old ++
        literal_text model.now enumeration literal) }
{
    put(out, model.enum_name(enumeration))?;
    put(out, "::")?;
    put(out, model.literal_name(enumeration, literal))
}

/// Puts a character of a text within quotes.
pub fn put_character(out: &mut String, character: char) -> Result<(), OutOfMemory>
    ensures { OnOk result (string_bytes out.new ≡ string_bytes out.old ++
        quoted_character character) }
{
    match character {
        '\'' => put(out, "\\'"),
        '\\' => put(out, "\\\\"),
        '\n' => put(out, "\\n"),
        '\r' => put(out, "\\r"),
        '\t' => put(out, "\\t"),
        '\x08' => put(out, "\\b"),
        '\x0c' => put(out, "\\f"),
        _ => {
            push_shown(out, character)?;
            Ok(())
        }
    }
}

/// Puts a text within quotes. Of a long one the first `MAX_QUOTED` characters are shown, and how many it has.
pub(crate) fn put_quoted(alloc: Global, out: &mut String, text: &str) -> Result<(), OutOfMemory>
    ensures { OnOk result (string_bytes out.new ≡ string_bytes out.old ++
        quoted_text (chars text.now)) }
{
    put(out, "'")?;
    put_characters(out, text)?;
    put(out, "'")?;
    let count = character_count(text);
    put_length(alloc, out, count.saturating_sub(MAX_QUOTED), count)
}

/// How many characters a text has.
fn character_count(text: &str) -> usize
    ensures { result ≡ length (chars text.now) }
{
    text.chars().count()
}

/// Puts how many characters a text has, if some of them are hidden.
fn put_length(
    alloc: Global,
    out: &mut String,
    hidden: usize,
    count: usize,
) -> Result<(), OutOfMemory>
    ensures { OnOk result (string_bytes out.new ≡ string_bytes out.old ++
        length_text hidden count) }
{
    if hidden == 0 {
        return Ok(());
    }
    put_note(alloc, out, count)
}

/// Puts how many characters a text has.
fn put_note(alloc: Global, out: &mut String, count: usize) -> Result<(), OutOfMemory>
    ensures { OnOk result (string_bytes out.new ≡ string_bytes out.old ++ length_note count) }
{
    put(out, ".. (")?;
    put_count(alloc, out, count)?;
    put(out, " characters)")
}

/// Puts the first characters of a text as they are written within quotes.
fn put_characters(out: &mut String, text: &str) -> Result<(), OutOfMemory>
    ensures { OnOk result (string_bytes out.new ≡ string_bytes out.old ++
        flat_map quoted_character (take max_quoted (chars text.now))) }
{
    let mut left = MAX_QUOTED;
    'characters: for character in text.chars() {
        if left == 0 {
            return Ok(());
        }
        put_character(out, character)?;
        left -= 1;
    }
    Ok(())
}

/// Whether bytes begin with a letter or `_`.
fn begins_with_letter(bytes: &[u8]) -> bool
    ensures { result ≡ begins_with_letter bytes.now }
{
    match bytes {
        [first, ..] => first.is_ascii_alphabetic() || *first == b'_',
        [] => false,
    }
}

/// Whether one of these bytes is a colon.
fn has_colon(bytes: &[u8]) -> bool
    ensures { result ≡ has_colon bytes.now }
{
    for byte in bytes {
        if *byte == b':' {
            return true;
        }
    }
    false
}

/// Whether an id can be read as nothing else: not as a number, a word of OCL or a literal.
fn stands_alone(id: &str) -> bool
    ensures { result ≡ stands_alone id.now }
{
    let bytes = id.as_bytes();
    begins_with_letter(bytes) && !is_reserved(id) && !has_colon(bytes)
}

/// Puts an object by its id; one that could be read as something else behind the name of its class.
pub(crate) fn put_object(
    out: &mut String,
    population: &Population<'_>,
    object: ObjectNo,
) -> Result<(), OutOfMemory>
    requires { object < length population.now.content.objects }
    ensures { OnOk result (string_bytes out.new ≡ string_bytes out.old ++
        object_text population.now.content object) }
{
    let id = population.id(object);
    if stands_alone(id) {
        return put(out, id);
    }
    put(
        out,
        population.model().class_name(population.class_of(object)),
    )?;
    put(out, "(")?;
    put(out, id)?;
    put(out, ")")
}

/// Puts the class of an object behind its text, unless that has it already.
fn put_class(
    out: &mut String,
    population: &Population<'_>,
    object: ObjectNo,
) -> Result<(), OutOfMemory>
    requires { object < length population.now.content.objects }
    ensures { OnOk result (string_bytes out.new ≡ string_bytes out.old ++
        class_note population.now.content object) }
{
    if !stands_alone(population.id(object)) {
        return Ok(());
    }
    put(out, " : ")?;
    put(
        out,
        population.model().class_name(population.class_of(object)),
    )
}

/// Puts the class of an object behind a value that is one.
pub(crate) fn put_value_class(
    out: &mut String,
    population: &Population<'_>,
    value: &Value<'_>,
) -> Result<(), OutOfMemory>
    requires { IsValueThere population.now.content (meant value.now) }
    ensures { OnOk result (string_bytes out.new ≡ string_bytes out.old ++
        value_note population.now.content (meant value.now)) }
{
    match value {
        Value::Element(Element::Object(object)) => put_class(out, population, *object),
        _ => Ok(()),
    }
}

/// Puts an element, or a single value.
pub(crate) fn put_element(
    alloc: Global,
    out: &mut String,
    population: &Population<'_>,
    element: &Element<'_>,
) -> Result<(), OutOfMemory>
    requires { IsElementThere population.now.content (meant_element element.now) }
    ensures { OnOk result (string_bytes out.new ≡ string_bytes out.old ++
        element_text population.now.content (meant_element element.now)) }
{
    match element {
        Element::Null => put(out, "null"),
        Element::Bool(true) => put(out, "true"),
        Element::Bool(false) => put(out, "false"),
        Element::Int(number) => put_number(alloc, out, *number),
        Element::Text(text) => put_quoted(alloc, out, text),
        Element::Literal(enumeration, literal) => {
            put_literal(out, population.model(), *enumeration, *literal)
        }
        Element::Object(object) => put_object(out, population, *object),
    }
}

/// Puts how many more elements there are, if there are more.
fn put_more_elements(alloc: Global, out: &mut String, more: usize) -> Result<(), OutOfMemory>
    ensures { OnOk result (string_bytes out.new ≡ string_bytes out.old ++ more_text more) }
{
    if more == 0 {
        return Ok(());
    }
    put(out, ", and ")?;
    put_count(alloc, out, more)?;
    put(out, " more")
}

/// Puts what stands before an element: a comma, but for the first.
pub(crate) fn put_before(out: &mut String, index: usize) -> Result<(), OutOfMemory>
    ensures { OnOk result (string_bytes out.new ≡ string_bytes out.old ++ before_element index) }
{
    if index == 0 {
        return Ok(());
    }
    put(out, ", ")
}

/// Puts elements with commas between them.
fn put_elements(
    alloc: Global,
    out: &mut String,
    population: &Population<'_>,
    elements: &[Element<'_>],
) -> Result<(), OutOfMemory>
    requires { AreElementsThere population.now.content (meant_elements elements.now) }
    ensures { OnOk result (string_bytes out.new ≡ string_bytes out.old ++
        elements_text population.now.content 0 (meant_elements elements.now)) }
{
    for index in 0..elements.len() {
        put_before(out, index)?;
        put_element(alloc, out, population, &elements[index])?;
    }
    Ok(())
}

/// Puts the first `MAX_SHOWN` elements, and how many more there are.
pub(crate) fn put_some_elements(
    alloc: Global,
    out: &mut String,
    population: &Population<'_>,
    elements: &[Element<'_>],
) -> Result<(), OutOfMemory>
    requires { AreElementsThere population.now.content (meant_elements elements.now) }
    ensures { OnOk result (string_bytes out.new ≡ string_bytes out.old ++
        some_elements_text population.now.content (meant_elements elements.now)) }
{
    put_first_elements(alloc, out, population, MAX_SHOWN, elements)
}

/// Puts so many of some elements, and how many more there are.
pub(crate) fn put_first_elements(
    alloc: Global,
    out: &mut String,
    population: &Population<'_>,
    most: usize,
    elements: &[Element<'_>],
) -> Result<(), OutOfMemory>
    requires { AreElementsThere population.now.content (meant_elements elements.now) }
    ensures { OnOk result (string_bytes out.new ≡ string_bytes out.old ++
        first_elements_text population.now.content most (meant_elements elements.now)) }
{
    let shown = elements.len().min(most);
    put_elements(alloc, out, population, &elements[..shown])?;
    put_more_elements(alloc, out, elements.len() - shown)
}

/// Puts a collection, of which at most `MAX_SHOWN` elements are shown.
fn put_collection(
    alloc: Global,
    out: &mut String,
    population: &Population<'_>,
    kind: CollectionKind,
    elements: &[Element<'_>],
) -> Result<(), OutOfMemory>
    requires { AreElementsThere population.now.content (meant_elements elements.now) }
    ensures { OnOk result (string_bytes out.new ≡ string_bytes out.old ++
        collection_text population.now.content kind (meant_elements elements.now)) }
{
    put(out, kind_name(kind))?;
    put(out, "{")?;
    put_some_elements(alloc, out, population, elements)?;
    put(out, "}")
}

/// Puts a value.
pub(crate) fn put_value(
    alloc: Global,
    out: &mut String,
    population: &Population<'_>,
    value: &Value<'_>,
) -> Result<(), OutOfMemory>
    requires { IsValueThere population.now.content (meant value.now) }
    ensures { OnOk result (string_bytes out.new ≡ string_bytes out.old ++
        value_text population.now.content (meant value.now)) }
{
    match value {
        Value::Invalid => put(out, "invalid"),
        Value::Element(element) => put_element(alloc, out, population, element),
        Value::Collection(kind, elements) => put_collection(
            alloc, out, population, *kind, elements,
        ),
    }
}
