//! Units: the rules of one code file.

ghost use Rattle.std.specs.Prelude.{◌≡◌, ◌<◌, length, map, string_bytes};
ghost use Rattle.rule_code.specs.Content.{content_of, text_at};
ghost use Rattle.rule_code.specs.WellFormed.{IsUnit};

use crate::instruction::Instr;
use crate::symbol::{Symbol, SymbolNumber, SymbolTag, TextNumber};
use crate::version::Version;

/// A rule: its name, its context (the class whose objects it judges), and its instructions.
#[derive(Drop)]
pub struct Rule {
    /// The text of its name, an identifier that no earlier rule has.
    pub name: TextNumber,
    /// The symbol of its context class.
    pub context: SymbolNumber,
    /// Its instructions, at most 65,535.
    pub code: Vec<Instr>,
}

/// What one code file holds. A value of this type satisfies the format's conditions, so it has a
/// spelling.
#[derive(Drop)]
pub struct Unit {
    /// The version of the file that holds it.
    pub version: Version,
    /// At most 65,535 texts, each of at most 4,096 bytes of UTF-8.
    pub texts: Vec<String>,
    /// At most 65,535 symbols.
    pub symbols: Vec<Symbol>,
    /// At most 4,096 rules.
    pub rules: Vec<Rule>,
    /// It satisfies the format's conditions.
    pub ghost is_unit: { ∥ IsUnit (content_of version texts.items symbols.items rules.items) ∥₁ },
}

/// The text of a number.
pub(crate) fn text_named(texts: &[String], number: TextNumber) -> &str
    requires { number.0 < length texts.now }
    ensures { result.now ≡ text_at (map string_bytes texts.now) number.0 }
{
    texts[usize::from(number.0)].as_str()
}

impl Unit {
    ghost use Rattle.std.specs.Prelude.{◌≡◌, ◌<◌, length, slice_get, true, All};
    ghost use Rattle.rule_code.specs.SymbolTag.{is_symbol_of};
    ghost use Rattle.rule_code.specs.Content.{rule_content, text_at};
    ghost use Rattle.rule_code.specs.WellFormed.{SymbolFits, InstrFits, IsUnit};
    ghost use Rattle.rule_code.specs.View.{content};

    /// Every unit satisfies the conditions of the format.
    pub fn well_formed(&self)
        ensures { IsUnit (content self.now) }
    {
        let _texts = &self.texts;
    }

    /// The text of a number.
    pub fn text(&self, number: TextNumber) -> &str
        requires { number.0 < length (content self.now).texts }
        ensures { result.now ≡ text_at (content self.now).texts number.0 }
    {
        text_named(&self.texts, number)
    }

    /// The symbol of a number. Its names are texts of the unit.
    pub fn symbol(&self, number: SymbolNumber) -> Symbol
        requires { number.0 < length (content self.now).symbols }
        ensures symbol { slice_get (content self.now).symbols number.0 ≡ Some result }
        ensures names { SymbolFits (length (content self.now).texts) result }
    {
        self.symbols[usize::from(number.0)]
    }

    /// The rule of an index, from 0. Its name is a text of the unit, its context a class, and its
    /// instructions fit the unit's texts and symbols.
    pub fn rule(&self, index: usize) -> &Rule
        requires { index < length (content self.now).rules }
        ensures rule { slice_get (content self.now).rules index ≡ Some (rule_content result.now) }
        ensures name { result.now.name.0 < length (content self.now).texts }
        ensures context { is_symbol_of SymbolTag.Class
            (content self.now).symbols result.now.context.0 ≡ true }
        ensures context_in_range { result.now.context.0 < length (content self.now).symbols }
        ensures code { All (InstrFits (length (content self.now).texts) (content self.now).symbols)
            result.now.code.items }
    {
        &self.rules[index]
    }
}
