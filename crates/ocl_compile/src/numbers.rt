//! The numbers of a unit's texts and symbols.

ghost use Rattle.std.specs.Prelude.{◌≡◌, ◌<◌, Some, length, map, bytes_eq, slice_get, string_bytes};
ghost use Rattle.ocl_compile.specs.Numbering.{UsedSymbol, no_numbers, once_more, same_named, with_texts, with_use, names_of_symbol, text_number, symbol_number};
ghost use Rattle.ocl_compile.specs.declared.limits.TheConstants.{COUNTING_END};
ghost use Rattle.ocl_compile.specs.CompileFaults.{compile_fault};
ghost use Rattle.ocl_compile.specs.CompileWalk.{number_fault};
ghost use Rattle.ocl_compile.specs.NumberWalk.{IsNamedIn, FitsUnit, NumbersTo};
ghost use Rattle.ocl_compile.specs.declared.numbers.NumberFault.TheVariants.{OutOfMemory};

use crate::fault::{CompileFault, Limit};
use crate::limits::MAX_COUNTED;
use crate::symbols::Symbols;
use crate::texts::Texts;
use imkl_model::ClassModel;
use rule_verify::Named;
use std::alloc::{AllocError, Global};
use std::marker::Model;

/// The most bytes of a text.
const MAX_TEXT_BYTES: usize = rule_code::MAX_TEXT_BYTES as usize;

/// Why numbering stops.
#[derive(Clone, Copy)]
pub(crate) enum NumberFault {
    /// A text is too long, or there are more texts or symbols than a unit takes.
    TooLarge,
    /// Memory ran out.
    OutOfMemory,
}

impl NumberFault {
    /// The fault of the rule of an index, with which numbering stops.
    pub(crate) fn of_rule(self, rule: usize) -> CompileFault
        ensures { compile_fault result ≡ number_fault rule self }
    {
        match self {
            NumberFault::TooLarge => CompileFault::At {
                limit: Limit::Size,
                rule,
            },
            NumberFault::OutOfMemory => CompileFault::OutOfMemory,
        }
    }
}

impl From<AllocError> for NumberFault {
    ghost from_gives = { λ _ e. e ≡ OutOfMemory };

    fn from(_e: AllocError) -> NumberFault {
        NumberFault::OutOfMemory
    }
}

/// The texts and symbols of a unit, in the order of their numbers: as many as a unit takes, and none too long.
#[derive(Drop)]
pub(crate) struct Numbers {
    texts: Texts,
    symbols: Symbols,
}

impl Model for Numbers {
    ghost use Rattle.ocl_compile.specs.Numbering.{Numbering};
    ghost use Rattle.ocl_compile.specs.NumberWalk.{FitsUnit};

    ghost Value = { Numbering };

    ghost view = { λ n. record { texts = n.texts; symbols = n.symbols } };

    ghost invariant = { λ n. FitsUnit (record { texts = n.texts; symbols = n.symbols }) };
}

impl Numbers {
    /// None yet.
    pub(crate) fn new(alloc: Global) -> Numbers
        ensures { result ≡ no_numbers }
    {
        Numbers {
            texts: Texts::new(alloc),
            symbols: Symbols::new(alloc),
        }
    }

    /// Adds a text, unless it is there.
    pub(crate) fn add_text(&mut self, alloc: Global, text: &str) -> Result<(), NumberFault>
        ensures { NumbersTo result self.new (record {
          texts = once_more bytes_eq self.old.texts text.now;
          symbols = self.old.symbols;
        }) }
    {
        if text.len() > MAX_TEXT_BYTES {
            return Err(NumberFault::TooLarge);
        }
        if self.texts.number_of(text).is_some() {
            return Ok(());
        }
        if self.texts.len() == MAX_COUNTED {
            return Err(NumberFault::TooLarge);
        }
        self.texts.push(alloc, text)?;
        Ok(())
    }

    /// Adds the names that a symbol consists of, unless they are there.
    fn add_names(
        &mut self,
        alloc: Global,
        model: &ClassModel,
        symbol: &Named,
    ) -> Result<(), NumberFault>
        requires { IsNamedIn model.now symbol.now }
        ensures { NumbersTo result self.new (record {
          texts = with_texts self.old.texts (names_of_symbol model.now symbol.now);
          symbols = self.old.symbols;
        }) }
    {
        match symbol {
            Named::Class(class) => self.add_text(alloc, model.class_name(*class)),
            Named::Enumeration(enumeration) => self.add_text(alloc, model.enum_name(*enumeration)),
            Named::Feature(class, feature) => {
                model.well_formed();
                self.add_text(alloc, model.class_name(*class))?;
                self.add_text(alloc, model.feature_info(*feature).name.as_str())
            }
            Named::Literal(enumeration, literal) => {
                self.add_text(alloc, model.enum_name(*enumeration))?;
                self.add_text(alloc, model.literal_name(*enumeration, *literal))
            }
        }
    }

    /// Adds a symbol without its names, unless it is there.
    fn add_alone(&mut self, symbol: Named) -> Result<(), NumberFault>
        ensures { NumbersTo result self.new (record {
          texts = self.old.texts;
          symbols = once_more same_named self.old.symbols symbol;
        }) }
    {
        if self.symbols.number_of(&symbol).is_some() {
            return Ok(());
        }
        if self.symbols.len() == MAX_COUNTED {
            return Err(NumberFault::TooLarge);
        }
        self.symbols.push(symbol)?;
        Ok(())
    }

    /// Adds a symbol with the names that it consists of, unless they are there.
    pub(crate) fn add_symbol(
        &mut self,
        alloc: Global,
        model: &ClassModel,
        symbol: Named,
    ) -> Result<(), NumberFault>
        requires { IsNamedIn model.now symbol }
        ensures { NumbersTo result self.new (with_use model.now self.old (UsedSymbol symbol)) }
    {
        self.add_names(alloc, model, &symbol)?;
        self.add_alone(symbol)
    }

    /// A unit takes these texts and symbols.
    pub(crate) fn fit(&self)
        ensures { FitsUnit self.now }
    {
        let _texts = &self.texts;
    }

    /// The number of a text.
    #[tactic(auto, using(crate::proofs::Counted::counted))]
    pub(crate) fn text_number(&self, text: &str) -> usize
        ensures number { result ≡ text_number self.now text.now }
        ensures counted { result < COUNTING_END }
    {
        self.texts.number_of(text).unwrap_or(0)
    }

    /// The number of a symbol.
    #[tactic(auto, using(crate::proofs::Counted::counted))]
    pub(crate) fn symbol_number(&self, symbol: Named) -> usize
        ensures number { result ≡ symbol_number self.now symbol }
        ensures counted { result < COUNTING_END }
    {
        self.symbols.number_of(&symbol).unwrap_or(0)
    }

    /// How many symbols there are.
    pub(crate) fn symbol_count(&self) -> usize
        ensures { result ≡ length self.now.symbols }
    {
        self.symbols.len()
    }

    /// The symbol of a number.
    pub(crate) fn symbol(&self, number: usize) -> Named
        requires { number < length self.now.symbols }
        ensures { slice_get self.now.symbols number ≡ Some result }
    {
        self.symbols.at(number)
    }

    /// The texts, in the order of their numbers.
    pub(crate) fn into_texts(self) -> Vec<String>
        ensures { map string_bytes result.items ≡ self.texts }
    {
        self.texts.into_vec()
    }
}
