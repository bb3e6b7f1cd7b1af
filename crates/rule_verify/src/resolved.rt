//! Units whose symbols have been looked up in a class model.

ghost use Rattle.std.specs.Prelude.{◌≡◌, ◌<◌, length, map, IfOk, IfErr, IfSome};
ghost use Rattle.imkl_model.specs.ClassModel.{belongs};
ghost use Rattle.rule_code.specs.View.{content};
ghost use Rattle.rule_code.specs.WellFormed.{SymbolFits};
ghost use Rattle.rule_verify.specs.Symbols.{named_by, named_at, class_in};
ghost use Rattle.rule_verify.specs.Known.{IsKnownName};

use crate::named::Named;
use imkl_model::{ClassModel, ClassNo};
use rule_code::{Symbol, SymbolNumber, Unit};
use std::alloc::{AllocError, Global};
use std::marker::Model;

/// A unit, with what each of its symbols names in a class model.
#[derive(Drop)]
pub struct Resolved<'m> {
    model: &'m ClassModel,
    unit: Unit,
    names: Vec<Option<Named>>,
}

impl<'m> Model for Resolved<'m> {
    ghost use Rattle.std.specs.Prelude.{◌≡◌, map};
    ghost use Rattle.rule_verify.specs.Resolved.{ResolvedUnit};
    ghost use Rattle.rule_verify.specs.Symbols.{named_by};
    ghost use Rattle.rule_code.specs.View.{content};

    ghost Value = { ResolvedUnit };

    ghost view = { λ l. record { model = l.model.now; unit = content l.unit } };

    ghost invariant = { λ l. l.names.items ≡
        map (named_by l.model.now (content l.unit).texts) (content l.unit).symbols };
}

/// What a symbol of a unit names in a class model, by present names or by old ones, if it is there.
pub(crate) fn look_up(model: &ClassModel, unit: &Unit, symbol: Symbol) -> Option<Named>
    requires { SymbolFits (length (content unit.now).texts) symbol }
    ensures { result ≡ named_by model.now (content unit.now).texts symbol }
{
    match symbol {
        Symbol::Class(class) => {
            let class = model.linked_class(unit.text(class))?;
            Some(Named::Class(class))
        }
        Symbol::Enumeration(enumeration) => {
            let enumeration = model.enumeration(unit.text(enumeration))?;
            Some(Named::Enumeration(enumeration))
        }
        Symbol::Feature { class, feature } => {
            let owner = model.linked_class(unit.text(class))?;
            let feature = model.linked_feature(unit.text(class), unit.text(feature))?;
            Some(Named::Feature(owner, feature))
        }
        Symbol::Literal {
            enumeration,
            literal,
        } => {
            let enumeration = model.enumeration(unit.text(enumeration))?;
            let literal = model.literal(enumeration, unit.text(literal))?;
            Some(Named::Literal(enumeration, literal))
        }
    }
}

/// What each symbol of a unit names, if it is there.
fn names_of(
    alloc: Global,
    model: &ClassModel,
    unit: &Unit,
) -> Result<Vec<Option<Named>>, AllocError>
    ensures { IfOk result (λ v. v.items ≡ map (named_by model.now (content unit.now).texts)
        (content unit.now).symbols) }
{
    let mut names = Vec::new(alloc);
    for symbol in unit.symbols.as_slice() {
        names.push(look_up(model, unit, *symbol))?;
    }
    Ok(names)
}

/// Looks up what each symbol of a unit names, each once. Where memory runs out the unit comes back.
pub fn resolve<'m>(
    alloc: Global,
    model: &'m ClassModel,
    unit: Unit,
) -> Result<Resolved<'m>, (AllocError, Unit)>
    ensures model { IfOk result (λ l. l.model ≡ model.entry.now) }
    ensures unit { IfOk result (λ l. l.unit ≡ content unit) }
    ensures refused { IfErr result (λ r. content r.1 ≡ content unit) }
{
    match names_of(alloc, model, &unit) {
        Ok(names) => Ok(Resolved { model, unit, names }),
        Err(refused) => Err((refused, unit)),
    }
}

impl<'m> Resolved<'m> {
    /// The unit again.
    pub fn into_unit(self) -> Unit
        ensures { content result ≡ self.entry.unit }
    {
        let Resolved {
            model: _,
            unit,
            names: _,
        } = self;
        unit
    }

    /// The class model.
    pub fn model(&self) -> &'m ClassModel
        ensures { result.now ≡ self.now.model }
    {
        self.model
    }

    /// The unit.
    pub fn unit(&self) -> &Unit
        ensures { content result.now ≡ self.now.unit }
    {
        &self.unit
    }

    /// What a symbol names, if it is there; nothing where the unit has no symbol of the number.
    pub fn named(&self, symbol: SymbolNumber) -> Option<Named>
        ensures name { result ≡ named_at self.now.model self.now.unit symbol.0 }
        ensures known { IfSome result (IsKnownName self.now.model) }
    {
        let number = usize::from(symbol.0);
        if number < self.names.len() {
            self.names[number]
        } else {
            None
        }
    }

    /// The class that a symbol names, if it names one that is there.
    pub fn class(&self, symbol: SymbolNumber) -> Option<ClassNo>
        ensures class { result ≡ class_in (named_at self.now.model self.now.unit symbol.0) }
        ensures in_range { IfSome result (λ c. c < length self.now.model.classes) }
    {
        match self.named(symbol)? {
            Named::Class(class) => Some(class),
            _ => None,
        }
    }
}
