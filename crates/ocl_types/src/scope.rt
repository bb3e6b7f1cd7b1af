//! The variables that an expression sees.

ghost use Rattle.std.specs.Prelude.{◌≡◌, ◌<◌, ◌-◌, ◌++◌, ◌∷◌, [], ℕ, List, Some, length, take, option_map, bytes_eq, All, IsSome, IfOk, IfErr, IfSome, OnOk, OnErr};
ghost use Rattle.std.specs.Map.{update};
ghost use Rattle.imkl_model.specs.ClassModel.{Model as Classes};
ghost use Rattle.ocl_kinds.specs.Kinds.{IsKindOf};
ghost use Rattle.ocl_core.specs.Core as tree;
ghost use Rattle.ocl_core.specs.Core.{CoreTree};
ghost use Rattle.ocl_types.specs.declared.fault.TypeFault.TheVariants.{OutOfMemory};
ghost use Rattle.ocl_types.specs.Scope as spec;
ghost use Rattle.ocl_types.specs.ScopeIndex.{name_number, last_feature};
ghost use Rattle.ocl_types.specs.ScopeView.{AreKnownVariables, typed_variable, typed_feature};

use crate::fault::TypeFault;
use imkl_model::{ClassModel, ClassNo, FeatureNo};
use ocl_kinds::{Kind, ScalarKind};
use ocl_text::Name;
use std::alloc::Global;
use std::collections::BTreeMap;
use std::marker::Model;

/// A variable with its kind.
#[derive(Clone, Copy)]
struct ScopeVariable<'t> {
    /// Its name, where an expression can name it.
    name: Option<&'t str>,
    /// Whether its features can be named without it.
    is_implicit: bool,
    kind: Kind,
    /// The number of the variable of its name that it hides.
    hides: Option<usize>,
}

/// A variable whose features can be named without it, by its number.
#[derive(Clone, Copy)]
struct ImplicitVariable {
    number: usize,
    kind: Kind,
}

/// The variables that an expression sees, the outermost first. One scope serves a whole rule: variables are pushed before
/// what sees them, and cut off after it.
#[derive(Drop)]
pub(crate) struct Scope<'t> {
    variables: Vec<ScopeVariable<'t>>,
    /// The number of the innermost variable of each name.
    named: BTreeMap<&'t str, usize>,
    /// The variables whose features can be named without them, the outermost first.
    implicit: Vec<ImplicitVariable>,
}

impl<'t> Model for Scope<'t> {
    ghost use Rattle.ocl_types.specs.Scope.{VariableScope};
    ghost use Rattle.ocl_types.specs.ScopeView.{scope_view};
    ghost use Rattle.ocl_types.specs.ScopeIndex.{IsIndexed};

    ghost Value = { VariableScope };

    ghost view = { λ s. scope_view s.variables.items };

    ghost invariant = { λ s. IsIndexed s.variables.items s.named s.implicit.items };
}

impl<'t> Scope<'t> {
    /// The object of the context class alone: its features can be named without it.
    pub(crate) fn outermost(alloc: Global, context: ClassNo) -> Result<Scope<'t>, TypeFault>
        ensures value { IfOk result (λ s. s ≡ spec.outermost context) }
        ensures known { (m : Classes) → context < length m.classes
            → IfOk result (AreKnownVariables m) }
        ensures fault { IfErr result (λ e. e ≡ OutOfMemory) }
    {
        let mut scope = Scope {
            variables: Vec::new(alloc),
            named: BTreeMap::new(alloc),
            implicit: Vec::new(alloc),
        };
        scope.push_implicit(Kind::Scalar(ScalarKind::Class(context)))?;
        Ok(scope)
    }

    /// How many variables there are: the number of the next one.
    pub(crate) fn len(&self) -> usize
        ensures { result ≡ length self.now }
    {
        self.variables.len()
    }

    /// One more variable, of this name.
    #[tactic(auto, using(crate::proofs::Scopes::scopes))]
    #[inline(never)]
    pub(crate) fn push_named(&mut self, name: &'t Name, kind: Kind) -> Result<(), TypeFault>
        ensures pushed { OnOk result (self.new
            ≡ spec.inside self.old (spec.scope_variable (spec.Named name.now) kind)) }
        ensures fault { IfErr result (λ e. e ≡ OutOfMemory) }
    {
        let name = name.as_str();
        let number = self.variables.len();
        let variable = ScopeVariable {
            name: Some(name),
            is_implicit: false,
            kind,
            hides: number_of(&self.named, name),
        };
        push(&mut self.variables, variable)?;
        match set_number(&mut self.named, name, number) {
            Ok(()) => Ok(()),
            Err(fault) => {
                self.variables.pop();
                Err(fault)
            }
        }
    }

    /// One more variable, whose features can be named without it.
    #[tactic(auto, using(crate::proofs::Scopes::scopes))]
    pub(crate) fn push_implicit(&mut self, kind: Kind) -> Result<(), TypeFault>
        ensures pushed { OnOk result (self.new
            ≡ spec.inside self.old (spec.scope_variable spec.Implicit kind)) }
        ensures fault { IfErr result (λ e. e ≡ OutOfMemory) }
    {
        let number = self.variables.len();
        let variable = ScopeVariable {
            name: None,
            is_implicit: true,
            kind,
            hides: None,
        };
        let implicit = ImplicitVariable {
            number,
            kind: variable.kind,
        };
        push(&mut self.variables, variable)?;
        match push(&mut self.implicit, implicit) {
            Ok(()) => Ok(()),
            Err(fault) => {
                self.variables.pop();
                Err(fault)
            }
        }
    }

    /// One more variable, which no expression can name.
    #[tactic(auto, using(crate::proofs::Scopes::scopes))]
    pub(crate) fn push_hidden(&mut self, kind: Kind) -> Result<(), TypeFault>
        ensures pushed { OnOk result (self.new
            ≡ spec.inside self.old (spec.scope_variable spec.Hidden kind)) }
        ensures fault { IfErr result (λ e. e ≡ OutOfMemory) }
    {
        let variable = ScopeVariable {
            name: None,
            is_implicit: false,
            kind,
            hides: None,
        };
        push(&mut self.variables, variable)?;
        Ok(())
    }

    /// The outermost variables alone, this many.
    pub(crate) fn cut(&mut self, len: usize)
        ensures { self.new ≡ take len self.old }
    {
        'inner: while self.len() > len {
            self.pop();
        }
    }

    /// All but the innermost variable.
    fn pop(&mut self)
        requires { 0 < length self.old }
        ensures { self.new ≡ take (length self.old - 1) self.old }
    {
        let Some(variable) = self.variables.pop() else {
            return;
        };
        match variable.name {
            Some(name) => restore(&mut self.named, name, variable.hides),
            None if variable.is_implicit => {
                self.implicit.pop();
            }
            None => (),
        }
    }

    /// The innermost variable of this name, by its number.
    pub(crate) fn variable_named(&self, name: &str) -> Option<(usize, Kind)>
        ensures found { option_map typed_variable result
            ≡ spec.innermost (spec.by_binder name.now) 0 self.now }
        ensures known { (m : Classes) → AreKnownVariables m self.now
            → IfSome result (λ x. IsKindOf m x.1) }
    {
        match number_of(&self.named, name) {
            Some(number) => Some((number, self.variables[number].kind)),
            None => None,
        }
    }

    /// The feature of this name of the innermost variable that needn't be named and has it.
    pub(crate) fn feature_named(&self, model: &ClassModel, name: &str) -> Option<(usize, FeatureNo)>
        requires { AreKnownVariables model.now self.now }
        ensures found { option_map (typed_feature model.now) result
            ≡ spec.innermost (λ n v. spec.by_feature model.now name.now n v.binder v.kind) 0
            self.now }
        ensures in_range { IfSome result (λ x. x.1 < length model.now.features) }
    {
        innermost_feature(model, &self.implicit, name)
    }
}

/// Puts an item at a list's end.
fn push<T: Drop>(items: &mut Vec<T>, item: T) -> Result<(), TypeFault>
    ensures pushed { OnOk result (items.new.items ≡ items.old.items ++ item ∷ []) }
    ensures unchanged { OnErr result (items.new.items ≡ items.old.items) }
    ensures fault { IfErr result (λ e. e ≡ OutOfMemory) }
{
    items.push(item)?;
    Ok(())
}

/// The number of a name.
fn number_of(named: &BTreeMap<&str, usize>, name: &str) -> Option<usize>
    ensures { result ≡ name_number named.now name.now }
{
    named.get(name).copied()
}

/// A name has this number from now on.
fn set_number<'t>(
    named: &mut BTreeMap<&'t str, usize>,
    name: &'t str,
    number: usize,
) -> Result<(), TypeFault>
    ensures set { OnOk result ((q : List ℕ) → name_number named.new q
        ≡ update bytes_eq (name_number named.old) name.now (Some number) q) }
    ensures unchanged { OnErr result ((q : List ℕ) → name_number named.new q
        ≡ name_number named.old q) }
    ensures fault { IfErr result (λ e. e ≡ OutOfMemory) }
{
    named.insert(name, number)?;
    Ok(())
}

/// A name has the number again that it had before, or none.
fn restore<'t>(named: &mut BTreeMap<&'t str, usize>, name: &'t str, before: Option<usize>)
    requires { IsSome (name_number named.old name.now) }
    ensures { (q : List ℕ) → name_number named.new q
        ≡ update bytes_eq (name_number named.old) name.now before q }
{
    match before {
        Some(number) => {
            let Ok(_) = named.insert(name, number) else {
                unreachable!()
            };
        }
        None => {
            named.remove(name);
        }
    }
}

/// The feature of this name of an object of this kind.
pub(crate) fn feature_of(model: &ClassModel, kind: &Kind, name: &str) -> Option<FeatureNo>
    requires { IsKindOf model.now kind.now }
    ensures found { (source : CoreTree) → spec.feature_on model.now source result
        ≡ spec.feature_of model.now source kind.now name.now }
    ensures in_range { IfSome result (λ f. f < length model.now.features) }
{
    match kind {
        Kind::Scalar(ScalarKind::Class(class)) => model.feature(*class, name),
        _ => None,
    }
}

/// The feature of this name of the last of these variables that has it.
fn innermost_feature(
    model: &ClassModel,
    variables: &[ImplicitVariable],
    name: &str,
) -> Option<(usize, FeatureNo)>
    requires { All (λ v. IsKindOf model.now v.kind) variables.now }
    ensures found { option_map (typed_feature model.now) result
        ≡ last_feature model.now name.now variables.now }
    ensures in_range { IfSome result (λ x. x.1 < length model.now.features) }
{
    let mut left = variables.len();
    'variables: while left > 0 {
        left -= 1;
        let variable = &variables[left];
        if let Some(feature) = feature_of(model, &variable.kind, name) {
            return Some((variable.number, feature));
        }
    }
    None
}
