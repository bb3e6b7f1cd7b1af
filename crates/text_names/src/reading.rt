//! The names that the text of an expression gives to variables.

ghost use Rattle.std.specs.Prelude.{◌≡◌, [], ◌∷◌, ◌++◌, bytes_eq, drop, map, IfOk, OnOk, string_bytes};
ghost use Rattle.ocl_base.specs.Lists.{is_among};
ghost use Rattle.ocl_core.specs.CoreView.{core_view};
ghost use Rattle.ocl_text.specs.Tree.{trees_of};
ghost use Rattle.ocl_text.specs.View.{view, bound_of, view_variables};
ghost use Rattle.text_names.specs.GivenNames.{is_said, is_next, passed, bound, dot_passed, name_passed, prefix_passed, navigation_passed, call_passed, takes_classes, with_variables, names_bound, expression_read, expressions_read, names_given, given_names};
ghost use Rattle.text_names.specs.ReadingWalk.{reading_view, names_seen, link_read, links_read, bindings_read, seen_behind};

use crate::marks::{Mark, put_marks};
use ocl_base::OutOfMemory;
use ocl_core::Core;
use ocl_text::{Binding, Expression, Link, Navigation, PrefixOperator, Variables};
use std::alloc::Global;

/// A reading of a text beside the marks of its tree.
#[derive(Drop)]
struct Reading<'t> {
    /// The marks that are left.
    left: &'t [Mark],
    /// Whether those before them are what the text says.
    agrees: bool,
    /// The names of the variables that the text sees where it is read.
    seen: Vec<&'t str>,
    /// The names of all variables that are bound so far.
    names: Vec<String>,
}

/// Whether a mark is what the text says.
fn is_said(said: Mark, mark: Mark) -> bool
    ensures { result ≡ is_said said mark }
{
    match said {
        Mark::Leaf => matches!(mark, Mark::Leaf),
        Mark::Instances => matches!(mark, Mark::Instances),
        Mark::Feature => matches!(mark, Mark::Feature),
        Mark::Operation => matches!(mark, Mark::Operation),
        Mark::Collected => matches!(mark, Mark::Collected),
        Mark::Bound => matches!(mark, Mark::Bound | Mark::Collected),
    }
}

/// Whether the next mark is what the text says.
fn is_next(said: Mark, marks: &[Mark]) -> bool
    ensures { result ≡ is_next said marks.now }
{
    match marks {
        [] => false,
        [mark, ..] => is_said(said, *mark),
    }
}

/// The marks behind the next one.
fn after_next(marks: &[Mark]) -> &[Mark]
    ensures { result.now ≡ drop 1 marks.entry.now }
{
    match marks {
        [] => &[],
        [_, rest @ ..] => rest,
    }
}

/// Whether a name is one of several.
fn is_one(names: &[&str], name: &str) -> bool
    ensures { result ≡ is_among bytes_eq (map (λ n. n.now) names.now) name.now }
{
    'names: for other in names {
        if name == *other {
            return true;
        }
    }
    false
}

impl<'t> Reading<'t> {
    /// Passes the next mark.
    fn pass(&mut self, said: Mark)
        ensures read { reading_view self.new ≡ passed said (reading_view self.old) }
        ensures seen { names_seen self.new ≡ names_seen self.old }
    {
        self.agrees = self.agrees && is_next(said, self.left);
        self.left = after_next(self.left);
    }

    /// Passes a variable that is bound, which has this name.
    fn bind(&mut self, alloc: Global, name: &str) -> Result<(), OutOfMemory>
        ensures read { OnOk result (reading_view self.new ≡
            bound name.now (reading_view self.old)) }
        ensures seen { OnOk result (names_seen self.new ≡ names_seen self.old) }
    {
        self.pass(Mark::Bound);
        let mut copy = String::new(alloc);
        copy.push_str(name)?;
        self.names.push(copy)?;
        Ok(())
    }

    /// Passes a variable by whose name the text speaks of it from here on.
    fn bind_named(&mut self, alloc: Global, name: &'t str) -> Result<(), OutOfMemory>
        ensures read { OnOk result (reading_view self.new ≡
            bound name.now (reading_view self.old)) }
        ensures seen { OnOk result (names_seen self.new ≡ names_seen self.old ++ name.now ∷ []) }
    {
        self.bind(alloc, name)?;
        self.seen.push(name)?;
        Ok(())
    }

    /// Passes a bare name: a class, of which all instances are taken; a variable; or a feature of one that has no name.
    fn pass_name(&mut self, name: &str)
        ensures read { reading_view self.new ≡
            name_passed (names_seen self.old) name.now (reading_view self.old) }
        ensures seen { names_seen self.new ≡ names_seen self.old }
    {
        if is_next(Mark::Instances, self.left) {
            self.pass(Mark::Instances);
        } else if is_one(&self.seen, name) {
            self.pass(Mark::Leaf);
        } else {
            self.pass(Mark::Leaf);
            self.pass(Mark::Feature);
        }
    }

    /// Passes an operator before its operand.
    fn pass_prefix(&mut self, operator: PrefixOperator)
        ensures read { reading_view self.new ≡
            prefix_passed operator (reading_view self.old) }
        ensures seen { names_seen self.new ≡ names_seen self.old }
    {
        match operator {
            PrefixOperator::Negate => self.pass(Mark::Operation),
            PrefixOperator::Not => {}
        }
    }

    /// Passes the variable of a dot on a collection, if it is one.
    fn pass_dot(&mut self, alloc: Global) -> Result<(), OutOfMemory>
        ensures read { OnOk result (reading_view self.new ≡ dot_passed (reading_view self.old)) }
        ensures seen { OnOk result (names_seen self.new ≡ names_seen self.old) }
    {
        if is_next(Mark::Collected, self.left) {
            self.bind(alloc, "")?;
            self.pass(Mark::Leaf);
        }
        Ok(())
    }

    /// Passes a dot or an arrow.
    fn pass_navigation(&mut self, alloc: Global, navigation: Navigation) -> Result<(), OutOfMemory>
        ensures read { OnOk result (reading_view self.new ≡
            navigation_passed navigation (reading_view self.old)) }
        ensures seen { OnOk result (names_seen self.new ≡ names_seen self.old) }
    {
        match navigation {
            Navigation::Dot => self.pass_dot(alloc),
            Navigation::Arrow => Ok(()),
        }
    }

    /// Passes an operation; all instances have been passed with their class.
    fn pass_call(
        &mut self,
        alloc: Global,
        navigation: Navigation,
        name: &str,
    ) -> Result<(), OutOfMemory>
        ensures read { OnOk result (reading_view self.new ≡
            call_passed navigation name.now (reading_view self.old)) }
        ensures seen { OnOk result (names_seen self.new ≡ names_seen self.old) }
    {
        if name == "allInstances" {
            return Ok(());
        }
        self.pass_navigation(alloc, navigation)?;
        self.pass(Mark::Operation);
        Ok(())
    }

    /// Passes the variables of an iteration. Two run over one source, which is a variable itself.
    fn bind_variables(&mut self, alloc: Global, variables: &'t Variables) -> Result<(), OutOfMemory>
        ensures read { OnOk result (reading_view self.new ≡
            with_variables (view_variables variables.now) (reading_view self.old)) }
        ensures seen { OnOk result (names_seen self.new ≡
            names_seen self.old ++ names_bound (view_variables variables.now)) }
    {
        match variables {
            Variables::Unnamed => self.bind(alloc, ""),
            Variables::Single(variable) => self.bind_named(alloc, variable.name.as_str()),
            Variables::Pair(first, second) => {
                self.bind(alloc, "")?;
                self.pass(Mark::Leaf);
                self.bind_named(alloc, first.name.as_str())?;
                self.pass(Mark::Leaf);
                self.bind_named(alloc, second.name.as_str())
            }
        }
    }
}

/// Whether an operation's arguments are names of classes.
fn takes_classes(name: &str) -> bool
    ensures { result ≡ takes_classes name.now }
{
    name == "oclIsKindOf" || name == "oclIsTypeOf" || name == "oclAsType"
}

/// Reads an expression.
#[cycle(reading)]
#[tactic(auto, using(ocl_text::proofs::ForAbove::views))]
fn read<'t>(
    alloc: Global,
    reading: &mut Reading<'t>,
    expression: &'t Expression,
) -> Result<(), OutOfMemory>
    ensures read { OnOk result (reading_view reading.new ≡ expression_read
        (view expression.now) (names_seen reading.old) (reading_view reading.old)) }
    ensures seen { OnOk result (names_seen reading.new ≡ names_seen reading.old) }
{
    match expression {
        Expression::Number { .. }
        | Expression::String { .. }
        | Expression::Keyword { .. }
        | Expression::EnumerationLiteral { .. } => {
            reading.pass(Mark::Leaf);
            Ok(())
        }
        Expression::Name { name, .. } => {
            reading.pass_name(name.as_str());
            Ok(())
        }
        Expression::Prefix {
            operator,
            operand,
            ..
        } => {
            read(alloc, reading, operand)?;
            reading.pass_prefix(*operator);
            Ok(())
        }
        Expression::Spine { first, links } => {
            read(alloc, reading, first)?;
            read_links(alloc, reading, links)
        }
        Expression::Let {
            first,
            others,
            body,
            ..
        } => {
            let outside = reading.seen.len();
            read_binding(alloc, reading, first)?;
            read_bindings(alloc, reading, others)?;
            read(alloc, reading, body)?;
            reading.seen.truncate(outside);
            Ok(())
        }
        Expression::If {
            condition,
            then_branch,
            else_branch,
            ..
        } => {
            read(alloc, reading, condition)?;
            read(alloc, reading, then_branch)?;
            read(alloc, reading, else_branch)
        }
    }
}

/// Reads a binding of a `let`.
#[cycle(reading)]
#[tactic(auto, using(ocl_text::proofs::ForAbove::views))]
fn read_binding<'t>(
    alloc: Global,
    reading: &mut Reading<'t>,
    binding: &'t Binding,
) -> Result<(), OutOfMemory>
    ensures read { OnOk result (reading_view reading.new ≡ bindings_read
        (bound_of binding.now ∷ []) (names_seen reading.old) (reading_view reading.old)) }
    ensures seen { OnOk result (names_seen reading.new ≡ seen_behind
        (bound_of binding.now ∷ []) (names_seen reading.old)) }
{
    read(alloc, reading, &binding.value)?;
    reading.bind_named(alloc, binding.name.as_str())
}

/// Reads several bindings.
#[cycle(reading)]
fn read_bindings<'t>(
    alloc: Global,
    reading: &mut Reading<'t>,
    bindings: &'t [Binding],
) -> Result<(), OutOfMemory>
    ensures read { OnOk result (reading_view reading.new ≡ bindings_read
        (map bound_of bindings.now) (names_seen reading.old) (reading_view reading.old)) }
    ensures seen { OnOk result (names_seen reading.new ≡ seen_behind
        (map bound_of bindings.now) (names_seen reading.old)) }
{
    'bindings: for binding in bindings {
        read_binding(alloc, reading, binding)?;
    }
    Ok(())
}

/// Reads links.
#[cycle(reading)]
fn read_links<'t>(
    alloc: Global,
    reading: &mut Reading<'t>,
    links: &'t [Link],
) -> Result<(), OutOfMemory>
    ensures read { OnOk result (reading_view reading.new ≡ links_read links.now
        (names_seen reading.old) (reading_view reading.old)) }
    ensures seen { OnOk result (names_seen reading.new ≡ names_seen reading.old) }
{
    'links: for link in links {
        read_link(alloc, reading, link)?;
    }
    Ok(())
}

/// Reads what a link has besides what it stands on.
#[cycle(reading)]
#[tactic(auto, using(ocl_text::proofs::ForAbove::views))]
fn read_link<'t>(
    alloc: Global,
    reading: &mut Reading<'t>,
    link: &'t Link,
) -> Result<(), OutOfMemory>
    ensures read { OnOk result (reading_view reading.new ≡ link_read link.now
        (names_seen reading.old) (reading_view reading.old)) }
    ensures seen { OnOk result (names_seen reading.new ≡ names_seen reading.old) }
{
    match link {
        Link::Binary { right, .. } => {
            reading.pass(Mark::Operation);
            read(alloc, reading, right)
        }
        Link::Property { .. } => {
            reading.pass_dot(alloc)?;
            reading.pass(Mark::Feature);
            Ok(())
        }
        Link::Call {
            navigation,
            name,
            arguments,
            ..
        } => {
            reading.pass_call(alloc, *navigation, name.as_str())?;
            if takes_classes(name.as_str()) {
                return Ok(());
            }
            read_all(alloc, reading, arguments)
        }
        Link::Iterate {
            variables,
            body,
            ..
        } => {
            let outside = reading.seen.len();
            reading.bind_variables(alloc, variables)?;
            read(alloc, reading, body)?;
            reading.seen.truncate(outside);
            Ok(())
        }
        Link::Fold {
            variable,
            accumulator,
            body,
            ..
        } => {
            let outside = reading.seen.len();
            read(alloc, reading, &accumulator.value)?;
            reading.bind_named(alloc, variable.name.as_str())?;
            reading.bind_named(alloc, accumulator.name.as_str())?;
            read(alloc, reading, body)?;
            reading.seen.truncate(outside);
            Ok(())
        }
    }
}

/// Reads several expressions.
#[cycle(reading)]
fn read_all<'t>(
    alloc: Global,
    reading: &mut Reading<'t>,
    expressions: &'t [Expression],
) -> Result<(), OutOfMemory>
    ensures read { OnOk result (reading_view reading.new ≡ expressions_read
        (trees_of (map view expressions.now)) (names_seen reading.old) (reading_view reading.old)) }
    ensures seen { OnOk result (names_seen reading.new ≡ names_seen reading.old) }
{
    'expressions: for expression in expressions {
        read(alloc, reading, expression)?;
    }
    Ok(())
}

/// The names of a reading up to the tree's end; none, where the tree isn't the expression's.
fn names_given(alloc: Global, reading: Reading<'_>) -> Vec<String>
    ensures { map string_bytes result.items ≡ names_given (reading_view reading.entry) }
{
    let Reading {
        left,
        agrees,
        names,
        ..
    } = reading;
    match (agrees, left) {
        (true, []) => names,
        _ => Vec::new(alloc),
    }
}

/// The names that the text of an expression gives to the variables of its core tree, in the order in which they are bound; an
/// empty one where it gives none. No names at all, where the tree isn't the expression's.
pub fn given_names(
    alloc: Global,
    expression: &Expression,
    tree: &Core,
) -> Result<Vec<String>, OutOfMemory>
    ensures { IfOk result (λ names. map string_bytes names.items ≡
        given_names (view expression.now) (core_view tree.now)) }
{
    let mut marks = Vec::new(alloc);
    put_marks(&mut marks, tree)?;
    let mut reading = Reading {
        left: &marks,
        agrees: true,
        seen: Vec::new(alloc),
        names: Vec::new(alloc),
    };
    read(alloc, &mut reading, expression)?;
    Ok(names_given(alloc, reading))
}
