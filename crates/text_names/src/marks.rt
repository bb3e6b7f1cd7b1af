//! What a core tree has in the order of its text: by it the text's variables are found in the tree.

ghost use Rattle.std.specs.Prelude.{◌≡◌, [], ◌∷◌, ◌++◌, map, OnOk};
ghost use Rattle.ocl_core.specs.Core.{cores_of};
ghost use Rattle.ocl_core.specs.CoreView.{core_view};
ghost use Rattle.text_names.specs.GivenNames.{operation_marks, variable_mark, marks_of, all_marks};
ghost use Rattle.text_names.specs.ReadingWalk.{link_marks, links_marks, values_marks};

use ocl_base::OutOfMemory;
use ocl_core::{Core, CoreLink, Iteration, Operator, PlainOperator};

/// A part of a core tree that its text has too, or a variable that the tree binds.
#[derive(Clone, Copy)]
pub(crate) enum Mark {
    /// A constant or a variable.
    Leaf,
    /// All instances of a class.
    Instances,
    /// A feature of what stands before it.
    Feature,
    /// An operation on what stands before it, other than `not`.
    Operation,
    /// The variable of a `collect`, which the text may leave out.
    Collected,
    /// Another variable.
    Bound,
}

/// Puts the marks of a tree.
#[cycle(marks)]
#[tactic(auto, using(ocl_core::proofs::ForAbove::views))]
pub(crate) fn put_marks(marks: &mut Vec<Mark>, core: &Core) -> Result<(), OutOfMemory>
    ensures { OnOk result (marks.new.items ≡ marks.old.items ++ marks_of (core_view core.now)) }
{
    match core {
        Core::Constant { .. } | Core::Variable { .. } => put_mark(marks, Mark::Leaf),
        Core::AllInstances { .. } => put_mark(marks, Mark::Instances),
        Core::Spine { first, links } => {
            put_marks(marks, first)?;
            put_links(marks, links)
        }
        Core::Let { values, body } => {
            put_values(marks, values)?;
            put_marks(marks, body)
        }
        Core::If {
            condition,
            then_branch,
            else_branch,
            ..
        } => {
            put_marks(marks, condition)?;
            put_marks(marks, then_branch)?;
            put_marks(marks, else_branch)
        }
    }
}

/// Puts a mark.
fn put_mark(marks: &mut Vec<Mark>, mark: Mark) -> Result<(), OutOfMemory>
    ensures { OnOk result (marks.new.items ≡ marks.old.items ++ mark ∷ []) }
{
    marks.push(mark)?;
    Ok(())
}

/// Puts the marks of links.
#[cycle(marks)]
fn put_links(marks: &mut Vec<Mark>, links: &[CoreLink]) -> Result<(), OutOfMemory>
    ensures { OnOk result (marks.new.items ≡ marks.old.items ++ links_marks links.now) }
{
    'links: for link in links {
        put_link(marks, link)?;
    }
    Ok(())
}

/// Puts the marks that a link has besides those of what it stands on.
#[cycle(marks)]
#[tactic(auto, using(ocl_core::proofs::ForAbove::views))]
fn put_link(marks: &mut Vec<Mark>, link: &CoreLink) -> Result<(), OutOfMemory>
    ensures { OnOk result (marks.new.items ≡ marks.old.items ++ link_marks link.now) }
{
    match link {
        CoreLink::Feature { .. } => put_mark(marks, Mark::Feature),
        CoreLink::Operation { operator, others } => {
            put_operation(marks, *operator)?;
            put_all(marks, others)
        }
        CoreLink::AsCollection { .. } => Ok(()),
        CoreLink::Iterate { iteration, body } => {
            put_mark(marks, variable_mark(*iteration))?;
            put_marks(marks, body)
        }
        CoreLink::Fold { start, body, .. } => {
            put_marks(marks, start)?;
            put_mark(marks, Mark::Bound)?;
            put_mark(marks, Mark::Bound)?;
            put_marks(marks, body)
        }
    }
}

/// Puts the mark of an operation; `not`, which stands for the second half of some names, has none.
fn put_operation(marks: &mut Vec<Mark>, operator: Operator) -> Result<(), OutOfMemory>
    ensures { OnOk result (marks.new.items ≡ marks.old.items ++ operation_marks operator) }
{
    match operator {
        Operator::Plain(PlainOperator::Not) => Ok(()),
        _ => put_mark(marks, Mark::Operation),
    }
}

/// The mark of the variable of an iteration.
fn variable_mark(iteration: Iteration) -> Mark
    ensures { result ≡ variable_mark iteration }
{
    match iteration {
        Iteration::Collect | Iteration::CollectFlat => Mark::Collected,
        _ => Mark::Bound,
    }
}

/// Puts the marks of several trees.
#[cycle(marks)]
fn put_all(marks: &mut Vec<Mark>, cores: &[Core]) -> Result<(), OutOfMemory>
    ensures { OnOk result (marks.new.items ≡ marks.old.items ++
        all_marks (cores_of (map core_view cores.now))) }
{
    'cores: for core in cores {
        put_marks(marks, core)?;
    }
    Ok(())
}

/// Puts the marks of values, and of the variables that have them.
#[cycle(marks)]
fn put_values(marks: &mut Vec<Mark>, values: &[Core]) -> Result<(), OutOfMemory>
    ensures { OnOk result (marks.new.items ≡ marks.old.items ++
        values_marks (map core_view values.now)) }
{
    'values: for value in values {
        put_marks(marks, value)?;
        put_mark(marks, Mark::Bound)?;
    }
    Ok(())
}
