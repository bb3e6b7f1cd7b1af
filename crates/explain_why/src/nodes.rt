//! The lines of links, each with what stands before it and its value.

ghost use Rattle.std.specs.Prelude.{◌≡◌, ◌++◌, ◌≤◌, length, map, take, IfOk, OnOk, string_bytes};
ghost use Rattle.ocl_core.specs.CoreView.{core_view, core_link_of, core_spine};
ghost use Rattle.ocl_semantics.specs.Meaning.{meaning};
ghost use Rattle.owned_values.specs.Meant.{meant, IsValueThere};
ghost use Rattle.ocl_semantics.specs.Resolved.{IsResolved, AreThere};
ghost use Rattle.ocl_semantics.specs.Evaluated.{on_null, IsLinkResolved, AreLinksResolved};
ghost use Rattle.explain_why.specs.Explanation.{explained};
ghost use Rattle.explain_why.specs.Names.{past};
ghost use Rattle.explain_why.specs.NameWalk.{naming_view};
ghost use Rattle.explain_why.specs.PartWalk.{node_reason, node_line, is_source_shown, below_lines};

use crate::explainer::Explainer;
use crate::names::{Naming, next, past_spine};
use crate::operands::is_first_shown;
use crate::reasons::{put_feature_reason, put_operation_reason};
use crate::texts::{link_text, spine_text};
use ocl_base::OutOfMemory;
use ocl_core::{Core, CoreLink};
use ocl_semantics::{Variables, evaluate, evaluate_all, evaluate_link, evaluate_links};
use owned_values::Value;

/// What is known of names behind a first operand with the links before the one of this number.
pub(crate) fn naming_before<'n, 's>(
    first: &Core,
    links: &[CoreLink],
    from: usize,
    naming: Naming<'n, 's>,
) -> Result<Naming<'n, 's>, OutOfMemory>
    requires { from ≤ length links.now }
    ensures { IfOk result (λ n. naming_view n ≡ past
        (core_spine (core_view first.now) (map core_link_of (take from links.now)))
        (naming_view naming.entry)) }
{
    past_spine(first, &links[..from], naming)
}

/// What is left to put below the nodes of links.
#[derive(Clone, Copy)]
pub(crate) struct Below {
    /// The level of what is left.
    pub(crate) level: usize,
    /// The number of the first link whose node was put.
    pub(crate) from: usize,
    /// Whether the first operand is to be put too.
    pub(crate) is_whole: bool,
}

impl<'a> Explainer<'a, '_, '_> {
    /// Computes the value of a first operand with links.
    fn spine_value(
        self,
        first: &'a Core,
        links: &'a [CoreLink],
        variables: &mut Variables<'a>,
    ) -> Result<Value<'a>, OutOfMemory>
        requires first { IsResolved self.population.now.content.model (core_view first.now) }
        requires links { AreLinksResolved self.population.now.content.model links.now }
        requires there { AreThere self.population.now.content variables.old }
        ensures value { IfOk result (λ v. meant v ≡ meaning self.entry.population.now.content
            (core_spine (core_view first.now) (map core_link_of links.now)) variables.old) }
        ensures there { IfOk result (λ v.
            IsValueThere self.entry.population.now.content (meant v)) }
        ensures kept { OnOk result (variables.new ≡ variables.old) }
    {
        let value = evaluate(self.alloc, self.population, first, variables)?;
        evaluate_links(self.alloc, self.population, value, links, variables)
    }

    /// Computes the value of a first operand with the links before the one of this number.
    pub(crate) fn value_before(
        self,
        first: &'a Core,
        links: &'a [CoreLink],
        from: usize,
        variables: &mut Variables<'a>,
    ) -> Result<Value<'a>, OutOfMemory>
        requires first { IsResolved self.population.now.content.model (core_view first.now) }
        requires links { AreLinksResolved self.population.now.content.model links.now }
        requires from { from ≤ length links.now }
        requires there { AreThere self.population.now.content variables.old }
        ensures value { IfOk result (λ v. meant v ≡ meaning self.entry.population.now.content
            (core_spine (core_view first.now) (map core_link_of (take from links.now)))
            variables.old) }
        ensures there { IfOk result (λ v.
            IsValueThere self.entry.population.now.content (meant v)) }
        ensures kept { OnOk result (variables.new ≡ variables.old) }
    {
        self.spine_value(first, &links[..from], variables)
    }

    /// Puts links on a first operand, the last first, each below what stands on it, with its value, down to one that is
    /// decided without what stands before it. It answers what is left.
    pub(crate) fn put_nodes(
        self,
        out: &mut String,
        first: &'a Core,
        links: &'a [CoreLink],
        variables: &mut Variables<'a>,
    ) -> Result<Below, OutOfMemory>
        requires first { IsResolved self.population.now.content.model (core_view first.now) }
        requires links { AreLinksResolved self.population.now.content.model links.now }
        requires there { AreThere self.population.now.content variables.old }
        ensures text { IfOk result (λ b. string_bytes out.new ++ below_lines
            self.entry.population.now.content (core_view first.now) links.now b.level b.from
            b.is_whole variables.old (naming_view self.entry.naming) ≡
            string_bytes out.old ++ explained self.entry.population.now.content
            (core_spine (core_view first.now) (map core_link_of links.now)) self.entry.level
            variables.old (naming_view self.entry.naming)) }
        ensures within { IfOk result (λ b. b.from ≤ length links.now) }
        ensures kept { OnOk result (variables.new ≡ variables.old) }
    {
        let mut level = self.level;
        for index in (0..links.len()).rev() {
            let here = Explainer { level, ..self };
            let is_shown = here.put_node(out, first, &links[..index], &links[index], variables)?;
            level = next(level)?;
            if !is_shown {
                return Ok(Below {
                    level,
                    from: index,
                    is_whole: false,
                });
            }
        }
        Ok(Below {
            level,
            from: 0,
            is_whole: true,
        })
    }

    /// Puts a link on what stands before it, with its value, and why that is null or invalid. It answers whether what
    /// stands before it is shown.
    fn put_node(
        self,
        out: &mut String,
        first: &'a Core,
        before: &'a [CoreLink],
        link: &'a CoreLink,
        variables: &mut Variables<'a>,
    ) -> Result<bool, OutOfMemory>
        requires first { IsResolved self.population.now.content.model (core_view first.now) }
        requires before { AreLinksResolved self.population.now.content.model before.now }
        requires link { IsLinkResolved self.population.now.content.model link.now }
        requires there { AreThere self.population.now.content variables.old }
        ensures text { OnOk result (string_bytes out.new ≡ string_bytes out.old ++ node_line
            self.entry.population.now.content link.now
            (core_spine (core_view first.now) (map core_link_of before.now)) self.entry.level
            variables.old (naming_view self.entry.naming)) }
        ensures shown { IfOk result (λ b. b ≡ is_source_shown self.entry.population.now.content
            (on_null link.now) variables.old (meaning self.entry.population.now.content
            (core_spine (core_view first.now) (map core_link_of before.now)) variables.old)) }
        ensures kept { OnOk result (variables.new ≡ variables.old) }
    {
        let model = self.population.model();
        let operand = spine_text(self.alloc, model, first, before, self.naming)?;
        let behind = past_spine(first, before, self.naming)?;
        let text = link_text(self.alloc, model, link, behind, &operand)?;
        let source = self.spine_value(first, before, variables)?;
        let gave = evaluate_link(self.alloc, self.population, &source, link, variables)?;
        let reason = self.link_reason(link, &source, &gave, variables)?;
        self.put_part(out, &text.text, &gave, &reason)?;
        self.is_source_shown(link, &source, variables)
    }

    /// Whether what stands before a link, which has this value, is shown.
    #[tactic(auto, using(ocl_core::proofs::ForAbove::views))]
    fn is_source_shown(
        self,
        link: &'a CoreLink,
        source: &Value<'a>,
        variables: &mut Variables<'a>,
    ) -> Result<bool, OutOfMemory>
        requires link { IsLinkResolved self.population.now.content.model link.now }
        requires there { AreThere self.population.now.content variables.old }
        ensures shown { IfOk result (λ b. b ≡ is_source_shown self.entry.population.now.content
            (on_null link.now) variables.old (meant source.now)) }
        ensures kept { OnOk result (variables.new ≡ variables.old) }
    {
        match link {
            CoreLink::Operation { operator, others } => {
                let others = evaluate_all(self.alloc, self.population, others, variables)?;
                Ok(is_first_shown(*operator, source, &others))
            }
            CoreLink::Feature { .. } | CoreLink::AsCollection { .. } => Ok(true),
            CoreLink::Iterate { .. } | CoreLink::Fold { .. } => Ok(true),
        }
    }

    /// Why what a link makes of a value is null or invalid.
    #[tactic(auto, using(ocl_core::proofs::ForAbove::views))]
    fn link_reason(
        self,
        link: &'a CoreLink,
        source: &Value<'a>,
        gave: &Value<'a>,
        variables: &mut Variables<'a>,
    ) -> Result<String, OutOfMemory>
        requires link { IsLinkResolved self.population.now.content.model link.now }
        requires source { IsValueThere self.population.now.content (meant source.now) }
        requires gave { IsValueThere self.population.now.content (meant gave.now) }
        requires there { AreThere self.population.now.content variables.old }
        ensures reason { IfOk result (λ s. string_bytes s ≡ node_reason
            self.entry.population.now.content (on_null link.now) variables.old
            (meant source.now) (meant gave.now)) }
        ensures kept { OnOk result (variables.new ≡ variables.old) }
    {
        let (alloc, population) = (self.alloc, self.population);
        let mut reason = String::new(alloc);
        match link {
            CoreLink::Feature { feature } => {
                put_feature_reason(&mut reason, population, *feature, source, gave)?;
            }
            CoreLink::Operation { operator, others } => {
                population.consistent();
                let others = evaluate_all(alloc, population, others, variables)?;
                put_operation_reason(
                    alloc,
                    &mut reason,
                    population,
                    *operator,
                    source,
                    &others,
                    gave,
                )?;
            }
            CoreLink::AsCollection { .. } | CoreLink::Iterate { .. } | CoreLink::Fold { .. } => {}
        }
        Ok(reason)
    }
}
