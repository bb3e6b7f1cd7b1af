//! The explanation of a tree, part by part.

ghost use Rattle.std.specs.Prelude.{◌≡◌, ◌∷◌, ◌++◌, ◌+◌, ◌≤◌, length, map, drop, IfOk, OnOk, string_bytes};
ghost use Rattle.std.specs.List.{AllByRecursion, flat_map};
ghost use Rattle.ocl_core.specs.Core.{cores_of, lets_of};
ghost use Rattle.ocl_core.specs.CoreView.{core_view};
ghost use Rattle.ocl_semantics.specs.Meaning.{meaning};
ghost use Rattle.rule_values.specs.Value.{element_value};
ghost use Rattle.owned_values.specs.Meant.{meant, meant_element, meant_elements, IsElementThere, AreElementsThere, IsValueThere};
ghost use Rattle.ocl_semantics.specs.Resolved.{IsResolved, AreResolved, AreThere};
ghost use Rattle.ocl_semantics.specs.Evaluated.{bindings, IsLinkResolved, AreLinksResolved};
ghost use Rattle.explain_why.specs.Values.{introduced_text};
ghost use Rattle.explain_why.specs.Explanation.{lines_if, bindings_line, batch_of, batch_lines, iteration_lines, accumulation_lines, explained, all_explained};
ghost use Rattle.explain_why.specs.Names.{next_name, past, with_next};
ghost use Rattle.explain_why.specs.NameWalk.{naming_view, inner_view, with_all};
ghost use Rattle.explain_why.specs.Turns.{fold_turn, IsTurnThere, AreTurnsThere};
ghost use Rattle.explain_why.specs.PartWalk.{element_lines, step_lines, link_lines, links_lines, let_value_lines, lets_lines};

use crate::deciding::{Batch, batch_beside, batch_that_decides, deciding_elements};
use crate::explainer::Explainer;
use crate::names::{Inner, Naming, copy_naming, next, next_name, past, past_link, with_next};
use crate::nodes::naming_before;
use crate::operands::are_others_shown;
use crate::pieces::put_more;
use crate::reasons::choice_reason;
use crate::texts::let_text;
use crate::turns::{Turn, told_turns, turns_of};
use ocl_base::OutOfMemory;
use ocl_core::{Core, CoreLink, Iteration};
use ocl_semantics::{Variables, evaluate, evaluate_bodies, evaluate_link};
use owned_values::{Element, Value, copy_value, element_value, is_false, is_true};

/// Where the body of values stands that are put as variables.
#[derive(Drop)]
struct Body<'n> {
    /// The level of its parts.
    level: usize,
    /// The names that are known there.
    inner: Inner<'n>,
}

impl<'a, 'n> Explainer<'a, 'n, '_> {
    /// Puts the parts of a tree.
    #[cycle(explain)]
    #[tactic(auto, using(ocl_core::proofs::ForAbove::views))]
    pub(crate) fn explain(
        self,
        out: &mut String,
        core: &'a Core,
        variables: &mut Variables<'a>,
    ) -> Result<(), OutOfMemory>
        requires resolved { IsResolved self.population.now.content.model (core_view core.now) }
        requires there { AreThere self.population.now.content variables.old }
        ensures text { OnOk result (string_bytes out.new ≡ string_bytes out.old ++ explained
            self.entry.population.now.content (core_view core.now) self.entry.level variables.old
            (naming_view self.entry.naming)) }
        ensures kept { OnOk result (variables.new ≡ variables.old) }
    {
        match core {
            Core::Constant { .. } | Core::Variable { .. } => Ok(()),
            Core::AllInstances { .. } => self.put_tree(out, core, "", variables),
            Core::Spine { first, links } => {
                let below = self.put_nodes(out, first, links, variables)?;
                let rest = Explainer {
                    level: below.level,
                    ..self
                };
                rest.explain_if(out, below.is_whole, first, variables)?;
                let value = self.value_before(first, links, below.from, variables)?;
                let naming = naming_before(first, links, below.from, self.naming)?;
                let behind = Explainer { naming, ..rest };
                behind.explain_links(out, value, links, below.from, variables)
            }
            Core::Let { values, body } => {
                let whole = evaluate(self.alloc, self.population, core, variables)?;
                let below = self.explain_values(out, &whole, values, body, variables)?;
                let within = Explainer {
                    level: below.level,
                    naming: below.inner.naming(),
                    ..self
                };
                within.explain(out, body, variables)?;
                variables.forget(values.len());
                Ok(())
            }
            Core::If {
                condition,
                then_branch,
                else_branch,
                ..
            } => {
                let chosen = evaluate(self.alloc, self.population, condition, variables)?;
                let reason = choice_reason(&chosen);
                self.put_tree(out, core, reason, variables)?;
                let level = next(self.level)?;
                let below = Explainer { level, ..self };
                below.explain(out, condition, variables)?;
                let behind = past(condition, self.naming)?;
                let last = past(then_branch, behind)?;
                if is_true(&chosen) {
                    let naming = behind;
                    Explainer { naming, ..below }.explain(out, then_branch, variables)
                } else if is_false(&chosen) {
                    let naming = last;
                    Explainer { naming, ..below }.explain(out, else_branch, variables)
                } else {
                    Ok(())
                }
            }
        }
    }

    /// Puts the parts of a tree, if it is shown.
    #[cycle(explain)]
    fn explain_if(
        self,
        out: &mut String,
        is_shown: bool,
        core: &'a Core,
        variables: &mut Variables<'a>,
    ) -> Result<(), OutOfMemory>
        requires resolved { IsResolved self.population.now.content.model (core_view core.now) }
        requires there { AreThere self.population.now.content variables.old }
        ensures text { OnOk result (string_bytes out.new ≡ string_bytes out.old ++ lines_if is_shown
            (explained self.entry.population.now.content (core_view core.now) self.entry.level
            variables.old (naming_view self.entry.naming))) }
        ensures kept { OnOk result (variables.new ≡ variables.old) }
    {
        if is_shown {
            return self.explain(out, core, variables);
        }
        Ok(())
    }

    /// Puts each of values as variables of a body: the `let` with the values that are left and the body, and below it the
    /// variable. It answers where the body stands, which sees them all.
    #[cycle(explain)]
    fn explain_values(
        self,
        out: &mut String,
        whole: &Value<'a>,
        values: &'a [Core],
        body: &'a Core,
        variables: &mut Variables<'a>,
    ) -> Result<Body<'n>, OutOfMemory>
        requires values { AllByRecursion (IsResolved self.population.now.content.model)
            (map core_view values.now) }
        requires body { IsResolved self.population.now.content.model (core_view body.now) }
        requires whole { IsValueThere self.population.now.content (meant whole.now) }
        requires there { AreThere self.population.now.content variables.old }
        requires value { meant whole.now ≡ meaning self.population.now.content
            (lets_of (map core_view values.now) (core_view body.now)) variables.old }
        ensures text { OnOk result (string_bytes out.new ≡ string_bytes out.old ++ lets_lines
            self.entry.population.now.content (map core_view values.now) (core_view body.now)
            self.entry.level variables.old (naming_view self.entry.naming)) }
        ensures level { IfOk result (λ b. b.level ≡ self.entry.level + length values.now) }
        ensures names { IfOk result (λ b. inner_view b.inner ≡
            with_all (map core_view values.now) (naming_view self.entry.naming)) }
        ensures bound { OnOk result (variables.new ≡ bindings self.entry.population.now.content
            (map core_view values.now) variables.old) }
        ensures there { OnOk result (AreThere self.entry.population.now.content variables.new) }
        ensures others { OnOk result (drop (length values.now) variables.new ≡ variables.old) }
    {
        let model = self.population.model();
        let mut level = self.level;
        let mut inner = copy_naming(self.alloc, self.naming)?;
        'values: for index in 0..values.len() {
            let text = let_text(self.alloc, model, &values[index..], body, inner.naming())?;
            Explainer { level, ..self }.put_part(out, &text, whole, "")?;
            level = next(level)?;
            let below = Explainer {
                level,
                naming: inner.naming(),
                ..self
            };
            inner = below.explain_bound(out, &values[index], variables)?;
        }
        Ok(Body { level, inner })
    }

    /// Puts a variable with its value and the parts of that, and binds it. It answers what is known of names behind it.
    #[cycle(explain)]
    fn explain_bound(
        self,
        out: &mut String,
        core: &'a Core,
        variables: &mut Variables<'a>,
    ) -> Result<Inner<'n>, OutOfMemory>
        requires resolved { IsResolved self.population.now.content.model (core_view core.now) }
        requires there { AreThere self.population.now.content variables.old }
        ensures text { OnOk result (string_bytes out.new ≡ string_bytes out.old ++ let_value_lines
            self.entry.population.now.content (core_view core.now) self.entry.level variables.old
            (naming_view self.entry.naming)) }
        ensures names { IfOk result (λ n. inner_view n ≡
            with_next (past (core_view core.now) (naming_view self.entry.naming))) }
        ensures bound { OnOk result (variables.new ≡
            meaning self.entry.population.now.content (core_view core.now) variables.old
            ∷ variables.old) }
        ensures there { OnOk result (AreThere self.entry.population.now.content variables.new) }
    {
        let value = evaluate(self.alloc, self.population, core, variables)?;
        let behind = past(core, self.naming)?;
        let name = next_name(self.alloc, behind)?;
        self.put_binding_line(out, &name, &value)?;
        let level = next(self.level)?;
        Explainer { level, ..self }.explain(out, core, variables)?;
        variables.bind(value)?;
        with_next(self.alloc, behind)
    }

    /// Puts the parts of the links from one of this number on, besides the operand of that one, which has this value: other
    /// operands, and the bodies of the elements that decide. Those of each later link stand a level above. The names are
    /// those that are known behind what stands before the first.
    #[cycle(explain)]
    fn explain_links(
        self,
        out: &mut String,
        first: Value<'a>,
        links: &'a [CoreLink],
        from: usize,
        variables: &mut Variables<'a>,
    ) -> Result<(), OutOfMemory>
        requires first { IsValueThere self.population.now.content (meant first) }
        requires links { AreLinksResolved self.population.now.content.model links.now }
        requires from { from ≤ length links.now }
        requires there { AreThere self.population.now.content variables.old }
        ensures text { OnOk result (string_bytes out.new ≡ string_bytes out.old ++ links_lines
            self.entry.population.now.content (drop from links.now) self.entry.level variables.old
            (naming_view self.entry.naming) (meant first.entry)) }
        ensures kept { OnOk result (variables.new ≡ variables.old) }
    {
        let mut level = self.level;
        let mut value = first;
        let mut naming = self.naming;
        'links: for index in from..links.len() {
            let link = &links[index];
            let here = Explainer {
                level,
                naming,
                ..self
            };
            here.explain_link(out, &value, link, variables)?;
            value = evaluate_link(self.alloc, self.population, &value, link, variables)?;
            naming = past_link(link, naming)?;
            level = level.saturating_sub(1);
        }
        Ok(())
    }

    /// Puts the parts of a link besides what stands before it, of which this is the value and behind which these names are
    /// known.
    #[cycle(explain)]
    #[tactic(auto, using(ocl_core::proofs::ForAbove::views))]
    fn explain_link(
        self,
        out: &mut String,
        source: &Value<'a>,
        link: &'a CoreLink,
        variables: &mut Variables<'a>,
    ) -> Result<(), OutOfMemory>
        requires source { IsValueThere self.population.now.content (meant source.now) }
        requires link { IsLinkResolved self.population.now.content.model link.now }
        requires there { AreThere self.population.now.content variables.old }
        ensures text { OnOk result (string_bytes out.new ≡ string_bytes out.old ++ link_lines
            self.entry.population.now.content link.now self.entry.level variables.old
            (naming_view self.entry.naming) (meant source.now)) }
        ensures kept { OnOk result (variables.new ≡ variables.old) }
    {
        match link {
            CoreLink::Feature { .. } | CoreLink::AsCollection { .. } => Ok(()),
            CoreLink::Operation { operator, others } => {
                if are_others_shown(*operator, source) {
                    self.explain_all(out, others, variables)
                } else {
                    Ok(())
                }
            }
            CoreLink::Iterate { iteration, body } => {
                self.explain_iteration(out, *iteration, source, body, variables)
            }
            CoreLink::Fold { start, body, .. } => {
                self.explain(out, start, variables)?;
                let naming = past(start, self.naming)?;
                let start = evaluate(self.alloc, self.population, start, variables)?;
                let behind = Explainer { naming, ..self };
                behind.explain_fold(out, source, start, body, variables)
            }
        }
    }

    /// Puts the parts of several trees.
    #[cycle(explain)]
    fn explain_all(
        self,
        out: &mut String,
        cores: &'a [Core],
        variables: &mut Variables<'a>,
    ) -> Result<(), OutOfMemory>
        requires resolved { AreResolved self.population.now.content.model
            (cores_of (map core_view cores.now)) }
        requires there { AreThere self.population.now.content variables.old }
        ensures text { OnOk result (string_bytes out.new ≡ string_bytes out.old ++ all_explained
            self.entry.population.now.content (cores_of (map core_view cores.now))
            self.entry.level variables.old (naming_view self.entry.naming)) }
        ensures kept { OnOk result (variables.new ≡ variables.old) }
    {
        let mut naming = self.naming;
        'cores: for core in cores {
            Explainer { naming, ..self }.explain(out, core, variables)?;
            naming = past(core, naming)?;
        }
        Ok(())
    }

    /// Puts the elements that decide an iteration, and some of the others, each with the parts of its body.
    #[cycle(explain)]
    fn explain_iteration(
        self,
        out: &mut String,
        iteration: Iteration,
        source: &Value<'a>,
        body: &'a Core,
        variables: &mut Variables<'a>,
    ) -> Result<(), OutOfMemory>
        requires source { IsValueThere self.population.now.content (meant source.now) }
        requires body { IsResolved self.population.now.content.model (core_view body.now) }
        requires there { AreThere self.population.now.content variables.old }
        ensures text { OnOk result (string_bytes out.new ≡ string_bytes out.old ++ iteration_lines
            iteration
            (element_lines self.entry.population.now.content (core_view body.now)
            self.entry.level variables.old (naming_view self.entry.naming))
            (λ e. meaning self.entry.population.now.content (core_view body.now)
            (element_value e ∷ variables.old)) self.entry.level (meant source.now)) }
        ensures kept { OnOk result (variables.new ≡ variables.old) }
    {
        let Value::Collection(_, elements) = source else {
            return Ok(());
        };
        let bodies = evaluate_bodies(self.alloc, self.population, elements, body, variables)?;
        let first = batch_that_decides(&iteration, &bodies);
        self.explain_batch(out, &first, elements, &bodies, body, variables)?;
        let second = batch_beside(&iteration, &bodies);
        self.explain_batch(out, &second, elements, &bodies, body, variables)
    }

    /// Puts a batch of elements by their bodies, each with the parts of its body, and how many more there are.
    #[cycle(explain)]
    fn explain_batch(
        self,
        out: &mut String,
        batch: &Batch<'_, '_>,
        elements: &[Element<'a>],
        bodies: &[Value<'a>],
        body: &'a Core,
        variables: &mut Variables<'a>,
    ) -> Result<(), OutOfMemory>
        requires bodies { length bodies.now ≡ length elements.now }
        requires elements { AreElementsThere self.population.now.content
            (meant_elements elements.now) }
        requires body { IsResolved self.population.now.content.model (core_view body.now) }
        requires there { AreThere self.population.now.content variables.old }
        ensures text { OnOk result (string_bytes out.new ≡ string_bytes out.old ++ batch_lines
            (element_lines self.entry.population.now.content (core_view body.now)
            self.entry.level variables.old (naming_view self.entry.naming)) self.entry.level
            (batch_of batch.now) (meant_elements elements.now) (map meant bodies.now)) }
        ensures kept { OnOk result (variables.new ≡ variables.old) }
    {
        let chosen = deciding_elements(self.alloc, batch.which, elements, bodies)?;
        let shown = chosen.len().min(batch.most);
        self.explain_elements(out, &chosen[..shown], body, variables)?;
        put_more(self.alloc, out, self.level, chosen.len() - shown)
    }

    /// Puts elements, each with the parts of its body.
    #[cycle(explain)]
    fn explain_elements(
        self,
        out: &mut String,
        elements: &[Element<'a>],
        body: &'a Core,
        variables: &mut Variables<'a>,
    ) -> Result<(), OutOfMemory>
        requires elements { AreElementsThere self.population.now.content
            (meant_elements elements.now) }
        requires body { IsResolved self.population.now.content.model (core_view body.now) }
        requires there { AreThere self.population.now.content variables.old }
        ensures text { OnOk result (string_bytes out.new ≡ string_bytes out.old ++ flat_map
            (element_lines self.entry.population.now.content (core_view body.now)
            self.entry.level variables.old (naming_view self.entry.naming))
            (meant_elements elements.now)) }
        ensures kept { OnOk result (variables.new ≡ variables.old) }
    {
        'elements: for element in elements {
            self.explain_element(out, element, body, variables)?;
        }
        Ok(())
    }

    /// Puts an element with the parts of its body.
    #[cycle(explain)]
    fn explain_element(
        self,
        out: &mut String,
        element: &Element<'a>,
        body: &'a Core,
        variables: &mut Variables<'a>,
    ) -> Result<(), OutOfMemory>
        requires element { IsElementThere self.population.now.content (meant_element element.now) }
        requires body { IsResolved self.population.now.content.model (core_view body.now) }
        requires there { AreThere self.population.now.content variables.old }
        ensures text { OnOk result (string_bytes out.new ≡ string_bytes out.old ++ element_lines
            self.entry.population.now.content (core_view body.now) self.entry.level variables.old
            (naming_view self.entry.naming) (meant_element element.now)) }
        ensures kept { OnOk result (variables.new ≡ variables.old) }
    {
        let value = element_value(element);
        let name = next_name(self.alloc, self.naming)?;
        self.put_binding_line(out, &name, &value)?;
        variables.bind(value)?;
        let inner = with_next(self.alloc, self.naming)?;
        let within = Explainer {
            level: next(self.level)?,
            naming: inner.naming(),
            ..self
        };
        within.explain(out, body, variables)?;
        variables.forget(1);
        Ok(())
    }

    /// Puts the turns of a fold that tell how it came to its value, each with the parts of its body, and how many more there
    /// are.
    #[cycle(explain)]
    fn explain_fold(
        self,
        out: &mut String,
        source: &Value<'a>,
        start: Value<'a>,
        body: &'a Core,
        variables: &mut Variables<'a>,
    ) -> Result<(), OutOfMemory>
        requires source { IsValueThere self.population.now.content (meant source.now) }
        requires start { IsValueThere self.population.now.content (meant start) }
        requires body { IsResolved self.population.now.content.model (core_view body.now) }
        requires there { AreThere self.population.now.content variables.old }
        ensures text { OnOk result (string_bytes out.new ≡ string_bytes out.old ++ accumulation_lines
            (step_lines self.entry.population.now.content (core_view body.now) self.entry.level
            variables.old (naming_view self.entry.naming))
            (λ e a. meaning self.entry.population.now.content (core_view body.now)
            (a ∷ element_value e ∷ variables.old)) self.entry.level (meant start.entry)
            (meant source.now)) }
        ensures kept { OnOk result (variables.new ≡ variables.old) }
    {
        let Value::Collection(_, elements) = source else {
            return Ok(());
        };
        self.population.consistent();
        let turns = turns_of(
            self.alloc,
            self.population,
            elements,
            start,
            body,
            variables,
        )?;
        let told = told_turns(self.alloc, &turns)?;
        let more = turns.len().saturating_sub(told.len());
        self.explain_turns(out, &told, body, variables)?;
        put_more(self.alloc, out, self.level, more)
    }

    /// Puts turns of a fold, each with what is accumulated before it and the parts of its body.
    #[cycle(explain)]
    fn explain_turns(
        self,
        out: &mut String,
        turns: &[Turn<'a>],
        body: &'a Core,
        variables: &mut Variables<'a>,
    ) -> Result<(), OutOfMemory>
        requires turns { AreTurnsThere self.population.now.content (map fold_turn turns.now) }
        requires body { IsResolved self.population.now.content.model (core_view body.now) }
        requires there { AreThere self.population.now.content variables.old }
        ensures text { OnOk result (string_bytes out.new ≡ string_bytes out.old ++ flat_map
            (λ t. step_lines self.entry.population.now.content (core_view body.now)
            self.entry.level variables.old (naming_view self.entry.naming) t.element t.before)
            (map fold_turn turns.now)) }
        ensures kept { OnOk result (variables.new ≡ variables.old) }
    {
        'turns: for turn in turns {
            self.explain_turn(out, turn, body, variables)?;
        }
        Ok(())
    }

    /// Puts the variables of a turn of a fold with their values; the second is bound behind the first.
    fn put_turn(
        self,
        out: &mut String,
        element: &Value<'_>,
        before: &Value<'_>,
        behind: Naming<'_, '_>,
    ) -> Result<(), OutOfMemory>
        requires element { IsValueThere self.population.now.content (meant element.now) }
        requires before { IsValueThere self.population.now.content (meant before.now) }
        ensures { OnOk result (string_bytes out.new ≡ string_bytes out.old ++ bindings_line
            self.entry.level (next_name (naming_view self.entry.naming))
            (next_name (naming_view behind.entry))
            (introduced_text self.entry.population.now.content (meant element.now))
            (introduced_text self.entry.population.now.content (meant before.now))) }
    {
        let name = next_name(self.alloc, self.naming)?;
        let accumulator = next_name(self.alloc, behind)?;
        self.put_bindings_line(out, &name, &accumulator, element, before)
    }

    /// Puts a turn of a fold with what is accumulated before it and the parts of its body.
    #[cycle(explain)]
    fn explain_turn(
        self,
        out: &mut String,
        turn: &Turn<'a>,
        body: &'a Core,
        variables: &mut Variables<'a>,
    ) -> Result<(), OutOfMemory>
        requires turn { IsTurnThere self.population.now.content (fold_turn turn.now) }
        requires body { IsResolved self.population.now.content.model (core_view body.now) }
        requires there { AreThere self.population.now.content variables.old }
        ensures text { OnOk result (string_bytes out.new ≡ string_bytes out.old ++ step_lines
            self.entry.population.now.content (core_view body.now) self.entry.level variables.old
            (naming_view self.entry.naming) (meant_element turn.now.element)
            (meant turn.now.before)) }
        ensures kept { OnOk result (variables.new ≡ variables.old) }
    {
        let value = element_value(&turn.element);
        let outer = with_next(self.alloc, self.naming)?;
        self.put_turn(out, &value, &turn.before, outer.naming())?;
        variables.bind(value)?;
        variables.bind(copy_value(self.alloc, &turn.before)?)?;
        let inner = with_next(self.alloc, outer.naming())?;
        let within = Explainer {
            level: next(self.level)?,
            naming: inner.naming(),
            ..self
        };
        within.explain(out, body, variables)?;
        variables.forget(2);
        Ok(())
    }
}
