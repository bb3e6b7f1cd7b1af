//! What a JSON document has that it shouldn't, and what it lacks.

use crate::drafts::items;
use crate::members::{
    List, associations, attributes, classes, enumerations, member_of, objects, words,
};
use crate::places::{Located, element_offsets, located_document, located_element, located_member};
use crate::report::Report;
use explain_faults::Faults;
use explain_notes::{Input, quote};
use imkl_delivery::members::DELIVERY;
use imkl_model::members::{CLASS_RENAME, END, FEATURE_RENAME, MODEL, Member, RENAMES};
use serde_json::{Map, Value};
use std::alloc::{AllocError, Global};

/// So many members are told of an object that can't be there.
const MAX_OTHERS: usize = 3;

/// A value that is looked at.
#[derive(Clone, Copy, Drop)]
struct Looked<'v> {
    value: &'v Value,
    /// Where it is in the document.
    at: &'v Located,
    /// What it is called.
    title: &'v str,
}

/// A look at the shape of a document, which says all that is wrong with it.
#[derive(Drop)]
struct Look<'a> {
    report: Report<'a>,
    /// The fault that the document has, as it is printed.
    fault: &'static str,
}

impl Look<'_> {
    /// Says something of a value.
    fn say(&mut self, alloc: Global, at: Located, message: &str) -> Result<(), AllocError> {
        self.report.tell(alloc, at, message, self.fault)
    }

    /// Says something of a value that is looked at.
    fn say_of(
        &mut self,
        alloc: Global,
        looked: Looked<'_>,
        message: &str,
    ) -> Result<(), AllocError> {
        let at = looked.at.copied()?;
        self.say(alloc, at, message)
    }

    /// A member of an object; the object, if the member isn't found.
    fn place(
        &self,
        alloc: Global,
        object: Looked<'_>,
        member: &str,
    ) -> Result<Located, AllocError> {
        match located_member(alloc, self.report.bytes(), object.at, member)? {
            Some(found) => Ok(found),
            None => object.at.copied(),
        }
    }

    /// Looks at a value that should be an object of these members.
    fn record(
        &mut self,
        alloc: Global,
        looked: Looked<'_>,
        members: &[Member],
    ) -> Result<(), AllocError> {
        self.object(alloc, looked, members, &[])
    }

    /// Looks at a value that should be an object of these members, and may have those that are optional.
    fn object(
        &mut self,
        alloc: Global,
        looked: Looked<'_>,
        members: &[Member],
        optional: &[Member],
    ) -> Result<(), AllocError> {
        let title = looked.title;
        let Some(map) = looked.value.as_object() else {
            let message = format!(in alloc; "{title} is no JSON object")?;
            return self.say_of(alloc, looked, message.as_str());
        };
        for member in members {
            let name = member.0;
            match map.get(name) {
                Some(value) => self.member(alloc, looked, member, value)?,
                None => {
                    let message = format!(in alloc; "{title} has no member `{name}`")?;
                    self.say_of(alloc, looked, message.as_str())?;
                }
            }
        }
        self.others(alloc, looked, map, members, optional)
    }

    /// Looks at the members of an object that are none of those which must be there. Of those that can't be there the first
    /// ones are told: each costs a walk over the object's text.
    fn others(
        &mut self,
        alloc: Global,
        looked: Looked<'_>,
        map: &Map<String, Value>,
        members: &[Member],
        optional: &[Member],
    ) -> Result<(), AllocError> {
        let mut told = 0usize;
        for (name, value) in map {
            if member_of(members, name.as_str()).is_some() {
                continue;
            }
            if let Some(member) = member_of(optional, name.as_str()) {
                self.member(alloc, looked, member, value)?;
            } else if told < MAX_OTHERS {
                told += 1;
                self.other(alloc, looked, name.as_str())?;
            }
        }
        Ok(())
    }

    /// Looks at a member of an object.
    fn member(
        &mut self,
        alloc: Global,
        looked: Looked<'_>,
        member: &Member,
        value: &Value,
    ) -> Result<(), AllocError> {
        let Member(name, is) = *member;
        if is.holds(value) {
            return Ok(());
        }
        let (title, wanted) = (looked.title, words(is));
        let message = format!(in alloc; "the member `{name}` of {title} is not {wanted}")?;
        let at = self.place(alloc, looked, name)?;
        self.say(alloc, at, message.as_str())
    }

    /// Says that an object has a member that can't be there.
    fn other(&mut self, alloc: Global, looked: Looked<'_>, name: &str) -> Result<(), AllocError> {
        let (title, shown) = (looked.title, quote(alloc, name)?);
        let message = format!(in alloc; "{title} has a member `{shown}`, which it can't have")?;
        let at = self.place(alloc, looked, name)?;
        self.say(alloc, at, message.as_str())
    }

    /// The values of a member of an object that is a list, each with where it begins.
    fn located<'v>(
        &self,
        alloc: Global,
        object: Looked<'v>,
        member: &str,
    ) -> Result<Vec<(Located, &'v Value)>, AllocError> {
        let list = self.place(alloc, object, member)?;
        let offsets = element_offsets(alloc, self.report.bytes(), list.offset)?;
        let mut found = Vec::new(alloc);
        for (index, value) in items(object.value, member).iter().enumerate() {
            let at = match offsets.get(index) {
                Some(offset) => located_element(alloc, &list, index, *offset)?,
                None => list.copied()?,
            };
            found.push((at, value))?;
        }
        Ok(found)
    }

    /// Looks at the values of a member of an object that is a list; each should be an object of these members. What the list
    /// is of stands, in words, behind what each is called.
    fn list(
        &mut self,
        alloc: Global,
        object: Looked<'_>,
        list: List,
        of: &str,
    ) -> Result<(), AllocError> {
        for (index, (at, value)) in self.located(alloc, object, list.member)?.iter().enumerate() {
            if self.report.is_full() {
                return Ok(());
            }
            let title = title_of(alloc, list, index, value)?;
            let title = format!(in alloc; "{title}{of}")?;
            let looked = Looked {
                value,
                at,
                title: title.as_str(),
            };
            self.record(alloc, looked, list.members)?;
        }
        Ok(())
    }

    /// Looks at an end of an association.
    fn end(
        &mut self,
        alloc: Global,
        association: Looked<'_>,
        member: &'static str,
    ) -> Result<(), AllocError> {
        let Some(value) = association.value.get(member) else {
            return Ok(());
        };
        // (that it is no object was said of the association)
        if !value.is_object() {
            return Ok(());
        }
        let of = association.title;
        let title = match value.get("name").and_then(Value::as_str) {
            Some(name) => {
                let name = quote(alloc, name)?;
                format!(in alloc; "{member} (`{name}`) of {of}")?
            }
            None => format!(in alloc; "{member} of {of}")?,
        };
        let at = self.place(alloc, association, member)?;
        let looked = Looked {
            value,
            at: &at,
            title: title.as_str(),
        };
        self.record(alloc, looked, &END)
    }

    /// Looks at the attributes of classes, and at the ends of associations.
    fn inside(&mut self, alloc: Global, document: Looked<'_>) -> Result<(), AllocError> {
        for (index, (at, value)) in self.located(alloc, document, "classes")?.iter().enumerate() {
            let title = title_of(alloc, classes(), index, value)?;
            let title = title.as_str();
            let of = format!(in alloc; " of {title}")?;
            self.list(
                alloc,
                Looked { value, at, title },
                attributes(),
                of.as_str(),
            )?;
        }
        let listed = self.located(alloc, document, "associations")?;
        for (index, (at, value)) in listed.iter().enumerate() {
            let title = title_of(alloc, associations(), index, value)?;
            let association = Looked {
                value,
                at,
                title: title.as_str(),
            };
            self.end(alloc, association, "end")?;
            self.end(alloc, association, "opposite")?;
        }
        Ok(())
    }

    /// Looks at the entries of `renames`: each is of a feature where it has a member `class`, else of a class.
    fn renames(&mut self, alloc: Global, document: Looked<'_>) -> Result<(), AllocError> {
        let member = RENAMES.0;
        for (index, (at, value)) in self.located(alloc, document, member)?.iter().enumerate() {
            let title = format!(in alloc; "entry {index} of `{member}`")?;
            let looked = Looked {
                value,
                at,
                title: title.as_str(),
            };
            if value.get("class").is_some() {
                self.record(alloc, looked, &FEATURE_RENAME)?;
            } else {
                self.record(alloc, looked, &CLASS_RENAME)?;
            }
        }
        Ok(())
    }

    /// Looks at the shape of a class model.
    fn model(&mut self, alloc: Global, document: Looked<'_>) -> Result<(), AllocError> {
        self.object(alloc, document, &MODEL, &[RENAMES])?;
        self.list(alloc, document, enumerations(), "")?;
        self.list(alloc, document, classes(), "")?;
        self.list(alloc, document, associations(), "")?;
        self.inside(alloc, document)?;
        self.renames(alloc, document)
    }

    /// Looks at the shape of a delivery.
    fn delivery(&mut self, alloc: Global, document: Looked<'_>) -> Result<(), AllocError> {
        self.record(alloc, document, &DELIVERY)?;
        self.list(alloc, document, objects(), "")
    }
}

/// What a value of a list is called: its sort, its place among the others, and its name, if it has one.
fn title_of(alloc: Global, list: List, index: usize, value: &Value) -> Result<String, AllocError> {
    let sort = list.sort;
    match value.get(list.name).and_then(Value::as_str) {
        Some(name) => {
            let name = quote(alloc, name)?;
            format!(in alloc; "{sort} {index} (`{name}`)")
        }
        None => format!(in alloc; "{sort} {index}"),
    }
}

/// What is said where the look finds nothing.
const OTHERWISE: &str = "it has not the shape that is wanted";

/// Says all that is wrong with the shape of a delivery, at most 100 faults.
pub(crate) fn delivery_shape(
    alloc: Global,
    out: &mut Faults,
    input: Input<'_>,
    document: &Value,
) -> Result<(), AllocError> {
    let mut look = Look {
        report: Report::new(alloc, input),
        fault: "delivery 2",
    };
    let at = located_document(alloc, input.bytes)?;
    let looked = Looked {
        value: document,
        at: &at,
        title: "the delivery",
    };
    look.delivery(alloc, looked)?;
    look.report.end(alloc, out, OTHERWISE)
}

/// Says all that is wrong with the shape of a class model, at most 100 faults.
pub(crate) fn model_shape(
    alloc: Global,
    out: &mut Faults,
    input: Input<'_>,
    document: &Value,
) -> Result<(), AllocError> {
    let mut look = Look {
        report: Report::new(alloc, input),
        fault: "model 2",
    };
    let at = located_document(alloc, input.bytes)?;
    let looked = Looked {
        value: document,
        at: &at,
        title: "the class model",
    };
    look.model(alloc, looked)?;
    look.report.end(alloc, out, OTHERWISE)
}
