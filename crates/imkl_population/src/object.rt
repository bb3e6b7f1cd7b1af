//! Objects: their ids, their classes, and what is written on them.

use crate::scalar::Scalar;
use imkl_model::ClassNo;
use ocl_base::Text;
use std::marker::Model;

/// An object's id and class.
#[derive(Drop)]
pub struct Head {
    /// The object's id.
    pub id: Text,
    /// The class that it is directly of.
    pub class: ClassNo,
}

/// What is written at the features of one object. Contracts see it as a finite map from features
/// to values; in memory values lie feature by feature, in a `Store`.
#[derive(Drop)]
pub struct Written {
    entries: Vec<(usize, Vec<Scalar>)>,
}

impl Model for Written {
    ghost use Rattle.std.specs.Prelude.{List, ℕ, map};
    ghost use Rattle.imkl_population.specs.declared.scalar.Scalar.{Scalar};

    ghost Value = { List (ℕ × List Scalar) };

    ghost view = { λ w. map (λ e. (e.0, e.1.items)) w.entries.items };
}

/// An object as contracts see it: its id, its class, and what is written on it.
#[derive(Drop)]
pub struct Object {
    /// The object's id.
    pub id: Text,
    /// The class that it is directly of.
    pub class: ClassNo,
    /// Its attributes and source ends, as far as they are set.
    pub written: Written,
}
