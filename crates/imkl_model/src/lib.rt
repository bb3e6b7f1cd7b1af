//! Class models: classes with superclasses, attributes and associations, read from JSON.
#![tactic(auto)]

mod ancestors;
mod belonging;
mod checks;
mod clash;
mod class_table;
mod descendants;
mod draft;
mod duplicates;
mod entry;
mod enumeration_table;
mod fault;
mod feature;
mod feature_group;
mod feature_list;
mod feature_table;
mod items;
pub mod laws;
mod limits;
mod lists;
pub mod members;
mod model;
mod names;
mod numbering;
mod numbers;
mod reading;
mod rename_table;
mod renames;
mod row;
mod same;
mod shared_names;
mod sorted_texts;
mod tree;
mod words;
mod written;

pub use fault::ModelFault;
pub use feature::{ElementType, FeatureInfo, Role};
pub use limits::{MAX_BOUND, MAX_FEATURES, MAX_NAME_LENGTH, MAX_RENAMES, MAX_TYPES};
pub use model::ClassModel;
pub use numbers::{ClassNo, EnumNo, FeatureNo, LiteralNo};
pub use ocl_base::{CollectionKind, Text};
