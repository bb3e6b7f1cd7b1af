//! Notes on inputs as compilers write them: the place of a byte, its line with a mark under it, and the nearest name.
#![tactic(auto)]

mod input;
mod lines;
mod nearest;
mod note;
mod place;
mod showing;

pub use input::Input;
pub use lines::cut_text;
pub use nearest::Nearest;
pub use note::{Note, write_marked};
pub use place::{Place, place_of};
pub use showing::{first_character, push_shown, quote, steers, visible_text};
