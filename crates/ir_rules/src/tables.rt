//! What is found once of the types and the constants of a module.

use pv_base::list::List;

/// The classes of types, and of each constant whether the names in it are known and whether it holds together.
#[derive(Drop)]
pub struct Tables {
    pub classes: List<usize>,
    pub known: List<bool>,
    pub together: List<bool>,
}
