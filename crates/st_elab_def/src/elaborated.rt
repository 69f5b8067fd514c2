//! What a source is elaborated to.

use st_il::Il;
use st_num::Row;

/// The internal language of a source, and for each of its definitions the number of the definition
/// of the source that it comes from, from 0. The fragments of a syntax come from the first one.
#[derive(Drop)]
pub struct Elaborated {
    pub il: Il,
    pub sources: Row<u32>,
}
