//! A language that is known: what each search needs of it, made once.

ghost use Rattle.std.specs.Prelude.{◌≡◌, IfOk};
ghost use Rattle.st_search.specs.Searchable.{IsSearchable};

use st_algo::Algos;
use st_il::Il;
use st_index::{Index, index_of};
use st_num::NoMemory;
use st_order::{Directions, directions_of};
use st_types::TypeTable;
use std::alloc::Global;
use std::marker::Model;

/// A language that can be searched, with its types and algorithms, its names and the directions of
/// its relations. Contracts see the internal language alone.
#[derive(Drop)]
pub struct SearchedLanguage<'a> {
    pub(crate) index: Index<'a>,
    pub(crate) types: &'a TypeTable,
    pub(crate) algos: &'a Algos,
    pub(crate) directions: Directions<'a>,
}

impl<'a> Model for SearchedLanguage<'a> {
    ghost use Rattle.std.specs.Coded.{codes};
    ghost use Rattle.st_il.specs.declared.definition.Il.{Il};
    ghost use Rattle.st_il.specs.contracts.definition.Il.{the_row as il_row};
    ghost use Rattle.st_search.specs.inner.Kept.{IsKept};

    ghost Value = { Il };

    ghost coded = { Prim.hlevel (codes, il_row.coded) };

    ghost view = { λ l. l.index };

    ghost invariant = { λ l. IsKept l.index l.types.now l.algos.now l.directions };
}

/// What each search needs of a language, made in time in the size of the language.
pub fn searched_language<'a>(
    alloc: Global,
    il: &'a Il,
    types: &'a TypeTable,
    algos: &'a Algos,
) -> Result<SearchedLanguage<'a>, NoMemory>
    requires { IsSearchable il.now types.now algos.now }
    ensures { IfOk result (λ language. language ≡ il.now) }
{
    let index = index_of(alloc, il)?;
    let directions = directions_of(alloc, il)?;
    Ok(SearchedLanguage {
        index,
        types,
        algos,
        directions,
    })
}
