//! What is sampled of an atom.
ghost use Rattle.std.specs.Prelude.{◌≡◌, IfOk};
ghost use Rattle.metric_meaning.specs.Samples.{sample_of};

use atom_record::Atom;
use field_select::{FieldSet, filter};
use std::alloc::{AllocError, Global};

/// A copy of an atom, or of those of its entries that these fields name. Its id stays.
pub fn sample_of(alloc: Global, fields: &Option<FieldSet>, atom: &Atom) -> Result<Atom, AllocError>
    ensures { IfOk result (λ sample. sample ≡ sample_of fields.now atom.now) }
{
    match fields {
        Some(set) => filter(alloc, set, atom),
        None => atom.clone_atom(alloc),
    }
}
