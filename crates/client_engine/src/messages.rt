//! The messages of atoms that a report shows.
ghost use Rattle.std.specs.Prelude.{◌≡◌, map, IfOk};
ghost use Rattle.report_writer.specs.AtomMessage.{message_of};

use atom_record::Atom;
use report_writer::{AtomMsg, atom_msg};
use sd_base::Seq;
use std::alloc::{AllocError, Global};

/// The messages of these atoms.
pub fn messages_of(alloc: Global, atoms: &[Atom]) -> Result<Seq<AtomMsg>, AllocError>
    ensures { IfOk result (λ shown. shown ≡ map message_of atoms.now) }
{
    let mut shown = Seq::with_capacity(alloc, atoms.len())?;
    for atom in atoms {
        shown.push(atom_msg(alloc, atom)?)?;
    }
    Ok(shown)
}
