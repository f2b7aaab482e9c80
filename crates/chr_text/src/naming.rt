//! The numbers of names that lie in a text.
ghost use Rattle.std.specs.Prelude.{◌≡◌, ◌↔◌, true, false, length, Err, IsOk};
ghost use Rattle.chr_value.specs.Bounds.{most_names};
ghost use Rattle.chr_lex.specs.Reading.{Gives};
ghost use Rattle.chr_lex.specs.declared.fault.ItemError.TheVariants.{Fault};
ghost use Rattle.chr_lex.specs.declared.fault.Kind.TheVariants.{NamesFull};
ghost use Rattle.chr_value.specs.Names.{has_text};
ghost use Rattle.chr_value.specs.Naming.{number_name as number_of};
ghost use Rattle.chr_value.specs.Spelling.{IsName};
ghost use Rattle.chr_text.specs.Numbering.{or_full};
ghost use Rattle.chr_text.specs.Tables.{Table, Keeps};

use chr_lex::fault::{ItemError, Kind};
use chr_value::{Name, Names, NamesFault, name_number};
use std::alloc::Allocator;
use std::str;

/// The number of a name, which gets the next one where it is new. E01 where memory ran out; E02 exactly where the name is
/// new and the table full, whatever the allocator says.
#[tactic(auto, using(crate::proofs::Lists::keeps_more))]
pub fn number_name<A: Allocator + Copy>(
    names: &mut Names<A>,
    name: &[u8],
) -> Result<Name, ItemError>
    requires { IsName name.now }
    ensures gives { Gives (λ n. (n.number, names.new)) result (or_full (number_of names.old name.now)) }
    ensures full { (result ≡ Err (Fault NamesFull)) ↔ ((length names.old ≡ most_names) × (has_text names.old name.now ≡ false)) }
    ensures finds { has_text names.old name.now ≡ true → IsOk result }
    ensures keeps { (t : Table) → Keeps t names.old → Keeps t names.new }
{
    let Ok(text) = str::from_utf8(name) else {
        unreachable!();
    };
    match name_number(names, text) {
        Ok(name) => Ok(name),
        Err(NamesFault::NoMemory) => Err(ItemError::Memory),
        Err(NamesFault::Full) => Err(ItemError::Fault(Kind::NamesFull)),
    }
}
