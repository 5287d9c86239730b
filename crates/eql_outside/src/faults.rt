//! How often the files of each name failed. A shelf takes the room for a name's count when it lends the file, so that
//! counting a fault takes no memory.
ghost use Rattle.std.specs.Prelude.{◌≡◌, IfOk, string_bytes};

use eql_values::Memory;
use std::alloc::Global;

/// The counts of faults by name, each name once.
#[derive(Drop)]
pub(crate) enum NameFaults {
    /// No other name.
    End,
    /// A name with its count, and the other names.
    Named {
        name: String,
        count: u64,
        others: Box<NameFaults>,
    },
}

/// The name under which a file was lent, with the room for its count.
#[derive(Drop)]
pub(crate) struct Lent {
    name: String,
    room: Box<NameFaults>,
}

impl Lent {
    ghost use Rattle.eql_outside.specs.Faults.{name_lent};

    /// A copy of the name, with the room for its count.
    pub(crate) fn new(alloc: Global, name: &String) -> Result<Lent, Memory>
        ensures { IfOk result (λ lent. name_lent lent ≡ string_bytes name.now) }
    {
        Ok(Lent {
            name: String::from_str(alloc, name.as_str())?,
            room: Box::new(alloc, NameFaults::End)?,
        })
    }
}

impl NameFaults {
    ghost use Rattle.eql_outside.specs.Faults.{name_lent, faults_in, RoseFor};

    /// Counts a fault of a name. The count stands still at the greatest of its type.
    pub(crate) fn add(&mut self, lent: Lent)
        ensures { RoseFor (name_lent lent) (faults_in self.old) (faults_in self.new) }
    {
        match self {
            NameFaults::End => {
                let Lent { name, mut room } = lent;
                *room = NameFaults::End;
                *self = NameFaults::Named {
                    name,
                    count: 1,
                    others: room,
                };
            }
            NameFaults::Named {
                name,
                count,
                others,
            } => if name.as_str() == lent.name.as_str() {
                *count = count.saturating_add(1);
            } else {
                others.add(lent);
            },
        }
    }
}
