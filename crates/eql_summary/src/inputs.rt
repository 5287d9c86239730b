//! What a run searches, as files in memory: a query, a mapping, and four texts of events.
ghost use Rattle.std.specs.Prelude.{◌≡◌, ◌≤◌, IfOk, List, Some, [], map, string_bytes};
ghost use Rattle.eql_outside.specs.Plans.{fresh_plan};
ghost use Rattle.eql_outside.specs.Unfailing.{AreUnfailing};
ghost use Rattle.eql_runs.specs.Made.{made_texts};
ghost use Rattle.eql_summary.specs.Inputs.{made_files, made_find};

use crate::texts::made;
use eql_outside::{MemDisk, MemFile, MemShelf, Shelf};
use eql_values::Memory;
use eql_words::{Find, Name, Names};
use std::alloc::Global;

/// Three events of one user, with a name of a process each. The names come in this order in what is made.
const QUERY: &str =
    "sequence by user.name [process where process.name == \"attrib\"] [process where process.name == \"bash\"] [process where process.name == \"cat\"]";

/// The two fields that the query names.
const FIELDS: &str = "{\"process.name\":\"keyword\",\"user.name\":\"keyword\"}";

/// How many bytes of a file are handed on at a time.
const PIECE: usize = 65536;

/// A file of this name, of which no take fails.
fn file(alloc: Global, name: &str, bytes: Vec<u8>) -> Result<MemFile, Memory>
    ensures name { IfOk result (λ file. string_bytes file.name ≡ name.now) }
    ensures bytes { IfOk result (λ file. file.bytes.items ≡ bytes.items) }
    ensures fails { IfOk result (λ file. file.fails.items ≡ []) }
{
    Ok(MemFile {
        name: String::from_str(alloc, name)?,
        bytes,
        piece: PIECE,
        fails: Vec::new(alloc),
    })
}

/// A file that holds this text.
fn text_file(alloc: Global, name: &str, text: &str) -> Result<MemFile, Memory>
    ensures name { IfOk result (λ file. string_bytes file.name ≡ name.now) }
    ensures bytes { IfOk result (λ file. file.bytes.items ≡ text.now) }
    ensures fails { IfOk result (λ file. file.fails.items ≡ []) }
{
    let bytes = Vec::from_slice(alloc, text.as_bytes())?;
    file(alloc, name, bytes)
}

/// A shelf with the query, the mapping and the texts of so many events.
pub(crate) fn made_shelf(alloc: Global, events: u32) -> Result<MemShelf, Memory>
    ensures files { IfOk result
        (λ s. ⟦<MemShelf as Shelf>⟧.files s ≡ Some (made_files events)) }
    ensures plan { IfOk result
        (λ s. ⟦<MemShelf as Shelf>⟧.fault_plan s ≡ Some (fresh_plan [])) }
    ensures plans { IfOk result
        (λ s. AreUnfailing (⟦<MemShelf as Shelf>⟧.source_plans s)) }
{
    let mut texts = made(alloc, events)?;
    let fourth = file(alloc, "3", texts.take_last())?;
    let third = file(alloc, "2", texts.take_last())?;
    let second = file(alloc, "1", texts.take_last())?;
    let first = file(alloc, "0", texts.take_last())?;
    let query = text_file(alloc, "query", QUERY)?;
    let fields = text_file(alloc, "fields", FIELDS)?;
    let files = Vec::from_array(alloc, [query, fields, first, second, third, fourth])?;
    let disk = MemDisk::new(
        alloc,
        Vec::new(alloc),
        Vec::new(alloc),
        Vec::new(alloc),
        None,
    )?;
    MemShelf::new(alloc, files, disk, Vec::new(alloc))
}

/// A name of a file.
fn name(alloc: Global, name: &str) -> Result<Name, Memory>
    ensures { IfOk result (λ made. made ≡ name.now) }
{
    Ok(Name::of(String::from_str(alloc, name)?))
}

/// The search over these files, with so many further threads.
pub(crate) fn made_find(alloc: Global, hands: u32) -> Result<Find, Memory>
    ensures { IfOk result (λ find. find ≡ made_find hands) }
{
    let shards = [
        name(alloc, "0")?,
        name(alloc, "1")?,
        name(alloc, "2")?,
        name(alloc, "3")?,
    ];
    Ok(Find {
        query: name(alloc, "query")?,
        fields: name(alloc, "fields")?,
        tie: None,
        slack: None,
        batch: 256,
        hands,
        checkpoint: None,
        places: false,
        shards: Names::of(Vec::from_array(alloc, shards)?),
    })
}
