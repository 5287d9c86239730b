//! The mapping: the kinds of the fields of events.
ghost use Rattle.std.specs.Prelude.{◌≡◌, ◌≤◌, length};
ghost use Rattle.serde_json.specs.View.{view, members_view};
ghost use Rattle.eql_check.specs.Kinds.{kind_at};
ghost use Rattle.eql_check.specs.Mappings.{NamesAscend, fields_if_few, fields_of, kind_named, mapping_in, mapping_of};
ghost use Rattle.eql_check.specs.MappingAnswers.{Reads};
ghost use Rattle.eql_check.specs.Wants.{map_memory};

use crate::json::read_json;
use eql_values::{Kind, Memory, NameKinds, Text};
use serde_json::{Map, Value};
use std::alloc::{AllocError, AllocFailed, Global};
use std::marker::Model;

/// The most bytes of a mapping's text.
const LONGEST_MAPPING: usize = 4_194_304;

/// The most names of a mapping.
const MOST_NAMES: usize = 1024;

/// Why a mapping is refused.
#[derive(Debug, Drop)]
pub enum MapRefused {
    /// The text has more than 4,194,304 bytes.
    MapLong,
    /// The text is no JSON object.
    MapSyntax,
    /// There are more than 1,024 different names.
    MapMany,
    /// What stands under this name is none of `keyword`, `long`, `boolean` and `ip`. It is the first such name in the
    /// order of bytes.
    MapKind {
        /// The name.
        name: Text,
    },
    /// Memory ran out.
    Memory,
}

impl From<Memory> for MapRefused {
    ghost use Rattle.eql_check.specs.Wants.{map_memory};

    ghost from_gives = { λ _ r. r ≡ map_memory };

    fn from(_error: Memory) -> MapRefused {
        MapRefused::Memory
    }
}

impl From<AllocError> for MapRefused {
    ghost use Rattle.eql_check.specs.Wants.{map_memory};

    ghost from_gives = { λ _ r. r ≡ map_memory };

    fn from(_error: AllocError) -> MapRefused {
        MapRefused::Memory
    }
}

impl<T: Drop> From<AllocFailed<T>> for MapRefused {
    ghost use Rattle.eql_check.specs.Wants.{map_memory};

    ghost from_gives = { λ _ r. r ≡ map_memory };

    fn from(_error: AllocFailed<T>) -> MapRefused {
        MapRefused::Memory
    }
}

/// The kinds of the fields of events, by their names. The names stand in the order of their bytes, each once, and are at
/// most 1,024.
#[derive(Drop)]
pub struct Mapping {
    names: NameKinds,
}

impl Model for Mapping {
    ghost use Rattle.std.specs.Prelude.{List, ℕ};
    ghost use Rattle.eql_values.specs.declared.value.Kind.{Kind as FieldKind};
    ghost use Rattle.eql_check.specs.Mappings.{AreInOrder};

    ghost Value = { List (List ℕ × FieldKind) };

    ghost view = { λ m. m.names };

    ghost invariant = { λ m. AreInOrder m.names };
}

impl Mapping {
    /// Reads a mapping: a JSON object from names of fields to `keyword`, `long`, `boolean` or `ip`. Of a name that is
    /// written twice the last kind counts. The refusals are tried in the order of `MapRefused`. `Memory` comes where
    /// memory ran out, whatever rule is broken.
    pub fn read(alloc: Global, bytes: &[u8]) -> Result<Mapping, MapRefused>
        ensures { Reads result (mapping_of bytes.now) }
    {
        if bytes.len() > LONGEST_MAPPING {
            return Err(MapRefused::MapLong);
        }
        match read_json(alloc, bytes)? {
            Some(value) => of_value(alloc, &value),
            None => Err(MapRefused::MapSyntax),
        }
    }

    /// The names with their kinds, in the order of the names' bytes.
    pub fn names(&self) -> &NameKinds
        ensures same { result.now ≡ self.now }
        ensures order { NamesAscend self.now }
        ensures few { length self.now ≤ 1024 }
    {
        &self.names
    }

    /// The kind of a field, where the mapping has it.
    pub fn kind(&self, name: &Text) -> Option<Kind>
        ensures { result ≡ kind_at self.now name.now }
    {
        find(self.names.items(), name)
    }
}

/// The kind that a list in the order of its names gives to a name.
fn find(fields: &[(Text, Kind)], name: &Text) -> Option<Kind>
    requires { NamesAscend fields.now }
    ensures { result ≡ kind_at fields.now name.now }
{
    match fields.binary_search_by(|field| field.0.cmp(name)) {
        Ok(place) => Some(fields[place].1),
        Err(_) => None,
    }
}

/// The mapping that a value is.
fn of_value(alloc: Global, value: &Value) -> Result<Mapping, MapRefused>
    ensures { Reads result (mapping_in (view value.now)) }
{
    match value {
        Value::Object(members) => of_members(alloc, members),
        _ => Err(MapRefused::MapSyntax),
    }
}

/// The mapping of an object, where it has at most 1,024 members.
#[tactic(auto, using(crate::proofs::Fields::count_members))]
fn of_members(alloc: Global, members: &Map<String, Value>) -> Result<Mapping, MapRefused>
    ensures { Reads result (fields_if_few (members_view members.now.entries)) }
{
    if members.len() > MOST_NAMES {
        return Err(MapRefused::MapMany);
    }
    let names = fields(alloc, members)?;
    Ok(Mapping { names })
}

/// The fields of an object.
#[tactic(auto, using(crate::proofs::Fields::one_more_field))]
fn fields(alloc: Global, members: &Map<String, Value>) -> Result<NameKinds, MapRefused>
    ensures { Reads result (fields_of (members_view members.now.entries)) }
{
    let mut fields = Vec::new(alloc);
    for (name, value) in members.iter() {
        let name = Text::of(name.clone()?);
        match kind_of_text(value) {
            Some(kind) => fields.push((name, kind))?,
            None => return Err(MapRefused::MapKind { name }),
        }
    }
    Ok(NameKinds::of(fields))
}

/// The kind that a member of the object names.
fn kind_of_text(value: &Value) -> Option<Kind>
    ensures { result ≡ kind_named (view value.now) }
{
    let Value::String(text) = value else {
        return None;
    };
    match text.as_str() {
        "keyword" => Some(Kind::Text),
        "long" => Some(Kind::Long),
        "boolean" => Some(Kind::Bool),
        "ip" => Some(Kind::Ip),
        _ => None,
    }
}
