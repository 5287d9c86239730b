//! The walk over a value, in the shape of the reading of a `Value`.
ghost use Rattle.std.specs.Prelude.{◌≡◌, ◌≢◌, ◌<◌, ◌≤◌, ◌∷◌, length, None, Some, Err, OnOk, OnErr, IfOk};
ghost use Rattle.json.specs.Json.{value, items, members};
ghost use Rattle.json.specs.Reads.{token_of};
ghost use Rattle.serde_json.specs.Data.{Data, Items, Members, no_members};
ghost use Rattle.serde_json.specs.Read.{of_json, of_items, of_members, converted};
ghost use Rattle.eql_lines.specs.Reach.{reach, reach_items, reach_members};
ghost use Rattle.eql_lines.specs.Paths.{Gains};
ghost use Rattle.eql_lines.specs.Steps.{active_at};
ghost use Rattle.eql_lines.specs.Objects.{is_object};

use crate::number::parse_number;
use crate::pass::pass_member;
use crate::places::Places;
use crate::slots::{Seen, Slot};
use crate::stops::Stops;
use json::{Invalid, Reader, Token};
use std::alloc::AllocError;

/// Why a walk broke off.
#[derive(Clone, Copy, Drop)]
pub(crate) enum Broke {
    /// The line is no JSON.
    Invalid,
    /// Two members of one object lead along one path.
    Twice,
    /// Out of memory.
    Memory,
}

impl From<Invalid> for Broke {
    ghost use Rattle.eql_lines.specs.declared.walk.Broke.TheVariants.{Invalid as invalid};
    ghost use Rattle.std.specs.Prelude.{◌≡◌};

    ghost from_gives = { λ _ e. e ≡ invalid };

    fn from(_invalid: Invalid) -> Broke {
        Broke::Invalid
    }
}

impl From<AllocError> for Broke {
    ghost use Rattle.eql_lines.specs.declared.walk.Broke.TheVariants.{Memory};
    ghost use Rattle.std.specs.Prelude.{◌≡◌};

    ghost from_gives = { λ _ e. e ≡ Memory };

    fn from(_refused: AllocError) -> Broke {
        Broke::Memory
    }
}

/// Walks over a value, and adds what it holds along the paths of a stop. Tells whether it is an object.
#[cycle(walk)]
pub(crate) fn walk_value(
    stops: &Stops,
    slots: &mut Vec<Slot>,
    reader: &mut Reader<'_>,
    depth: usize,
    stop: u32,
) -> Result<bool, Broke>
    requires { length slots.old.items ≡ length stops.now.paths.paths.items }
    ensures ok { IfOk result (λ o. (d : Data)
        × (converted of_json (value depth reader.old) ≡ Some (d, reader.new))
        × Gains stops.now.paths.paths.items (active_at stops.now.table.stops.items stop) (reach d)
        slots.old.items slots.new.items
        × (o ≡ is_object d)) }
    ensures shorter { OnOk result (length reader.new < length reader.old) }
    ensures err { result ≡ Err Broke.Invalid → converted of_json (value depth reader.old) ≡ None }
    ensures length { length slots.new.items ≡ length slots.old.items }
{
    let token = reader.next().ok_or(Broke::Invalid)?;
    walk_on(stops, slots, reader, depth, stop, token)
}

/// Walks over the value of a member. Most are texts and objects, so these go first.
#[cycle(walk)]
fn walk_member(
    stops: &Stops,
    slots: &mut Vec<Slot>,
    reader: &mut Reader<'_>,
    depth: usize,
    stop: u32,
) -> Result<(), Broke>
    requires { length slots.old.items ≡ length stops.now.paths.paths.items }
    ensures ok { OnOk result ((d : Data)
        × (converted of_json (value depth reader.old) ≡ Some (d, reader.new))
        × Gains stops.now.paths.paths.items (active_at stops.now.table.stops.items stop) (reach d)
        slots.old.items slots.new.items) }
    ensures shorter { OnOk result (length reader.new < length reader.old) }
    ensures err { result ≡ Err Broke.Invalid → converted of_json (value depth reader.old) ≡ None }
    ensures length { length slots.new.items ≡ length slots.old.items }
{
    let token = reader.next().ok_or(Broke::Invalid)?;
    match token {
        Token::String(text) => {
            stops.add(slots, stop, Seen::Text, text)?;
            Ok(())
        }
        Token::BeginObject if depth > 0 => {
            walk_members(stops, slots, reader, depth - 1, stop)?;
            Ok(())
        }
        token => {
            let _object = walk_on(stops, slots, reader, depth, stop, token)?;
            Ok(())
        }
    }
}

/// Walks over the value that begins with this token.
#[cycle(walk)]
fn walk_on(
    stops: &Stops,
    slots: &mut Vec<Slot>,
    reader: &mut Reader<'_>,
    depth: usize,
    stop: u32,
    token: Token<'_>,
) -> Result<bool, Broke>
    requires { length slots.old.items ≡ length stops.now.paths.paths.items }
    ensures ok { IfOk result (λ o. (d : Data)
        × (converted of_json (value depth (token_of token.entry ∷ reader.old))
        ≡ Some (d, reader.new))
        × Gains stops.now.paths.paths.items (active_at stops.now.table.stops.items stop) (reach d)
        slots.old.items slots.new.items
        × (o ≡ is_object d)) }
    ensures shorter { OnOk result (length reader.new ≤ length reader.old) }
    ensures err { result ≡ Err Broke.Invalid
        → converted of_json (value depth (token_of token.entry ∷ reader.old)) ≡ None }
    ensures length { length slots.new.items ≡ length slots.old.items }
{
    match token {
        Token::String(text) => {
            stops.add(slots, stop, Seen::Text, text)?;
            Ok(false)
        }
        Token::Number(text) => match parse_number(text) {
            Some(number) => {
                stops.add(slots, stop, Seen::Number(number), "")?;
                Ok(false)
            }
            None => Err(Broke::Invalid),
        },
        Token::Bool(truth) => {
            stops.add(slots, stop, Seen::Truth(truth), "")?;
            Ok(false)
        }
        Token::Null => Ok(false),
        Token::EndObject | Token::EndArray | Token::Key(_) | Token::Bad => Err(Broke::Invalid),
        Token::BeginArray => {
            if depth == 0 {
                return Err(Broke::Invalid);
            }
            walk_items(stops, slots, reader, depth - 1, stop)?;
            Ok(false)
        }
        Token::BeginObject => {
            if depth == 0 {
                return Err(Broke::Invalid);
            }
            walk_members(stops, slots, reader, depth - 1, stop)?;
            Ok(true)
        }
    }
}

#[cycle(walk)]
#[inline(never)]
fn walk_items(
    stops: &Stops,
    slots: &mut Vec<Slot>,
    reader: &mut Reader<'_>,
    depth: usize,
    stop: u32,
) -> Result<(), Broke>
    requires { length slots.old.items ≡ length stops.now.paths.paths.items }
    ensures ok { OnOk result ((ds : Items)
        × (converted of_items (items (value depth) (length reader.old) reader.old)
        ≡ Some (ds, reader.new))
        × Gains stops.now.paths.paths.items (active_at stops.now.table.stops.items stop)
        (reach_items ds) slots.old.items slots.new.items) }
    ensures shorter { OnOk result (length reader.new < length reader.old) }
    ensures err { result ≡ Err Broke.Invalid
        → converted of_items (items (value depth) (length reader.old) reader.old) ≡ None }
    ensures length { length slots.new.items ≡ length slots.old.items }
{
    'items: while !reader.take_end_array() {
        let _object = walk_value(stops, slots, reader, depth, stop)?;
    }
    Ok(())
}

#[cycle(walk)]
#[inline(never)]
fn walk_members(
    stops: &Stops,
    slots: &mut Vec<Slot>,
    reader: &mut Reader<'_>,
    depth: usize,
    stop: u32,
) -> Result<(), Broke>
    requires { length slots.old.items ≡ length stops.now.paths.paths.items }
    ensures ok { OnOk result ((ms : Members)
        × (converted (λ ms. of_members ms no_members)
        (members (value depth) (length reader.old) reader.old) ≡ Some (ms, reader.new))
        × Gains stops.now.paths.paths.items (active_at stops.now.table.stops.items stop)
        (reach_members ms) slots.old.items slots.new.items) }
    ensures shorter { OnOk result (length reader.new < length reader.old) }
    ensures err { result ≡ Err Broke.Invalid → converted (λ ms. of_members ms no_members)
        (members (value depth) (length reader.old) reader.old) ≡ None }
    ensures length { length slots.new.items ≡ length slots.old.items }
{
    let mut taken = Places::none();
    'members: while let Some(name) = reader.next_key()? {
        if let Some(inner) = stops.under(stop, name) {
            let places = stops.places(inner);
            if places.meets(taken) {
                return Err(Broke::Twice);
            }
            taken = taken.with(places);
            walk_member(stops, slots, reader, depth, inner)?;
        } else {
            pass_member(reader, depth)?;
        }
    }
    Ok(())
}
