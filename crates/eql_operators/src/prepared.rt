//! Operators whose addresses and blocks were read beforehand, from the texts in quotes that write them.
ghost use Rattle.std.specs.Prelude.{◌≡◌, ◌==◌, IfOk};
ghost use Rattle.std.specs.List.{list_any};
ghost use Rattle.eql_text.specs.Addresses.{in_block};
ghost use Rattle.eql_operators.specs.Prepared as p;

use crate::addresses::address;
use crate::comparisons::{compare, is_among};
use eql_query::CmpOp;
use eql_text::{Block, in_block};
use eql_values::{Literals, Memory, Value};
use std::alloc::{AllocError, Global};
use std::marker::Model;

/// A list of blocks of addresses.
#[derive(Drop)]
pub struct Blocks {
    items: Vec<Block>,
}

impl Model for Blocks {
    ghost use Rattle.std.specs.Prelude.{List};
    ghost use Rattle.eql_text.specs.declared.addresses.Block.{Block as AddressBlock};

    ghost Value = { List AddressBlock };

    ghost view = { λ l. l.items.items };
}

impl Blocks {
    /// The list of these blocks.
    pub fn of(items: Vec<Block>) -> Blocks
        ensures { result ≡ items.items }
    {
        Blocks { items }
    }
}

impl Clone for Blocks {
    ghost is_clone = { λ old new. new ≡ old };

    fn clone(&self) -> Result<Blocks, AllocError> {
        let items = self.items.clone()?;
        Ok(Blocks { items })
    }
}

/// A list of addresses, each as a number whose highest byte is the first.
#[derive(Drop)]
pub struct Addresses {
    items: Vec<u32>,
}

impl Model for Addresses {
    ghost use Rattle.std.specs.Prelude.{List, ℕ};

    ghost Value = { List ℕ };

    ghost view = { λ l. l.items.items };
}

impl Clone for Addresses {
    ghost is_clone = { λ old new. new ≡ old };

    fn clone(&self) -> Result<Addresses, AllocError> {
        let items = self.items.clone()?;
        Ok(Addresses { items })
    }
}

/// The addresses that literals are or write, in their order. `Memory` where memory ran out.
pub fn addresses_in(alloc: Global, list: &Literals) -> Result<Addresses, Memory>
    ensures { IfOk result (λ addresses. addresses ≡ p.addresses_in list.now) }
{
    let mut items = Vec::new(alloc);
    for literal in list.items() {
        if let Some(ip) = address(literal) {
            items.push(ip)?;
        }
    }
    Ok(Addresses { items })
}

fn lies_in_blocks(ip: u32, blocks: &[Block]) -> bool
    ensures { result ≡ list_any (in_block ip) blocks.now }
{
    blocks.iter().any(|block| in_block(ip, *block))
}

/// Whether the address that a value is, or writes, lies in one of the blocks; null where it is or writes none.
pub fn is_in_blocks(value: &Value, blocks: &Blocks) -> Value
    ensures { result ≡ p.is_in_blocks value.now blocks.now }
{
    match address(value) {
        Some(ip) => Value::Bool(lies_in_blocks(ip, &blocks.items)),
        None => Value::Null,
    }
}

fn turned_if(negated: bool, b: bool) -> bool
    ensures { result ≡ p.turned_if negated b }
{
    if negated { !b } else { b }
}

fn equality(negated: bool) -> CmpOp
    ensures { result ≡ p.equality negated }
{
    if negated { CmpOp::Ne } else { CmpOp::Eq }
}

/// `==`, or with `negated` its `!=`, of a value and a text that writes this address.
pub fn equals_address(negated: bool, value: &Value, text: &Value, ip: u32) -> Value
    ensures { result ≡ p.equals_address negated value.now text.now ip }
{
    match value {
        Value::Ip(other) => Value::Bool(turned_if(negated, *other == ip)),
        _ => compare(false, equality(negated), value, text),
    }
}

fn is_one_of(ip: u32, addresses: &[u32]) -> bool
    ensures { result ≡ list_any (λ other. ip == other) addresses.now }
{
    addresses.iter().any(|other| ip == *other)
}

/// Whether a value is one of the literals, or with `negated` none of them, where the addresses are those that the
/// literals are or write; null of null. `fold` says whether texts are compared with folding.
pub fn is_among_read(
    fold: bool,
    negated: bool,
    value: &Value,
    list: &Literals,
    addresses: &Addresses,
) -> Value
    ensures { result ≡ p.is_among_read fold negated value.now list.now addresses.now }
{
    match value {
        Value::Ip(ip) => Value::Bool(turned_if(negated, is_one_of(*ip, &addresses.items))),
        _ => is_among(fold, negated, value, list),
    }
}
