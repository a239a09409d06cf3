//! The variables while a document's items are taken.

ghost use Rattle.std.specs.Prelude.{◌≡◌, ◌+◌, ◌^◌, ◌<◌, [], length, Some, None, Ok, false, true, OnOk, IfOk, IfErr};
ghost use Rattle.sk_pool.specs.Assigning.{IsTable, variables_in, place_in, values_behind, adds_mixed, is_mixing, assigned, all_assigned, AreOneKind, IsMixedOf, IsMixing};
ghost use Rattle.sk_grammar.specs.Variables.{items_of};

use crate::copies::{append_copies, begins_text, copied_values};
use crate::pool::PoolFault;
use sk_grammar::{Bytes, Doc, Item, Items, List, Op, Value};
use std::alloc::Global;
use std::collections::BTreeMap;

/// The variables so far, the places of their names, and how many items were taken.
#[derive(Drop)]
pub(crate) struct Table<'a> {
    pub names: Vec<Bytes>,
    pub values: Vec<List<Value>>,
    pub places: BTreeMap<&'a [u8], usize>,
    pub count: u32,
}

// Takes the values of an item, which has this number, into those of its variable.
fn take_values(
    alloc: Global,
    held: &mut List<Value>,
    item: &Item,
    number: u32,
) -> Result<(), PoolFault>
    requires { AreOneKind held.old }
    ensures ok { OnOk result ((adds_mixed held.old item.now ≡ false) × (held.new ≡ values_behind held.old item.now) × AreOneKind held.new) }
    ensures mixed { IfErr result (IsMixing number (adds_mixed held.old item.now)) }
{
    let added = item.values.as_slice();
    match item.op {
        Op::Set => {
            *held = copied_values(alloc, added)?;
        }
        Op::Append => {
            if begins_text(held.as_slice()) != begins_text(added) {
                return Err(PoolFault::AppendMixed(number));
            }
            append_copies(alloc, held, added)?;
        }
    }
    Ok(())
}

impl<'a> Table<'a> {
    pub fn new(alloc: Global) -> Table<'a>
        ensures table { IsTable result }
        ensures empty { variables_in result ≡ [] }
        ensures count { result.count ≡ 0 }
    {
        Table {
            names: Vec::new(alloc),
            values: Vec::new(alloc),
            places: BTreeMap::new(alloc),
            count: 0,
        }
    }

    fn place(&self, name: &'a [u8]) -> Option<usize>
        requires { IsTable self.now }
        ensures { result ≡ place_in self.now.names.items name.now }
    {
        self.places.get(&name).copied()
    }

    // Takes an item of a variable that is here already.
    fn change(&mut self, alloc: Global, place: usize, item: &Item) -> Result<(), PoolFault>
        requires table { IsTable self.old }
        requires place { place_in self.old.names.items item.now.name ≡ Some place }
        ensures ok { OnOk result (IsTable self.new × (self.new.count ≡ self.old.count) × (is_mixing (variables_in self.old) item.now ≡ false)
            × (variables_in self.new ≡ assigned (variables_in self.old) item.now)) }
        ensures mixed { IfErr result (IsMixing self.old.count (is_mixing (variables_in self.old) item.now)) }
    {
        let number = self.count;
        let held = &mut self.values[place];
        take_values(alloc, held, item, number)?;
        Ok(())
    }

    // Takes the first item of a variable, which has this name.
    fn create(&mut self, name: &'a [u8], item: Item) -> Result<(), PoolFault>
        requires table { IsTable self.old }
        requires name { name.now ≡ item.name }
        requires place { place_in self.old.names.items item.name ≡ None }
        ensures ok { OnOk result (IsTable self.new × (self.new.count ≡ self.old.count) × (is_mixing (variables_in self.old) item ≡ false)
            × (variables_in self.new ≡ assigned (variables_in self.old) item)) }
        ensures mixed { IfErr result (IsMixing self.old.count false) }
    {
        self.places.insert(name, self.names.len())?;
        let Item {
            name: own_name,
            op: _,
            values,
        } = item;
        self.names.push(own_name)?;
        self.values.push(values)?;
        Ok(())
    }

    // Takes one more item, which has this name.
    fn assign(&mut self, alloc: Global, name: &'a [u8], item: Item) -> Result<(), PoolFault>
        requires table { IsTable self.old }
        requires name { name.now ≡ item.name }
        requires count { self.old.count + 1 < 2 ^ 32 }
        ensures ok { OnOk result (IsTable self.new × (self.new.count ≡ self.old.count + 1) × (is_mixing (variables_in self.old) item ≡ false)
            × (variables_in self.new ≡ assigned (variables_in self.old) item)) }
        ensures mixed { IfErr result (IsMixing (self.old.count + 1) (is_mixing (variables_in self.old) item)) }
    {
        self.count += 1;
        match self.place(name) {
            Some(place) => self.change(alloc, place, &item),
            None => self.create(name, item),
        }
    }

    /// Takes these items, in order, of which one at a time is read.
    pub fn assign_all(&mut self, alloc: Global, items: &'a Items) -> Result<(), PoolFault>
        requires table { IsTable self.old }
        requires count { self.old.count + length items.now < 2 ^ 32 }
        ensures ok { OnOk result (IsTable self.new × (self.new.count ≡ self.old.count + length items.now)
            × (all_assigned (variables_in self.old) (self.old.count + 1) items.now ≡ Ok (variables_in self.new))) }
        ensures mixed { IfErr result (IsMixedOf (all_assigned (variables_in self.old) (self.old.count + 1) items.now)) }
    {
        let mut left = items.left();
        while let Some((name, item)) = left.next(alloc)? {
            self.assign(alloc, name, item)?;
        }
        Ok(())
    }
}

/// The table of all items of the document.
pub(crate) fn table_of(alloc: Global, doc: &Doc) -> Result<Table<'_>, PoolFault>
    requires { length (items_of doc.now) < 2 ^ 32 }
    ensures ok { IfOk result (λ table. IsTable table × (all_assigned [] 1 (items_of doc.now) ≡ Ok (variables_in table))) }
    ensures mixed { IfErr result (IsMixedOf (all_assigned [] 1 (items_of doc.now))) }
{
    let mut table = Table::new(alloc);
    for block in doc.blocks.as_slice() {
        table.assign_all(alloc, &block.items)?;
    }
    Ok(table)
}
