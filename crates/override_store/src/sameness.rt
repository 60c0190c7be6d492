//! Whether two schemas are the same, part by part.

ghost use Rattle.std.specs.Prelude.{◌≡◌, IsTrue};

use sqlite_items::Items;
use sqlite_schema::code::{Op, Terms};
use sqlite_schema::schema::{Column, Index, Schema, Stamps, Table};
use sqlite_value::keys::Order;
use sqlite_value::value::{Bytes, Value};

/// What can be compared with another of its type. If in doubt, it is not the same.
pub(crate) trait Same {
    fn is_same(&self, other: &Self) -> bool
        ensures { IsTrue result → self.now ≡ other.now };
}

/// Whether both are the same, one by one.
pub(crate) fn all_same<T: Same>(one: &[T], other: &[T]) -> bool
    ensures { IsTrue result → one.now ≡ other.now }
{
    if one.len() != other.len() {
        return false;
    }
    for place in 0..one.len() {
        if !one[place].is_same(&other[place]) {
            return false;
        }
    }
    true
}

impl<T: Same> Same for Items<T> {
    fn is_same(&self, other: &Items<T>) -> bool {
        all_same(self.as_slice(), other.as_slice())
    }
}

impl Same for usize {
    fn is_same(&self, other: &usize) -> bool {
        *self == *other
    }
}

impl Same for Order {
    fn is_same(&self, other: &Order) -> bool {
        self.digits == other.digits
    }
}

impl Same for Bytes {
    fn is_same(&self, other: &Bytes) -> bool {
        self.as_slice() == other.as_slice()
    }
}

impl Same for Value {
    fn is_same(&self, other: &Value) -> bool {
        match (self, other) {
            (Value::Null, Value::Null) => true,
            (Value::Int(one), Value::Int(two)) => *one == *two,
            (Value::Text(one), Value::Text(two)) => one.is_same(two),
            _ => false,
        }
    }
}

impl Same for Op {
    fn is_same(&self, other: &Op) -> bool {
        match (self, other) {
            (Op::Literal(one), Op::Literal(two)) => one.is_same(two),
            (Op::Column(slot, place), Op::Column(slot_too, place_too)) => {
                *slot == *slot_too && *place == *place_too
            }
            (Op::Binary(op, left, right), Op::Binary(op_too, left_too, right_too)) => {
                *op == *op_too && *left == *left_too && *right == *right_too
            }
            _ => false,
        }
    }
}

impl Same for Terms {
    fn is_same(&self, other: &Terms) -> bool {
        self.nodes.is_same(&other.nodes) && self.roots.is_same(&other.roots)
    }
}

impl Same for Column {
    fn is_same(&self, other: &Column) -> bool {
        let is_kind = self.kind == other.kind && self.is_strict == other.is_strict;
        let is_rule = self.not_null == other.not_null && self.collation == other.collation;
        let is_name = self.name.is_same(&other.name);
        let is_default = self.default.is_same(&other.default);
        is_name && is_kind && is_rule && is_default
    }
}

impl Same for Stamps {
    fn is_same(&self, other: &Stamps) -> bool {
        let is_place = self.places.is_same(&other.places);
        let is_format = self.formats.is_same(&other.formats);
        let is_term = self.terms.is_same(&other.terms);
        is_place && is_format && is_term
    }
}

// The keys of a table, and what it has no rule for.
fn has_same_keys(one: &Table, two: &Table) -> bool
    ensures primary { IsTrue result → one.now.primary ≡ two.now.primary }
    ensures uniques { IsTrue result → one.now.uniques ≡ two.now.uniques }
    ensures orders { IsTrue result → one.now.orders ≡ two.now.orders }
    ensures references { IsTrue result → one.now.references ≡ two.now.references }
    ensures key { IsTrue result → one.now.key ≡ two.now.key }
{
    let is_primary = one.primary.is_same(&two.primary);
    let is_unique = one.uniques.is_same(&two.uniques);
    let is_order = one.orders.is_same(&two.orders);
    let is_bound = one.references.is_empty() && two.references.is_empty();
    let is_key = one.key.is_none() && two.key.is_none();
    is_primary && is_unique && is_order && is_bound && is_key
}

impl Same for Table {
    fn is_same(&self, other: &Table) -> bool {
        let is_named = self.name.is_same(&other.name) && self.tree == other.tree;
        let is_column = self.columns.is_same(&other.columns);
        let is_check = self.checks.is_same(&other.checks);
        let is_computed = self.computed.is_same(&other.computed);
        let is_stamped = self.stamps.is_same(&other.stamps);
        let is_counted = self.is_counted == other.is_counted;
        let is_keyed = has_same_keys(self, other);
        is_named && is_column && is_check && is_computed && is_stamped && is_counted && is_keyed
    }
}

impl Same for Index {
    fn is_same(&self, other: &Index) -> bool {
        let is_named = self.name.is_same(&other.name) && self.tree == other.tree;
        let is_of = self.table == other.table && self.columns.is_same(&other.columns);
        let is_order = self.order.is_same(&other.order) && self.is_unique == other.is_unique;
        is_named && is_of && is_order
    }
}

impl Same for Schema {
    fn is_same(&self, other: &Schema) -> bool {
        let is_table = self.tables.is_same(&other.tables);
        let is_index = self.indexes.is_same(&other.indexes);
        let is_view = self.views.is_empty() && other.views.is_empty();
        is_table && is_index && is_view
    }
}
