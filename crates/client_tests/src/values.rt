//! Values of each type that maps may hold: a map gives back what was put.
use crate::numbers::{Brittle, Number};
use std::alloc::{AllocError, Global};
use std::fmt::Write;
use wolimevar::{Body, Entries, Layout, Map, Refusal, Scope, Store, Transaction, Value};

/// A value is put, and got again.
#[derive(Drop)]
struct GiveBack<'a, V> {
    map: Map<V>,
    value: &'a V,
}

impl<V: Value> Body<V> for GiveBack<'_, V> {
    type Out = Option<V>;

    type Error = Refusal;

    fn run<S: Scope<V>>(&self, tx: &mut Transaction<'_, V, S>) -> Result<Option<V>, Refusal> {
        self.map.put(tx, 1, self.value.try_copy()?)?;
        self.map.get(tx, 1)
    }
}

fn given<V: Value>(store: &mut Store<V>, body: &GiveBack<'_, V>) -> Result<Option<V>, Refusal> {
    let (given, _) = store.atomically(1, body)?;
    Ok(given)
}

/// What a map gives back of the value.
fn gives_back<V: Value>(alloc: Global, value: &V) -> Result<Option<V>, Refusal> {
    let mut layout = Layout::new(alloc);
    let map = layout.map(1, Entries::new(alloc))?;
    let mut store = layout.open()?;
    let given = given(&mut store, &GiveBack { map, value });
    drop(store);
    given
}

/// Whether what was given is the same in what is of this type.
fn is_same(value: &Brittle, given: &Brittle, name: &str) -> bool {
    let (((small, yes), (unit, (pair, maybe))), _) = &value.others;
    let (((given_small, given_yes), (given_unit, (given_pair, given_maybe))), _) = &given.others;
    match name {
        "u64" => value.number.same(&given.number),
        "u32" => small.same(given_small),
        "bool" => yes.same(given_yes),
        "()" => unit.same(given_unit),
        "(u64, bool)" => pair.same(given_pair),
        _ => maybe.same(given_maybe),
    }
}

fn print_same(
    text: &mut String,
    value: &Brittle,
    given: &Brittle,
    name: &str,
) -> Result<(), AllocError> {
    let (_, (own, shared)) = &given.others;
    match name {
        "Text" => text.push_str(own.as_str()),
        "Shared<Text>" => text.push_str(shared.get().as_str()),
        _ => write!(text, "{}", is_same(value, given, name)),
    }
}

/// Prints whether a map gives back what was put, in what is of this type, and of texts what it gave.
pub fn print_given(text: &mut String, name: &str) -> Result<(), Refusal> {
    let alloc = *text.allocator();
    let value = Brittle::of(alloc, 7)?;
    match gives_back(alloc, &value)? {
        Some(given) => Ok(print_same(text, &value, &given, name)?),
        None => Ok(text.push_str("none")?),
    }
}
