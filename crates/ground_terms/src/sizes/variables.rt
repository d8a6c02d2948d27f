//! Variables and the objects over which they range.

ghost use Rattle.std.specs.Prelude.{◌≡◌, ◌<◌, ◌==◌, ◌∷◌, [], length, map, All, IfOk};
ghost use Rattle.std.specs.List.{list_any};
ghost use Rattle.ppddl_model.specs.Objects.{is_under, objects_of, bindings};
ghost use Rattle.type_table.specs.Types.{object_at, kind_at};
ghost use Rattle.ground_terms.specs.sizes.Counted.{counted};
ghost use Rattle.ground_terms.specs.sizes.Flags.{IsMarkedBy, AreFlags};
ghost use Rattle.ground_terms.specs.sizes.Typed.{IsTyped, names_of};

use plain_list::{List, Text};
use ppddl_model::Param;
use std::alloc::{AllocError, Global};
use type_table::TypeTable;

/// For how many objects there are flags, which take no memory. More than 1,000 objects are refused before
/// any of them is bound.
const FLAGS: usize = 1024;

/// Whether an object is of the type of this name.

fn is_of_kind(table: &TypeTable, object: u32, kind: &[u8]) -> bool
    requires typed { IsTyped table.now }
    requires object { object < length table.now.objects }
    ensures { result ≡ is_under table.now (kind_at table.now object) kind.now }
{
    match table.type_number(kind) {
        Some(number) => table.is_of(object, number),
        None => false,
    }
}

/// Whether an object is of any of these types.
fn is_of_any(table: &TypeTable, object: u32, kinds: &[Text]) -> bool
    requires typed { IsTyped table.now }
    requires object { object < length table.now.objects }
    ensures { result ≡ list_any (is_under table.now (kind_at table.now object)) kinds.now }
{
    for kind in kinds {
        if is_of_kind(table, object, kind.as_slice()) {
            return true;
        }
    }
    false
}

/// The objects of the type of this name.

fn objects_of_kind<'a>(table: &'a TypeTable, kind: &[u8]) -> &'a [u32]
    requires { IsTyped table.now }
    ensures objects { map (object_at table.now) result.now ≡ names_of table.now (kind.now ∷ []) }
    ensures within { All (λ o. o < length table.now.objects) result.now }
{
    match table.type_number(kind) {
        Some(number) => table.objects_of(number),
        None => &[],
    }
}

/// Sets the flags of objects, of those that have one.
fn mark(flags: &mut [bool], objects: &[u32])
    ensures { IsMarkedBy (λ i. list_any (λ o. o == i) objects.now) flags.old flags.new }
{
    for object in objects {
        if (*object as usize) < flags.len() {
            flags[*object as usize] = true;
        }
    }
}

/// Flags of the first objects, set where the object is of any of these types.
fn flags_of<const N: usize>(table: &TypeTable, kinds: &[Text]) -> [bool; N]
    requires { IsTyped table.now }
    ensures { AreFlags table.now kinds.now result }
{
    let mut flags = [false; N];
    for kind in kinds {
        mark(&mut flags, objects_of_kind(table, kind.as_slice()));
    }
    flags
}

/// Whether an object is of any of these types: by its flag where it has one.
fn is_chosen(table: &TypeTable, flags: &[bool], object: u32, kinds: &[Text]) -> bool
    requires typed { IsTyped table.now }
    requires object { object < length table.now.objects }
    requires flags { AreFlags table.now kinds.now flags.now }
    ensures { result ≡ list_any (is_under table.now (kind_at table.now object)) kinds.now }
{
    if (object as usize) < flags.len() {
        return flags[object as usize];
    }
    is_of_any(table, object, kinds)
}

/// The objects of any of these types.
fn objects_of_any(alloc: Global, table: &TypeTable, kinds: &[Text]) -> Result<Vec<u32>, AllocError>
    requires { IsTyped table.now }
    ensures objects { IfOk result
        (λ os. map (object_at table.now) os.items ≡ names_of table.now kinds.now) }
    ensures within { IfOk result (λ os. All (λ o. o < length table.now.objects) os.items) }
{
    let flags = flags_of::<FLAGS>(table, kinds);
    let mut objects = Vec::new(alloc);
    for object in objects_of_kind(table, b"object") {
        if is_chosen(table, &flags, *object, kinds) {
            objects.push(*object)?;
        }
    }
    Ok(objects)
}

/// The objects over which a variable ranges, by number, in declared order.
pub fn objects_of(
    alloc: Global,
    table: &TypeTable,
    variable: &Param,
) -> Result<List<u32>, AllocError>
    requires { IsTyped table.now }
    ensures objects { IfOk result
        (λ os. map (object_at table.now) os ≡ objects_of table.now variable.now) }
    ensures within { IfOk result (λ os. All (λ o. o < length table.now.objects) os) }
{
    let kinds = variable.kinds.as_slice();
    if kinds.len() == 1 {
        let row = objects_of_kind(table, kinds[0].as_slice());
        return Ok(List::from_vec(Vec::from_slice(alloc, row)?));
    }
    Ok(List::from_vec(objects_of_any(alloc, table, kinds)?))
}

/// Over how many objects a variable ranges.
pub fn count_objects(table: &TypeTable, variable: &Param) -> usize
    requires { IsTyped table.now }
    ensures { result ≡ length (objects_of table.now variable.now) }
{
    let kinds = variable.kinds.as_slice();
    if kinds.len() == 1 {
        return objects_of_kind(table, kinds[0].as_slice()).len();
    }
    let flags = flags_of::<FLAGS>(table, kinds);
    let mut count: usize = 0;
    for object in objects_of_kind(table, b"object") {
        if is_chosen(table, &flags, *object, kinds) {
            count += 1;
        }
    }
    count
}

/// In how many ways these variables can be bound.

pub fn count_bindings(table: &TypeTable, variables: &[Param]) -> u64
    requires { IsTyped table.now }
    ensures { result ≡ counted (length (bindings table.now variables.now [])) }
{
    let mut count: u64 = 1;
    for variable in variables {
        if count == 0 {
            return 0;
        }
        count = count.saturating_mul(count_objects(table, variable) as u64);
    }
    count
}
