//! Arrays.
ghost use Rattle.std.specs.Prelude.{◌≡◌, ◌*◌, ◌<◌, ◌≤◌, [], ◌∷◌, ◌++◌, codes, Some, length, replicate, option_copied};
ghost use Rattle.std.specs.Prelude.{option_map, slice_get, slice_set, IfOk, IfSome};
ghost use Rattle.std.specs.Fmt.{decimal};
ghost use Rattle.sno_value.specs.declared.value.Value.TheVariants as Stored;
ghost use Rattle.sno_store.specs.Arrays.{dimensions_of, element_count, element_place};
ghost use Rattle.sno_store.specs.Stored.{stored_notions};
ghost use Rattle.sno_store.specs.Tables.{filled, rows, up_to};

use crate::dimension::Dimension;
use crate::entries::Entries;
use crate::prototype::dimensions;
use sno_value::{Text, Value, int_text};
use std::alloc::{AllocError, Global};
use std::marker::Model;

/// An array.
#[derive(Drop)]
pub(crate) struct Elements {
    text: Text,
    dimensions: Vec<Dimension>,
    values: Vec<Value>,
}

impl Model for Elements {
    ghost use Rattle.std.specs.Prelude.{◌≡◌, ◌≤◌, length};
    ghost use Rattle.sno_value.specs.declared.value.Value.{Value as Stored};
    ghost use Rattle.sno_store.specs.Arrays.{element_count};
    ghost use Rattle.sno_store.specs.Objects.{Elements as Shown};

    ghost Value = { Shown Stored };

    ghost view = { λ a. record { prototype = a.text; dimensions = a.dimensions.items; values = a.values.items } };

    ghost invariant = { λ a. (length a.values.items ≡ element_count a.dimensions.items)
        × (length a.values.items ≤ 1_000_000) };
}

impl Elements {
    /// An array of these dimensions and values.
    pub(crate) fn new(text: Text, dimensions: Vec<Dimension>, values: Vec<Value>) -> Elements
        requires count { length values.items ≡ element_count dimensions.items }
        requires few { length values.items ≤ 1_000_000 }
        ensures { result ≡ record { prototype = text; dimensions = dimensions.items; values = values.items } }
    {
        Elements {
            text,
            dimensions,
            values,
        }
    }

    /// The text that the array was made by.
    pub(crate) fn prototype(&self) -> &[u8]
        ensures { result.now ≡ self.now.prototype }
    {
        self.text.as_slice()
    }

    /// How many subscripts an element has.
    pub(crate) fn rank(&self) -> usize
        ensures { result ≡ length self.now.dimensions }
    {
        self.dimensions.len()
    }

    /// The element that subscripts name, if they are in range.
    pub(crate) fn place(&self, subscripts: &[i64]) -> Option<u32>
        requires { length subscripts.now ≡ length self.now.dimensions }
        ensures { result ≡ element_place self.now.dimensions subscripts.now }
    {
        let place = place_in(&self.dimensions, subscripts)?;
        Some(place as u32)
    }

    /// The value of an element, if there is one with this number.
    pub(crate) fn get(&self, element: u32) -> Option<&Value>
        ensures { option_copied result ≡ slice_get self.now.values element }
    {
        self.values.get(element as usize)
    }

    /// An element is given a value. Nothing changes where there is none with this number.
    pub(crate) fn set(&mut self, element: u32, value: Value)
        ensures { self.new ≡ record self.old { values = slice_set self.old.values element value } }
    {
        let place = element as usize;
        if place < self.values.len() {
            self.values[place] = value;
        }
    }
}

/// An array with this prototype, each of whose elements has the value.
pub(crate) fn uniform(
    alloc: Global,
    prototype: &[u8],
    count: u64,
    value: &Value,
) -> Result<Elements, AllocError>
    requires prototype { option_map element_count (dimensions_of prototype.now) ≡ Some count }
    requires few { count ≤ 1_000_000 }
    ensures { IfOk result (λ a. (a.prototype ≡ prototype.now) × (dimensions_of prototype.now ≡ Some a.dimensions)
        × (a.values ≡ replicate count value.now)) }
{
    let text = Text::from_slice(alloc, prototype)?;
    let dimensions = dimensions(alloc, prototype)?;
    let values = copies(alloc, count as usize, value)?;
    Ok(Elements::new(text, dimensions, values))
}

/// An array of the keys and values of a table's entries whose value isn't null, of which there are so many.
pub(crate) fn of_rows(
    alloc: Global,
    count: usize,
    entries: &Entries,
) -> Result<Elements, AllocError>
    requires count { count ≡ length (filled stored_notions entries.now) }
    requires some { 0 < count }
    requires few { 2 * count ≤ 1_000_000 }
    ensures { IfOk result (λ a. a
        ≡ record {
          prototype = decimal count ++ codes ",2";
          dimensions = up_to count ∷ up_to 2 ∷ [];
          values = rows (filled stored_notions entries.now);
        }) }
{
    let high = count as i64;
    let mut text = int_text(alloc, high)?;
    text.extend_from_slice(b",2")?;
    let mut dimensions = Vec::with_capacity(alloc, 2)?;
    dimensions.push(Dimension { low: 1, high })?;
    dimensions.push(Dimension { low: 1, high: 2 })?;
    let values = entries.rows(alloc)?;
    let text = Text::new(alloc, text)?;
    Ok(Elements::new(text, dimensions, values))
}

/// So many copies of a value, which is mostly an integer.
fn copies(alloc: Global, count: usize, value: &Value) -> Result<Vec<Value>, AllocError>
    ensures { IfOk result (λ values. values.items ≡ replicate count value.now) }
{
    let copies = match value {
        Value::Int(number) => numbers(alloc, count, *number)?,
        _ => copied(alloc, count, value)?,
    };
    Ok(copies)
}

/// So many times a number.
fn numbers(alloc: Global, count: usize, number: i64) -> Result<Vec<Value>, AllocError>
    ensures { IfOk result (λ values. values.items ≡ replicate count (Stored.Int number)) }
{
    let mut values = Vec::with_capacity(alloc, count)?;
    'values: for _put in 0..count {
        values.push(Value::Int(number))?;
    }
    Ok(values)
}

/// So many copies of any value.
fn copied(alloc: Global, count: usize, value: &Value) -> Result<Vec<Value>, AllocError>
    ensures { IfOk result (λ values. values.items ≡ replicate count value.now) }
{
    let mut values = Vec::with_capacity(alloc, count)?;
    'values: for _copied in 0..count {
        values.push(value.copy()?)?;
    }
    Ok(values)
}

/// The element that subscripts name, by the dimensions: the last subscript varies fastest.
fn place_in(dimensions: &[Dimension], subscripts: &[i64]) -> Option<u64>
    requires rank { length subscripts.now ≡ length dimensions.now }
    requires few { element_count dimensions.now ≤ 1_000_000 }
    ensures place { result ≡ element_place dimensions.now subscripts.now }
    ensures within { IfSome result (λ place. place < 1_000_000) }
{
    let mut place = 0;
    let mut block = 1;
    'dimensions: for i in (0..dimensions.len()).rev() {
        place += dimensions[i].offset(subscripts[i])? * block;
        block *= dimensions[i].size();
    }
    Some(place)
}
