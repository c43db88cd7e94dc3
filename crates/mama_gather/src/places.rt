// What belongs to the objects of a script, each at the place of its object.
ghost use Rattle.std.specs.Prelude.{◌≡◌, true, map, None, Some, IfOk, OnOk};
ghost use Rattle.std.specs.Bool.{Decides};
ghost use Rattle.std.specs.List.{All};
ghost use Rattle.mama_gather.specs.Places.{IsPut, IsPlaceOf};

use indexmap::IndexMap;
use mama_event::ObjectId;
use mama_memory::OutOfMemory;
use mama_plans::{PlannedObject, Plans};
use std::alloc::Global;

/// Where each object stands among those of a script.
#[derive(Drop)]
pub(crate) struct Places {
    places: IndexMap<ObjectId, usize>,
}

impl Places {
    /// The places of the objects of these plans.
    pub(crate) fn of(alloc: Global, plans: &Plans) -> Result<Places, OutOfMemory> {
        let mut places = IndexMap::new(alloc);
        for (place, planned) in plans.objects().iter().enumerate() {
            places.insert(planned.object, place)?;
        }
        Ok(Places { places })
    }

    /// Puts a value at the place of an object of this queue. The answer is the error where the object is not one of the
    /// queue's, or where its place is taken; no crew has that.
    pub(crate) fn put<T: Drop>(
        &self,
        plans: &Plans,
        found: &mut Vec<Option<T>>,
        queue: u32,
        object: ObjectId,
        value: T,
    ) -> Result<(), OutOfMemory>
        ensures { OnOk result (IsPut plans.now queue object value found.old.items found.new.items) }
    {
        let Some(place) = self.places.get(&object) else {
            return Err(OutOfMemory);
        };
        let place = *place;
        if !is_on(plans, place, queue, &object) {
            return Err(OutOfMemory);
        }
        if place >= found.len() || found[place].is_some() {
            return Err(OutOfMemory);
        }
        found[place] = Some(value);
        Ok(())
    }
}

// Whether the object of this place is this one, and is on this queue.
fn is_on(plans: &Plans, place: usize, queue: u32, object: &ObjectId) -> bool
    ensures { result ≡ true → IsPlaceOf plans.now place queue object.now }
{
    let objects = plans.objects();
    if place < objects.len() {
        return is_planned(&objects[place], queue, object);
    }
    false
}

// Whether it is this object, and on this queue.
fn is_planned(planned: &PlannedObject, queue: u32, object: &ObjectId) -> bool
    ensures queue { result ≡ true → planned.now.queue ≡ queue }
    ensures object { result ≡ true → planned.now.object ≡ object.now }
{
    if planned.queue != queue {
        return false;
    }
    is_same(planned.object, object)
}

fn is_same(own: ObjectId, object: &ObjectId) -> bool
    ensures { Decides result (own ≡ object.now) }
{
    own == *object
}

/// An empty place for each object.
pub(crate) fn no_values<T: Drop>(
    alloc: Global,
    plans: &Plans,
) -> Result<Vec<Option<T>>, OutOfMemory>
    ensures { IfOk result (λ found. All (λ value. value ≡ None) found.items) }
{
    let mut found = Vec::with_capacity(alloc, plans.objects().len())?;
    for _ in 0..plans.objects().len() {
        found.push(None)?;
    }
    Ok(found)
}

/// The values in the order of the objects, each beside its object. The error is want of memory, or a place that is empty,
/// which no crew has.
pub fn in_order<T: Drop>(
    alloc: Global,
    plans: &Plans,
    found: Vec<Option<T>>,
) -> Result<Vec<(ObjectId, T)>, OutOfMemory>
    ensures objects { IfOk result (λ values. map (λ v. v.0) values.items ≡ map (λ p. p.object) plans.now) }
    ensures values { IfOk result (λ values. map (λ v. Some v.1) values.items ≡ found.items) }
{
    let objects = plans.objects();
    let mut values = Vec::with_capacity(alloc, objects.len())?;
    for value in found {
        let place = values.len();
        if place >= objects.len() {
            return Err(OutOfMemory);
        }
        let Some(value) = value else {
            return Err(OutOfMemory);
        };
        values.push((objects[place].object, value))?;
    }
    if values.len() != objects.len() {
        return Err(OutOfMemory);
    }
    Ok(values)
}
