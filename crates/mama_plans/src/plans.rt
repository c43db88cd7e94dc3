ghost use Rattle.std.specs.Prelude.{◌≡◌, ◌++◌, ◌∷◌, [], List, length, IfOk, OnOk};
ghost use Rattle.mama_rules_rounds.specs.Setting.{plan_in, rows_of};
ghost use Rattle.mama_rules_rounds.specs.Sections.{queue_of};
ghost use Rattle.mama_journal.specs.Journal.{first_said};
ghost use Rattle.mama_event.specs.declared.ids.ObjectId.{ObjectId};
ghost use Rattle.mama_plans.specs.Plans.{planned_objects, AreFew, AreApart};
ghost use Rattle.mama_plans.specs.Places.{objects_in, ArePlaced};

use indexmap::IndexMap;
use mama_event::{ObjectId, PlanRow};
use mama_memory::OutOfMemory;
use std::alloc::Global;
use std::marker::Model;

/// An object of a script, with its queue and its plan.
#[derive(Drop)]
pub struct PlannedObject {
    pub object: ObjectId,
    pub queue: u32,
    pub plan: Vec<PlanRow>,
}

/// The objects of a script with their plans: subscriptions, timers and inboxes, each by client and number. Each is
/// found by its id.
#[derive(Drop)]
pub struct Plans {
    objects: Vec<PlannedObject>,
    places: IndexMap<ObjectId, usize>,
}

impl Model for Plans {
    ghost use Rattle.std.specs.Prelude.{List};
    ghost use Rattle.mama_rules_rounds.specs.Client.{Planned};

    ghost Value = { List Planned };

    ghost use Rattle.mama_plans.specs.Plans.{planned_objects};
    ghost use Rattle.mama_plans.specs.Places.{ArePlans};

    ghost view = { λ p. planned_objects p.objects.items };

    ghost invariant = { λ p. ArePlans p.objects.items p.places };
}

impl Plans {
    /// The plans of these objects.
    pub(crate) fn new(alloc: Global, objects: Vec<PlannedObject>) -> Result<Plans, OutOfMemory>
        requires few { AreFew (planned_objects objects.items) }
        requires apart { AreApart (planned_objects objects.items) }
        ensures { IfOk result (λ plans. plans ≡ planned_objects objects.items) }
    {
        let places = places_of(alloc, &objects)?;
        Ok(Plans { objects, places })
    }

    /// A fact about any plans: each has at most 8 orders for a call.
    pub fn are_few(&self)
        ensures { AreFew self.now }
    {
        let _ = &self.objects;
    }

    /// A fact about any plans: no two of the objects are one.
    pub fn are_apart(&self)
        ensures { AreApart self.now }
    {
        let _ = &self.objects;
    }

    /// The objects in their order.
    pub fn objects(&self) -> &[PlannedObject]
        ensures { planned_objects result.now ≡ self.now }
    {
        self.objects.as_slice()
    }

    /// The queue of an object; 0 where it is not among these.
    pub fn queue(&self, object: &ObjectId) -> u32
        ensures { result ≡ queue_of self.now object.now }
    {
        match self.places.get(object) {
            Some(place) => self.objects[*place].queue,
            None => 0,
        }
    }

    /// The plan of an object; no rows where it is not among these.
    pub fn plan(&self, object: &ObjectId) -> &[PlanRow]
        ensures { result.now ≡ rows_of (first_said (plan_in object.now) self.now) }
    {
        match self.places.get(object) {
            Some(place) => self.objects[*place].plan.as_slice(),
            None => &[],
        }
    }
}

/// The objects' places, by their ids.
fn places_of(
    alloc: Global,
    objects: &[PlannedObject],
) -> Result<IndexMap<ObjectId, usize>, OutOfMemory>
    ensures { IfOk result (λ places. ArePlaced places (objects_in objects.now)) }
{
    let mut places = IndexMap::new(alloc);
    for (place, planned) in objects.iter().enumerate() {
        add_place(&mut places, planned.object, place)?;
    }
    Ok(places)
}

/// Adds the place of an object, if it has none yet.
fn add_place(
    places: &mut IndexMap<ObjectId, usize>,
    object: ObjectId,
    place: usize,
) -> Result<(), OutOfMemory>
    ensures { OnOk result ((ids : List ObjectId) → place ≡ length ids → ArePlaced places.old ids → ArePlaced places.new (ids ++ object ∷ [])) }
{
    if places.contains_key(&object) {
        return Ok(());
    }
    places.insert(object, place)?;
    Ok(())
}
