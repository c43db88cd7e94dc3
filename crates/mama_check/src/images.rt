ghost use Rattle.std.specs.Prelude.{◌≡◌, ◌≢◌, ℕ, [], ◌∷◌, length, slice_index_or, IfSome, IfNone};
ghost use Rattle.mama_event.specs.Object.{same_sub};
ghost use Rattle.mama_record.specs.RunView as view;
ghost use Rattle.mama_rules_rounds.specs.Sections.{setting_of};
ghost use Rattle.mama_plans.specs.Plans.{planned_object};
ghost use Rattle.mama_check_queue.specs.Served.{image_given};
ghost use Rattle.mama_check_queue.specs.Recorded.{AreOf, journals_of, image_by, images_by};
ghost use Rattle.mama_rules_legal.specs.Form.{IsFormed};
ghost use Rattle.mama_check.specs.First.{IsFirst};
ghost use Rattle.mama_check.specs.Images.{KeepsImage, own_first, own_rest, first_for, rest_for};
ghost use Rattle.mama_check.specs.Puts.{AreServed};

use mama_check_order::{is_same_head, is_same_message};
use mama_check_queue::{ImageRow, ServedQueue};
use mama_event::{ImageHead, ObjectId, SubId};
use mama_msg::Msg;
use mama_plans::{PlannedObject, Plans};
use mama_record::RunRecord;
use mama_script::Script;

/// The last image of a subscription on the queue of this number. The queues follow these plans.
fn image_on<'s>(
    plans: &Plans,
    served: &'s [ServedQueue],
    queue: u32,
    sub: SubId,
) -> Option<ImageRow<'s>>
    requires { AreOf plans.now served.now }
    ensures { image_given sub result ≡ image_by plans.now (slice_index_or (journals_of served.now) queue []) (ObjectId.Sub sub) }
{
    let queue = queue as usize;
    if queue < served.len() {
        return served[queue].image(sub);
    }
    None
}

/// Whether an image is of a subscription.
fn is_of(other: &SubId, sub: SubId) -> bool
    ensures { result ≡ same_sub other.now sub }
{
    other.client == sub.client && other.number == sub.number
}

/// What is left of a record after the one image of a subscription, if that is the first.
fn after_one<'r>(
    left: &'r [(SubId, ImageHead, Msg)],
    sub: SubId,
    head: &ImageHead,
    body: &Msg,
) -> Option<&'r [(SubId, ImageHead, Msg)]>
    ensures first { IfSome result (λ rest. own_first sub (view.images_of left.now) ≡ record { sub = sub; head = head.now; body = body.now } ∷ []) }
    ensures rest { IfSome result (λ rest. view.images_of rest.now ≡ own_rest sub (view.images_of left.now)) }
    ensures none { IfNone result (own_first sub (view.images_of left.now) ≢ record { sub = sub; head = head.now; body = body.now } ∷ []) }
{
    match left.split_first() {
        Some(((other, other_head, other_body), rest)) => if is_of(other, sub)
            && is_same_head(other_head, head)
            && is_same_message(other_body, body)
        {
            Some(rest)
        } else {
            None
        },
        None => None,
    }
}

/// What is left of a record where a subscription has no image, if the first is not of it.
fn after_none<'r>(
    left: &'r [(SubId, ImageHead, Msg)],
    sub: SubId,
) -> Option<&'r [(SubId, ImageHead, Msg)]>
    ensures first { IfSome result (λ rest. own_first sub (view.images_of left.now) ≡ []) }
    ensures rest { IfSome result (λ rest. view.images_of rest.now ≡ own_rest sub (view.images_of left.now)) }
    ensures none { IfNone result (own_first sub (view.images_of left.now) ≢ []) }
{
    match left.split_first() {
        Some(((other, _, _), _)) => if is_of(other, sub) { None } else { Some(left) },
        None => Some(left),
    }
}

/// What is left of a record after the images at its head that are of a subscription, if they are those that were found.
fn after_found<'r>(
    left: &'r [(SubId, ImageHead, Msg)],
    sub: SubId,
    found: Option<ImageRow>,
) -> Option<&'r [(SubId, ImageHead, Msg)]>
    ensures first { IfSome result (λ rest. own_first sub (view.images_of left.now) ≡ image_given sub found.entry) }
    ensures rest { IfSome result (λ rest. view.images_of rest.now ≡ own_rest sub (view.images_of left.now)) }
    ensures none { IfNone result (own_first sub (view.images_of left.now) ≢ image_given sub found.entry) }
{
    match found {
        Some(image) => after_one(left, sub, &image.head, image.body),
        None => after_none(left, sub),
    }
}

/// What is left of a record after the images at its head that are of an object, if they are those that its queue leaves.
/// The queues follow these plans.
fn after_object<'r>(
    plans: &Plans,
    served: &[ServedQueue],
    planned: &PlannedObject,
    left: &'r [(SubId, ImageHead, Msg)],
) -> Option<&'r [(SubId, ImageHead, Msg)]>
    requires { AreOf plans.now served.now }
    ensures first { IfSome result (λ rest. first_for planned.now.object (view.images_of left.now) ≡ images_by plans.now (journals_of served.now) (planned_object planned.now)) }
    ensures rest { IfSome result (λ rest. view.images_of rest.now ≡ rest_for planned.now.object (view.images_of left.now)) }
    ensures none { IfNone result (first_for planned.now.object (view.images_of left.now) ≢ images_by plans.now (journals_of served.now) (planned_object planned.now)) }
{
    match planned.object {
        ObjectId::Sub(sub) => {
            let found = image_on(plans, served, planned.queue, sub);
            after_found(left, sub, found)
        }
        ObjectId::Timer(_) => Some(left),
        ObjectId::Inbox(_) => Some(left),
    }
}

/// The first object for which another image stands than its strategy leaves, or one too many or too few. The plans are
/// those of the script, the queues were served by their journals, and the images stand in the order of the objects.
pub fn first_of_images(
    script: &Script,
    run: &RunRecord,
    plans: &Plans,
    served: &[ServedQueue],
) -> Option<usize>
    requires formed { IsFormed script.now run.now }
    requires plans { plans.now ≡ (setting_of script.now).objects }
    requires served { AreServed script.now run.now served.now }
    ensures { IsFirst (KeepsImage script.now run.now) (length (setting_of script.now).objects) result }
{
    let mut left = run.images();
    let objects = plans.objects();
    for (k, planned) in objects.iter().enumerate() {
        match after_object(plans, served, planned, left) {
            Some(rest) => left = rest,
            None => return Some(k),
        }
    }
    None
}
