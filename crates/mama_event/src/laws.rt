ghost use Rattle.std.specs.Prelude.{◌≡◌, ℕ, List};
ghost use Rattle.std.specs.Bool.{Decides};

use crate::callback::{CallNote, Callback};
use crate::fids::Fids;
use crate::given::GivenOrders;
use crate::group::{GroupNote, GroupRow, GroupState, Members};
use crate::ids::{InboxId, ObjectId, SubId, TimerId};
use crate::market::{ImageHead, MarketMsg, MsgKind, Quality, SubKind};
use crate::order::{Order, Orders, PlanRow};
use crate::publisher_entry::PublisherEntry;
use crate::shape::{Bounds, Shape, Strategy, Took, Topics};
use crate::to_bridge::{BridgeNote, InboxTerms, SubTerms};
use crate::to_publisher::{PublisherNote, ToPublisher};
use crate::to_queue::{Make, QueueNote};
use crate::to_timers::TimersNote;
use crate::watch::{WatchNote, WatchRow};
use crate::wire::{PieceMsg, WireMsg};

/// A law: `==` of the plain data of this crate holds exactly where both sides are the same data.
pub fn plain_data_is_compared_exactly()
    ensures sub { (a b : SubId) → Decides (⟦<SubId as PartialEq>⟧.eq a b) (a ≡ b) }
    ensures timer { (a b : TimerId) → Decides (⟦<TimerId as PartialEq>⟧.eq a b) (a ≡ b) }
    ensures inbox { (a b : InboxId) → Decides (⟦<InboxId as PartialEq>⟧.eq a b) (a ≡ b) }
    ensures object { (a b : ObjectId) → Decides (⟦<ObjectId as PartialEq>⟧.eq a b) (a ≡ b) }
    ensures fids { (a b : List ℕ) → Decides (⟦<Fids as PartialEq>⟧.eq a b) (a ≡ b) }
    ensures kind { (a b : MsgKind) → Decides (⟦<MsgKind as PartialEq>⟧.eq a b) (a ≡ b) }
    ensures quality { (a b : Quality) → Decides (⟦<Quality as PartialEq>⟧.eq a b) (a ≡ b) }
    ensures sub_kind { (a b : SubKind) → Decides (⟦<SubKind as PartialEq>⟧.eq a b) (a ≡ b) }
    ensures market_msg { (a b : MarketMsg) → Decides (⟦<MarketMsg as PartialEq>⟧.eq a b) (a ≡ b) }
    ensures wire_msg { (a b : WireMsg) → Decides (⟦<WireMsg as PartialEq>⟧.eq a b) (a ≡ b) }
    ensures piece_msg { (a b : PieceMsg) → Decides (⟦<PieceMsg as PartialEq>⟧.eq a b) (a ≡ b) }
    ensures image_head { (a b : ImageHead) → Decides (⟦<ImageHead as PartialEq>⟧.eq a b) (a ≡ b) }
    ensures order { (a b : Order) → Decides (⟦<Order as PartialEq>⟧.eq a b) (a ≡ b) }
    ensures orders { (a b : List Order) → Decides (⟦<Orders as PartialEq>⟧.eq a b) (a ≡ b) }
    ensures given { (a b : List Order) → Decides (⟦<GivenOrders as PartialEq>⟧.eq a b) (a ≡ b) }
    ensures plan_row { (a b : PlanRow) → Decides (⟦<PlanRow as PartialEq>⟧.eq a b) (a ≡ b) }
    ensures callback { (a b : Callback) → Decides (⟦<Callback as PartialEq>⟧.eq a b) (a ≡ b) }
    ensures call_note { (a b : CallNote) → Decides (⟦<CallNote as PartialEq>⟧.eq a b) (a ≡ b) }
    ensures to_publisher { (a b : ToPublisher) → Decides (⟦<ToPublisher as PartialEq>⟧.eq a b) (a ≡ b) }
    ensures publisher_note { (a b : PublisherNote) → Decides (⟦<PublisherNote as PartialEq>⟧.eq a b) (a ≡ b) }
    ensures publisher_entry { (a b : PublisherEntry) → Decides (⟦<PublisherEntry as PartialEq>⟧.eq a b) (a ≡ b) }
    ensures make { (a b : Make) → Decides (⟦<Make as PartialEq>⟧.eq a b) (a ≡ b) }
    ensures queue_note { (a b : QueueNote) → Decides (⟦<QueueNote as PartialEq>⟧.eq a b) (a ≡ b) }
    ensures sub_terms { (a b : SubTerms) → Decides (⟦<SubTerms as PartialEq>⟧.eq a b) (a ≡ b) }
    ensures inbox_terms { (a b : InboxTerms) → Decides (⟦<InboxTerms as PartialEq>⟧.eq a b) (a ≡ b) }
    ensures bridge_note { (a b : BridgeNote) → Decides (⟦<BridgeNote as PartialEq>⟧.eq a b) (a ≡ b) }
    ensures timers_note { (a b : TimersNote) → Decides (⟦<TimersNote as PartialEq>⟧.eq a b) (a ≡ b) }
    ensures bounds { (a b : Bounds) → Decides (⟦<Bounds as PartialEq>⟧.eq a b) (a ≡ b) }
    ensures topics { (a b : List ℕ) → Decides (⟦<Topics as PartialEq>⟧.eq a b) (a ≡ b) }
    ensures shape { (a b : Shape) → Decides (⟦<Shape as PartialEq>⟧.eq a b) (a ≡ b) }
    ensures strategy { (a b : Strategy) → Decides (⟦<Strategy as PartialEq>⟧.eq a b) (a ≡ b) }
    ensures members { (a b : List SubId) → Decides (⟦<Members as PartialEq>⟧.eq a b) (a ≡ b) }
    ensures group { (a b : GroupRow) → Decides (⟦<GroupRow as PartialEq>⟧.eq a b) (a ≡ b) }
    ensures group_state { (a b : GroupState) → Decides (⟦<GroupState as PartialEq>⟧.eq a b) (a ≡ b) }
    ensures group_note { (a b : GroupNote) → Decides (⟦<GroupNote as PartialEq>⟧.eq a b) (a ≡ b) }
    ensures watch { (a b : WatchRow) → Decides (⟦<WatchRow as PartialEq>⟧.eq a b) (a ≡ b) }
    ensures watch_note { (a b : WatchNote) → Decides (⟦<WatchNote as PartialEq>⟧.eq a b) (a ≡ b) }
    ensures took { (a b : Took) → Decides (⟦<Took as PartialEq>⟧.eq a b) (a ≡ b) }
{}
