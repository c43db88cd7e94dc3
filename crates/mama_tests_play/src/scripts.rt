//! The scripts that are played.

/// One subscription, of which no message is lost.
pub const FIRST: &str = r#"mama script 1
queues 1
topic "EQ.ABC"
publisher 0 22:bid:u32:100
update 22:bid:u32:101
update 25:ask:u32:103
update 22:bid:u32:102
client
sub 0 market 0 10 1000
"#;

/// The same in version 2, with a group of its subscription.
pub const GROUPED: &str = r#"mama script 2
strategy 1
queues 1
topic "EQ.ABC"
publisher 0 22:bid:u32:100
update 22:bid:u32:101
update 25:ask:u32:103
update 22:bid:u32:102
client
sub 0 market 0 10 1000
group s0.0
"#;

/// How each log of the first ends.
pub const FIRST_IMAGE: &str = "images\ns0.0 ok 1 3 22:bid:u32:102 25:ask:u32:103\nend\n";

/// Two queues with one subscription each.
pub const TWO_QUEUES: &str = r#"mama script 1
queues 2
topic "EQ.ABC"
publisher 0 22:bid:u32:100
update 22:bid:u32:101
client
sub 0 market 0 10 1000
sub 0 market 1 10 1000
"#;

/// Four queues, of which the first and the third have all subscriptions.
pub const UNEVEN: &str = r#"mama script 1
queues 4
topic "EQ.ABC"
topic "EQ.XYZ"
publisher 0 22:bid:u32:100
update 22:bid:u32:101
update 22:bid:u32:102
update 22:bid:u32:103
publisher 1 22:bid:u32:200
update 22:bid:u32:201
update 22:bid:u32:202
client
sub 0 market 0 10 1000
sub 1 market 0 10 1000
sub 0 market 2 10 1000
sub 1 market 2 10 1000
"#;

/// A topic whose publisher no one hears, and one with a subscription, of publishers without updates; and a queue with nothing to
/// do.
pub const TWO_TOPICS: &str = r#"mama script 1
queues 2
topic "EQ.ABC"
topic "EQ.DEF"
publisher 0 22:bid:u32:100
publisher 1 22:bid:u32:200
client
sub 1 market 0 10 1000
"#;
