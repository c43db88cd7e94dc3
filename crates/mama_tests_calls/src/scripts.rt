//! Scripts.

/// A subscription of one publisher's updates.
pub const FIRST: &str = r#"mama script 1
queues 1
topic "EQ.ABC"
publisher 0 22:bid:u32:100
update 22:bid:u32:101
update 25:ask:u32:103
update 22:bid:u32:102
client
sub 0 market 0 10 1000
"#;

/// Two clients read the clock in turn, one of them with an object of each kind; a message is lost, and a reply repeated.
pub const MIXED: &str = r#"mama script 1
queues 2
topic "A"
publisher 0 22:bid:u32:100
update 22:bid:u32:101
recap
update 25:ask:u32:103
client
sub 0 market any 10 1000
fault lose 2
at 5 stop s0.0
timer 0 10
inbox any
fault dup 1
at 1 ask i0.0 0 22
now clock
pause 2
now clock
client
now clock
"#;

/// A group, and a watch of one of its members, whose first retry brings the image that its link lost.
pub const LISTED: &str = r#"mama script 2
strategy 1
queues 1
topic "A"
publisher 0 22:bid:u32:100
client
sub 0 market 0 10 1000
sub 0 market 0 10 1000
fault lose 1
timer 0 10
now 10
now 20
group s0.0 s0.1
watch s0.1 t0.0 1
"#;
