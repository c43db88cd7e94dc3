//! Worked scripts and their logs.

/// A subscription of one publisher's updates.
pub const FIRST: &str = r#"mama script 1
queues 1
topic "EQ.ABC"
publisher 0 22:bid:u32:100
update 22:bid:u32:101
update 25:ask:u32:103
update 22:bid:u32:102
client
sub 0 market 0 10 1000
"#;

/// Its log.
pub const FIRST_LOG: &str = r#"mama log 1
client 0
publisher 0
want s0.0 initial
send
send
send
done
settle
fin
bridge
c0 join s0.0
p0 image s0.0 initial 1 0 22:bid:u32:100
p0 publish update 1 1 22:bid:u32:101
c0 done
p0 publish update 1 2 25:ask:u32:103
p0 publish update 1 3 22:bid:u32:102
p0 done
p0 settled
q0 bye
timers
c0 done
b fin
q0 bye
queue 0
b create 0 s0.0
b data 0 s0.0 initial 1 0 22:bid:u32:100
b data 0 s0.0 update 1 1 22:bid:u32:101
b data 0 s0.0 update 1 2 25:ask:u32:103
b data 0 s0.0 update 1 3 22:bid:u32:102
b gone 0 s0.0
b fin
t fin
on s0.0
create
msg initial 1 0 ok 22:bid:u32:100
msg update 1 1 ok 22:bid:u32:101
msg update 1 2 ok 25:ask:u32:103
msg update 1 3 ok 22:bid:u32:102
destroy
images
s0.0 ok 1 3 22:bid:u32:102 25:ask:u32:103
end
"#;

/// A link that loses the second update.
pub const GAP: &str = r#"mama script 1
queues 1
topic "EQ.ABC"
publisher 0 22:bid:u32:100
update 22:bid:u32:101
update 25:ask:u32:103
update 22:bid:u32:102
update 25:ask:u32:104
client
sub 0 market 0 10 1000
fault lose 3
"#;

// The log of that script, with these lines for the gap and the update that shows it.
macro_rules! gap_log {
    ($told:literal) => {
        concat!(
            r#"mama log 1
client 0
publisher 0
want s0.0 initial
send
send
send
want s0.0 recap
send
done
settle
fin
bridge
c0 join s0.0
p0 image s0.0 initial 1 0 22:bid:u32:100
p0 publish update 1 1 22:bid:u32:101
c0 done
p0 publish update 1 2 25:ask:u32:103
p0 publish update 1 3 22:bid:u32:102
q0 recap s0.0 1
p0 image s0.0 recap 1 3 22:bid:u32:102 25:ask:u32:103
p0 publish update 1 4 25:ask:u32:104
p0 done
p0 settled
q0 bye
timers
c0 done
b fin
q0 bye
queue 0
b create 0 s0.0
b data 0 s0.0 initial 1 0 22:bid:u32:100
b data 0 s0.0 update 1 1 22:bid:u32:101
b data 0 s0.0 update 1 3 22:bid:u32:102
b data 0 s0.0 recap 1 3 22:bid:u32:102 25:ask:u32:103
b data 0 s0.0 update 1 4 25:ask:u32:104
b gone 0 s0.0
b fin
t fin
on s0.0
create
msg initial 1 0 ok 22:bid:u32:100
msg update 1 1 ok 22:bid:u32:101
"#,
            $told,
            r#"msg recap 1 3 ok 22:bid:u32:102 25:ask:u32:103
quality ok 3
msg update 1 4 ok 25:ask:u32:104
destroy
images
s0.0 ok 1 4 22:bid:u32:102 25:ask:u32:104
end
"#
        )
    };
}

/// Its log, which docs/LOG.md explains line by line.
pub const GAP_LOG: &str = gap_log!(
    "gap 2 2\nquality stale 1\nrequest 1\nmsg update 1 3 stale 22:bid:u32:102\n"
);

/// The same with the update told before its gap.
pub const GAP_LATE_LOG: &str = gap_log!(
    "msg update 1 3 stale 22:bid:u32:102\ngap 2 2\nquality stale 1\nrequest 1\n"
);

/// A subscription that is stopped in its second callback.
pub const STOP: &str = r#"mama script 1
queues 1
topic "EQ.ABC"
publisher 0 22:bid:u32:100
client
sub 0 market 0 10 1000
at 2 stop s0.0
"#;

/// A log of it in which the bridge took the Leave of a callback before what let the queue make that callback.
pub const STOP_EARLY_LOG: &str = r#"mama log 1
client 0
publisher 0
want s0.0 initial
done
settle
fin
bridge
c0 join s0.0
q0 leave s0.0
p0 image s0.0 initial 1 0 22:bid:u32:100
c0 done
p0 done
p0 settled
q0 bye
timers
c0 done
b fin
q0 bye
queue 0
b create 0 s0.0
b gone 0 s0.0
b fin
t fin
on s0.0
create
destroy
order stop s0.0
images
end
"#;
