use crate::rows::numbered;
use mama_event::{GroupState, MsgKind, ObjectId, Order, Quality, SubId, SubKind};
use mama_memory::OutOfMemory;
use mama_msg::Msg;
use mama_words::{
    Nums, ReadError, parted, print_block, print_fields, print_group_state, print_msg_kind,
    print_object_id, print_order, print_quality, print_sub_kind, read_block, read_message,
    read_order,
};
use std::alloc::Global;
use std::test::Fail;

// The fault of an answer, or 0.
fn told<T: Drop>(answer: Result<T, ReadError>) -> Result<u64, OutOfMemory> {
    match answer {
        Ok(_) => Ok(0),
        Err(ReadError::Fault(fault)) => Ok(u64::from(fault)),
        Err(ReadError::Memory) => Err(OutOfMemory),
    }
}

fn fault_of_line(alloc: Global, line: &str) -> Result<u64, OutOfMemory> {
    told(parted(alloc, line.as_bytes()))
}

fn fault_of_message(alloc: Global, nums: Nums, line: &str) -> Result<u64, OutOfMemory> {
    match parted(alloc, line.as_bytes()) {
        Ok(words) => told(read_message(alloc, nums, &words)),
        Err(_) => Err(OutOfMemory),
    }
}

fn fault_of_order(alloc: Global, line: &str) -> Result<u64, OutOfMemory> {
    match parted(alloc, line.as_bytes()) {
        Ok(words) => told(read_order(&words)),
        Err(_) => Err(OutOfMemory),
    }
}

const LINES: &str = r#"0 topic "A \"quoted\" name"
2  a
2 a 
2 a  b
2 
2 a "b"#;

// The lowest fault of all the words of a message.
const MESSAGES: &str = r#"6 1:a:u8
6 1:a-b:u8:1
7 65536:a:u8:1
7 01:a:u8:1
7 1:a:u9:1
7 1:a:u8:256
7 1:a:i8:-129
7 1:a:i8:-0
7 1:a:bytes:xF0
7 1:a:price:1/19
7 1:a:text:"\n"
8 0::u8:1
8 1:a:u8:1 1:b:u8:2
6 0::u8:1 1:a:u8:256 1:a-b:u8:1
7 1:a:u8:1 1:b:u8:2 3:c:u8:x
7 1:a:nums:[1]
7 1:a:nums:[]
0 0:a:u8:1 1:a:u8:2"#;

// The same where the type `nums` is known.
const NUMBERS: &str = r#"0 1:a:nums:[]
0 1:a:nums:[1,-2]
0 1:a:nums:[1,2,3,4,5,6,7,8,9,10,11,12,13,14,15,16,17,18,19,20,21,22,23,24]
7 1:a:nums:[1,2,3,4,5,6,7,8,9,10,11,12,13,14,15,16,17,18,19,20,21,22,23,24,25]
7 1:a:nums:
7 1:a:nums:1
7 1:a:nums:[
7 1:a:nums:[1
7 1:a:nums:1]
7 1:a:nums:[1]]
7 1:a:nums:[[1]
7 1:a:nums:[1,]
7 1:a:nums:[,1]
7 1:a:nums:[1,,2]
7 1:a:nums:[,]
7 1:a:nums:[01]
7 1:a:nums:[-0]
7 1:a:nums:[+1]
7 1:a:nums:[1.5]
7 1:a:nums:[9223372036854775808]
7 1:a:nums:[-9223372036854775809]
6 1:a-b:nums:[1]
7 65536:a:nums:[1]
8 1:a:nums:[1] 1:b:nums:[2]"#;

const ORDERS: &str = r#"0 stop s0.18446744073709551615
0 ask i0.1 5 1 2 3 4 5 6 7 65535
4 halt s0.1
4 stop
4 ask i0.1 5
4 ask i0.1 5 1 2 3 4 5 6 7 8 9
5 stop t0.1
5 stop s0.01
5 ask i0.1 5 0
5 ask i0.1 5 65536
8 ask i0.1 5 2 2"#;

#[test]
fn faults_of_words(rt: HostRuntime) -> Result<(), Fail> {
    for row in LINES.lines() {
        let (fault, line) = numbered(row);
        assert_eq!(rt; fault_of_line(rt.alloc(), line)?, fault, "{row}");
    }
    assert_eq!(rt; fault_of_line(rt.alloc(), "a\tb")?, 2);
    for row in MESSAGES.lines() {
        let (fault, line) = numbered(row);
        assert_eq!(rt;
            fault_of_message(rt.alloc(), Nums::Unknown, line)?,
            fault,
            "{row}"
        );
    }
    for row in NUMBERS.lines() {
        let (fault, line) = numbered(row);
        assert_eq!(rt;
            fault_of_message(rt.alloc(), Nums::Known, line)?,
            fault,
            "{row}"
        );
    }
    for row in ORDERS.lines() {
        let (fault, line) = numbered(row);
        assert_eq!(rt; fault_of_order(rt.alloc(), line)?, fault, "{row}");
    }
    Ok(())
}

// Fields in their one spelling, each type at both ends of its range.
const FIELDS: &str =
    r#"1:a:i8:-128 2:b:i8:127 3:c:i16:-32768 4:d:i32:2147483647 5:e:i64:-9223372036854775808
1:a:u8:255 2:b:u16:65535 3:c:u32:4294967295 4:d:u64:18446744073709551615 5::char:0
65535:x_1:bool:true 0:n:bool:false 3:t:text:"a: \"b\" \\" 4:b:bytes:x00ff 6:p:price:-1250/18 7:m:moment:0
1:a:nums:[] 2:b:nums:[0] 3:c:nums:[-9223372036854775808,9223372036854775807,-1]"#;

fn printed_again(alloc: Global, line: &str) -> Result<Vec<u8>, Fail> {
    let words = parted(alloc, line.as_bytes())?;
    let msg = read_message(alloc, Nums::Known, &words)?;
    let mut out = Vec::new(alloc);
    print_fields(&msg, &mut out)?;
    Ok(out)
}

#[test]
fn fields_are_printed_as_they_were_read(rt: HostRuntime) -> Result<(), Fail> {
    for line in FIELDS.lines() {
        let out = printed_again(rt.alloc(), line)?;
        assert_eq!(rt; out.first().copied(), Some(b' '));
        assert!(rt; out.ends_with(line.as_bytes()), "{line}");
        assert_eq!(rt; out.len(), line.len() + 1);
    }
    Ok(())
}

// Bytes in their one spelling, of any number.
const BLOCKS: &str = "x
x00
x0101090019ff
x000102030405060708090a0b0c0d0e0f101112131415161718191a1b1c1d1e1f202122232425262728292a2b2c2d2e2f303132333435363738393a3b3c3d3e3f";

fn block_again(alloc: Global, word: &str) -> Result<Vec<u8>, Fail> {
    let block = read_block(alloc, word.as_bytes())?;
    let mut out = Vec::new(alloc);
    print_block(&block, &mut out)?;
    Ok(out)
}

#[test]
fn blocks_are_printed_as_they_were_read(rt: HostRuntime) -> Result<(), Fail> {
    for word in BLOCKS.lines() {
        let out = block_again(rt.alloc(), word)?;
        assert!(rt; out.as_slice() == word.as_bytes(), "{word}");
    }
    for word in ["", "00", "x0", "xFF", "x0g", "X00", "x00 "] {
        assert_eq!(rt; told(read_block(rt.alloc(), word.as_bytes()))?, 7, "{word}");
    }
    let block = read_block(rt.alloc(), b"x0a10ff")?;
    assert_eq!(rt; block.as_slice(), [10, 16, 255].as_slice());
    Ok(())
}

#[test]
fn printers_append(rt: HostRuntime) -> Result<(), Fail> {
    let mut out = Vec::new(rt.alloc());
    let id = SubId {
        client: 3,
        number: 4294967295,
    };
    print_sub_kind(SubKind::Basic, &mut out)?;
    print_msg_kind(MsgKind::Recap, &mut out)?;
    print_quality(Quality::Stale, &mut out)?;
    print_object_id(ObjectId::Sub(id), &mut out)?;
    print_order(&Order::Stop(id), &mut out)?;
    print_fields(&Msg::new(rt.alloc()), &mut out)?;
    print_block(&[1], &mut out)?;
    print_group_state(GroupState::Waiting, &mut out)?;
    assert_eq!(rt;
        out.as_slice(),
        b"basicrecapstales3.4294967295stop s3.4294967295x01waiting".as_slice()
    );
    Ok(())
}
