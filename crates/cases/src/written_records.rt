//! What the writer refuses, in which order, and what it leaves. `record_table` has its ranges and lengths.
use records::record::Record;
use records::writer::write;
use std::test::Fail;

/// A record of a time, a console and a flight word.
fn of<'a>(time: Option<u32>, console: Option<u8>, flight: Option<&'a str>) -> Record<'a> {
    Record {
        time,
        kind: None,
        console,
        source: None,
        flight: flight.map(|word| word.as_bytes()),
    }
}

/// The refusal is the first in order, and the output stays.
#[test]
fn refusals_in_order(rt: HostRuntime) {
    for (time, console, flight, room, refusal) in [
        (None, None, None, 0, Some(3)),
        (Some(86_400), None, None, 0, Some(5)),
        (Some(86_399), None, None, 4, Some(15)),
        (Some(86_399), None, None, 5, None),
        (None, Some(0), None, 20, Some(5)),
        (None, Some(251), Some("A"), 20, Some(5)),
        (None, None, Some(""), 20, Some(5)),
        (None, None, Some("123456789"), 20, Some(5)),
        (None, None, Some("A`"), 0, Some(5)),
        (None, None, Some("12345678"), 9, Some(15)),
        (None, None, Some("12345678"), 10, None),
    ] {
        let mut out = [0xAAu8; 20];
        let answer = write(&of(time, console, flight), &mut out[..room.min(20)]);
        let number = answer.err().map(|refusal| refusal.number());
        assert_eq!(rt; number, refusal, "{time:?} {console:?} {flight:?}");
        assert!(rt; refusal.is_none() || out == [0xAA; 20]);
    }
}

#[test]
fn the_rest_stays(rt: HostRuntime) -> Result<(), Fail> {
    let mut out = [0xAAu8; 8];
    let length = write(&of(Some(0x0001_0203), None, Some("A")), &mut out)?;
    assert_eq!(rt; length, 7);
    assert!(rt; out == [0x11, 0, 1, 2, 3, 1, 0x41, 0xAA]);
    Ok(())
}
