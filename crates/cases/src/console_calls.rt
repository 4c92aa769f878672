//! The calls of a console on a small log, and what they leave after each refusal.
use console::log_count::{CountNumbers, count_in_log};
use console::log_page::page_of_log;
use console::number_page::page_of_numbers;
use console::page::{Line, PageNumbers};
use console::part::Part;
use console::reading::{Reading, check};

/// Six records, of the flight words A, B, C, C, A and A.
const LOG: &[u8] = b"\x10\x01A\x10\x01B\x10\x01C\x10\x01C\x10\x01A\x10\x01A";

/// What is there before a call, to tell what it writes.
const UNREAD: Reading = Reading {
    records: 77,
    offset: 77,
    fault: 77,
};

const NO_NUMBERS: PageNumbers = PageNumbers {
    n: 77,
    l: 77,
    lines: 77,
};

const NO_COUNT: CountNumbers = CountNumbers {
    n: 77,
    l: 77,
    count: 77,
    upper: 77,
};

const NO_LINE: Line = Line {
    first: Part::NONE,
    second: Part::NONE,
    count: 77,
    upper: 77,
};

/// A line of a key of one byte.
fn line(key: u8, count: u32, upper: u32) -> Line {
    Line {
        first: Part {
            bytes: [key, 0, 0, 0, 0, 0, 0, 0],
            length: 1,
        },
        second: Part::NONE,
        count,
        upper,
    }
}

/// Lenses and k that are refused write nothing; a low limit and a short output write the numbers.
#[test]
fn pages(rt: HostRuntime) {
    for (lenses, k, limit, room, answer, n, l, lines) in [
        ((0, 0), 8, 1, 7, 1, 77, 77, 77),
        ((3, 0), 8, 1, 7, 1, 77, 77, 77),
        ((289, 0), 8, 1, 7, 1, 77, 77, 77),
        ((2, 3), 8, 1, 7, 1, 77, 77, 77),
        ((2, 0), 1, 1, 7, 1, 77, 77, 77),
        ((2, 0), 1025, 1, 7, 1, 77, 77, 77),
        ((2, 0), 8, 0, 7, 8, 6, 0, 0),
        ((2, 0), 8, 1, 7, 9, 6, 0, 0),
        ((2, 0), 2, 1, 2, 8, 6, 1, 0),
        ((2, 0), 2, 2, 2, 0, 6, 1, 2),
        ((2, 0), 2, 3, 2, 0, 6, 1, 1),
    ] {
        let mut output = [NO_LINE; 7];
        let mut reading = UNREAD;
        let mut numbers = NO_NUMBERS;
        let (first, second) = lenses;
        let answered = page_of_log(
            LOG,
            first,
            second,
            k,
            limit,
            &mut output[..room.min(7)],
            &mut reading,
            &mut numbers,
        );
        assert_eq!(rt; answered, answer, "{first} {second} {k} {limit}");
        assert_eq!(rt;
            numbers,
            PageNumbers { n, l, lines },
            "{first} {second} {k} {limit}"
        );
        assert!(rt; lines == 77 || lines == 0 || output[0] == line(65, 2, 3));
        assert!(rt; lines == 2 || output[1] == NO_LINE);
    }
}

/// A torn log has a page too, and is checked.
#[test]
fn torn(rt: HostRuntime) {
    for (log, records, fault, count) in [(LOG, 6, 0, 3), (&LOG[..17], 5, 4, 2)] {
        let mut lines = [NO_LINE; 8];
        let mut reading = UNREAD;
        let mut numbers = NO_NUMBERS;
        let answer = page_of_log(log, 2, 0, 8, 1, &mut lines, &mut reading, &mut numbers);
        assert_eq!(rt; (answer, numbers.lines), (0, 3));
        assert_eq!(rt; (reading.records, reading.fault), (records, fault));
        assert_eq!(rt; lines[0], line(65, count, count));
        let mut checked = UNREAD;
        assert_eq!(rt; (check(log, &mut checked), checked), (fault, reading));
    }
}

/// The kind 7 with the address 10.1.2.3, and the kind 9 without an address, by the kind and 8 bits of the address.
#[test]
fn pairs(rt: HostRuntime) {
    let log = b"\x0A\x07\x0A\x01\x02\x03\x02\x09";
    let mut lines = [NO_LINE; 2];
    let mut reading = UNREAD;
    let mut numbers = NO_NUMBERS;
    let answer = page_of_log(log, 1, 264, 2, 1, &mut lines, &mut reading, &mut numbers);
    assert_eq!(rt; (answer, numbers.n, numbers.lines), (0, 1, 1));
    let network = Part {
        bytes: [10, 0, 0, 0, 8, 0, 0, 0],
        length: 5,
    };
    assert_eq!(rt;
        (lines[0].first, lines[0].second),
        (line(7, 0, 0).first, network)
    );
    let mut count = NO_COUNT;
    let held = count_in_log(
        log,
        1,
        264,
        2,
        b"\x07",
        b"\x0A\0\0\0\x08",
        &mut reading,
        &mut count,
    );
    assert_eq!(rt; (held, count.count, count.upper), (0, 1, 1));
}

#[test]
fn counts(rt: HostRuntime) {
    for (lenses, k, word, other, answer, wanted) in [
        ((3, 0), 8, "A", "", 1, NO_COUNT),
        ((2, 0), 1, "A", "", 1, NO_COUNT),
        ((2, 0), 8, "a", "", 1, NO_COUNT),
        ((2, 0), 8, "A", "A", 1, NO_COUNT),
        ((2, 2), 8, "A", "", 1, NO_COUNT),
        (
            (2, 0),
            8,
            "A",
            "",
            0,
            CountNumbers {
                n: 6,
                l: 0,
                count: 3,
                upper: 3,
            },
        ),
        (
            (2, 0),
            2,
            "B",
            "",
            0,
            CountNumbers {
                n: 6,
                l: 1,
                count: 0,
                upper: 1,
            },
        ),
    ] {
        let mut reading = UNREAD;
        let mut count = NO_COUNT;
        let (first, second) = lenses;
        let answered = count_in_log(
            LOG,
            first,
            second,
            k,
            word.as_bytes(),
            other.as_bytes(),
            &mut reading,
            &mut count,
        );
        assert_eq!(rt;
            (answered, count),
            (answer, wanted),
            "{first} {second} {k} {word} {other}"
        );
        assert!(rt; answer == 0 || reading == UNREAD);
    }
}

#[test]
fn numbers(rt: HostRuntime) {
    let seven = Part {
        bytes: [0, 0, 0, 7, 0, 0, 0, 0],
        length: 4,
    };
    for (k, limit, answer, lines, first) in [
        (1, 1, 1, 77, Part::NONE),
        (1025, 1, 1, 77, Part::NONE),
        (4, 1, 9, 0, Part::NONE),
        (3, 2, 0, 1, seven),
    ] {
        let mut output = [NO_LINE; 3];
        let mut numbers = NO_NUMBERS;
        let answered = page_of_numbers(&[7, 300, 7, 5], k, limit, &mut output, &mut numbers);
        assert_eq!(rt; (answered, numbers.lines), (answer, lines), "{k} {limit}");
        assert_eq!(rt;
            (output[0].first, output[1]),
            (first, NO_LINE),
            "{k} {limit}"
        );
    }
}
