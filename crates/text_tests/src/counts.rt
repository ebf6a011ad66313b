//! Counts of the lines that are answered, as standard error is told them.
use line_tally::{Count, Lines, Tally};
use std::process::Abort;

/// Expects the text of a count.
fn expect_count<R: Abort + AllocGlobal>(rt: &R, count: Count, text: &str) {
    let told = format!(in rt.alloc(); "{count}").expect(rt, "memory");
    assert_eq!(rt; told.as_str(), text);
}

/// A count of so many lines out of 100, of which so many were skipped, after so many seconds.
fn of_hundred(number: u64, skipped: u32, seconds: u32) -> Count {
    Count {
        number,
        lines: Lines::Known(100),
        skipped,
        seconds,
    }
}

// 20 lines in 2 s leave 80 lines, which take 8 s. With 10 of them skipped it was 10 lines in 2 s, and the others take 16 s.
#[test]
fn counts_lines_and_the_time_that_is_left(rt: HostRuntime) {
    expect_count(
        &rt,
        of_hundred(20, 0, 2),
        "20 of 100 lines, 8 s to go at this rate",
    );
    expect_count(
        &rt,
        of_hundred(20, 10, 2),
        "20 of 100 lines, 16 s to go at this rate",
    );
    expect_count(
        &rt,
        of_hundred(50, 0, 119),
        "50 of 100 lines, 119 s to go at this rate",
    );
    expect_count(
        &rt,
        of_hundred(50, 0, 120),
        "50 of 100 lines, 2 minutes to go at this rate",
    );
    expect_count(
        &rt,
        of_hundred(1, 0, 100),
        "1 of 100 lines, 165 minutes to go at this rate",
    );
    expect_count(
        &rt,
        of_hundred(100, 0, 7),
        "100 of 100 lines, 0 s to go at this rate",
    );
}

// A file has grown since its lines were counted, or nothing is known of them.
#[test]
fn counts_lines_whose_number_is_not_known(rt: HostRuntime) {
    expect_count(&rt, of_hundred(101, 0, 7), "101 lines, 7 s");
    expect_count(&rt, of_hundred(5, 5, 7), "5 lines, 7 s");
    let unknown = Count {
        number: 18446744073709551615,
        lines: Lines::of(0),
        skipped: 0,
        seconds: 4294967295,
    };
    expect_count(&rt, unknown, "18446744073709551615 lines, 4294967295 s");
    let one = Count {
        number: 1,
        lines: Lines::of(1),
        skipped: 0,
        seconds: 1,
    };
    expect_count(&rt, one, "1 of 1 lines, 0 s to go at this rate");
}

// At most one count a second is drawn. A message stands on a line of its own, without the count before it.
#[test]
fn draws_once_a_second_and_clears_before_a_message(rt: HostRuntime) {
    let mut tally = Tally::new(&rt, Some(Lines::Known(100)), 0);
    let mut errors = Vec::new(rt.alloc());
    assert!(rt; tally.due(1, 0).is_none());
    tally.message(&mut errors, b"first\n").expect(&rt, "memory");
    let drawn = tally.due(20, 2).expect(&rt, "a count");
    expect_count(&rt, drawn, "20 of 100 lines, 8 s to go at this rate");
    assert!(rt; tally.due(21, 2).is_none());
    tally.message(&mut errors, b"").expect(&rt, "memory");
    tally
        .message(&mut errors, b"second\n")
        .expect(&rt, "memory");
    tally.message(&mut errors, b"third\n").expect(&rt, "memory");
    assert!(rt; tally.due(22, 3).is_some());
    tally.clear(&mut errors).expect(&rt, "memory");
    tally.clear(&mut errors).expect(&rt, "memory");
    assert_eq!(rt;
        errors.as_slice(),
        b"first\n\r\x1b[Ksecond\nthird\n\r\x1b[K".as_slice()
    );
    let mut quiet = Tally::new(&rt, None, 0);
    quiet.tell(&rt, 20, &mut errors).expect(&rt, "memory");
    assert_eq!(rt; errors.len(), 27);
}
