use super::*;
use std::alloc::Global;
use std::test::Fail;

fn value_printed(alloc: Global, units: i64) -> Result<String, Fail> {
    let mut out = Vec::new(alloc);
    value_text(Value::of_units(units).ok_or("a value")?, &mut out)?;
    Ok(String::from_utf8(out)?)
}

fn fraction_printed(alloc: Global, num: i128, den: u64) -> Result<String, Fail> {
    let mut out = Vec::new(alloc);
    frac_text(Frac::of(num, den).ok_or("a fraction")?, &mut out)?;
    Ok(String::from_utf8(out)?)
}

#[test]
fn values_are_printed(rt: HostRuntime) -> Result<(), Fail> {
    let rows = [
        (300_000, "0.3"),
        (1, "0.000001"),
        (0, "0.0"),
        (-1, "-0.000001"),
        (-500_000, "-0.5"),
        (1_000_000, "1.0"),
        (-12_345_678, "-12.345678"),
        (10_020_300, "10.0203"),
        (1_000_000_000_000_000_000, "1000000000000.0"),
        (-1_000_000_000_000_000_000, "-1000000000000.0"),
    ];
    for (units, text) in rows {
        assert_eq!(rt; value_printed(rt.alloc(), units)?.as_str(), text);
    }
    Ok(())
}

#[test]
fn fractions_are_printed(rt: HostRuntime) -> Result<(), Fail> {
    let rows = [
        (5_000_000, 3, "1.666667"),
        (-5_000_000, 3, "-1.666667"),
        (4_000_000, 3, "1.333333"),
        (1, 2, "0.000001"),
        (-1, 2, "-0.000001"),
        (3, 2, "0.000002"),
        (-3, 2, "-0.000002"),
        (1, 3, "0.0"),
        (-1, 3, "0.0"),
        (0, 7, "0.0"),
        (
            100_000_000_000_000_000_000_000_000_000_000_000_000,
            1,
            "100000000000000000000000000000000.0",
        ),
        (
            -100_000_000_000_000_000_000_000_000_000_000_000_000,
            18_446_744_073_709_551_615,
            "-5421010862427.52217",
        ),
    ];
    for (num, den, text) in rows {
        assert_eq!(rt; fraction_printed(rt.alloc(), num, den)?.as_str(), text);
    }
    Ok(())
}

#[test]
fn other_scales_are_printed(rt: HostRuntime) -> Result<(), Fail> {
    let rows = [
        (9, 60_000_000_000, "60.0"),
        (3, 1_005, "1.005"),
        (0, 7, "7."),
    ];
    for (places, units, text) in rows {
        let mut out = Vec::new(rt.alloc());
        scaled_text(places, units, &mut out)?;
        assert_eq!(rt; String::from_utf8(out)?.as_str(), text);
    }
    Ok(())
}

#[test]
fn stamps_are_floored(rt: HostRuntime) -> Result<(), Fail> {
    let second = 1_000_000_000;
    let at = Stamp::of_nanos(7_325 * second + 5).ok_or("a stamp")?;
    let minute = Span::of_nanos(60 * second).ok_or("a span")?;
    assert_eq!(rt; floor(at, minute).nanos(), 7_320 * second);
    let split = Span::of_nanos(second).ok_or("a span")?;
    assert_eq!(rt; split_key(at, split).nanos(), 7_200 * second);
    let month = Span::of_nanos(2_592_000 * second).ok_or("a span")?;
    assert_eq!(rt; split_key(at, month).nanos(), 0);
    Ok(())
}

#[test]
fn values_are_read(rt: HostRuntime) -> Result<(), Fail> {
    let rows = [
        ("0.30000000000000004", "0.3"),
        ("5e-7", "0.000001"),
        ("-5e-7", "-0.000001"),
        ("1e-7", "0.0"),
        ("1000000000000", "1000000000000.0"),
        ("-12.5E+1", "-125.0"),
    ];
    for (token, text) in rows {
        let value = read_value(token.as_bytes()).ok().ok_or("a value")?;
        assert_eq!(rt; value_printed(rt.alloc(), value.units())?.as_str(), text);
    }
    assert_eq!(rt; read_value(b"1000000000001"), Err(NumFault::TooLarge));
    assert_eq!(rt; read_value(b"NaN"), Err(NumFault::NotANumber));
    assert_eq!(rt; read_value(&[b'1'; 65]), Err(NumFault::TooLong));
    Ok(())
}

#[test]
fn rows_of_digits_are_read(rt: HostRuntime) -> Result<(), Fail> {
    let (digits, rest) = split_digits(b"12a3");
    assert_eq!(rt; digits, b"12".as_slice());
    assert_eq!(rt; rest, b"a3".as_slice());
    assert_eq!(rt; number_onto(1, b"23"), 123);
    assert_eq!(rt; number_onto(0, b"18446744073709551616"), u64::MAX);
    assert!(rt; are_digits(b"07"));
    assert!(rt; !are_digits(b"0x7"));
    assert_eq!(rt; skip(b'-', b"-5").1, b"5".as_slice());
    assert_eq!(rt; fraction_at(b".5s").ok_or("a fraction")?.1, b"s".as_slice());
    let number = read_number(b"-1.25e1").ok_or("a number")?;
    assert!(rt; number.is_negative());
    assert!(rt; !number.is_zero());
    assert_eq!(rt; number.scaled(0).rounded(), 13);
    Ok(())
}
