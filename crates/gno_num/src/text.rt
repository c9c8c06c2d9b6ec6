// The printed forms of numbers.
ghost use Rattle.std.specs.Prelude.{◌≡◌, ◌++◌, ◌∷◌, ◌<◌, ◌≤◌, ◌^◌, OnOk, OnErr, if◌then◌else◌};
ghost use Rattle.gno_num.specs.Value.{value_read};
ghost use Rattle.gno_num.specs.Text.{units_text, fraction_text, fraction_digits, point_text};

use crate::{Frac, Memory, Value};

/// Appends the printed form of a value: the whole part, a point, and the digits of the fraction
/// without zeros at its end, but at least one.
pub fn value_text(value: Value, out: &mut Vec<u8>) -> Result<(), Memory>
    ensures ok { OnOk result (out.new.items ≡ out.old.items ++ units_text value) }
    ensures err { OnErr result (out.new.items ≡ out.old.items) }

    // It is read back.
    ensures again { value_read (units_text value) ≡ Ok value }
{
    let units = value.units();
    append_signed(units < 0, 6, u128::from(units.unsigned_abs()), out)
}

/// Appends a fraction, rounded to the nearest unit with ties away from zero, as a value is printed.
pub fn frac_text(value: Frac, out: &mut Vec<u8>) -> Result<(), Memory>
    ensures ok { OnOk result (out.new.items ≡ out.old.items ++ fraction_text value) }
    ensures err { OnErr result (out.new.items ≡ out.old.items) }
{
    let num = value.num();
    let den = u128::from(value.den());
    let units = (2 * num.unsigned_abs() + den) / (2 * den);
    append_signed(num < 0 && units > 0, 6, units, out)
}

/// Appends so many units of 10^-places: the whole part, a point, and the digits of the fraction
/// without zeros at its end, but at least one.
pub fn scaled_text(places: u32, units: u64, out: &mut Vec<u8>) -> Result<(), Memory>
    requires { places ≤ 18 }
    ensures ok { OnOk result (out.new.items ≡ out.old.items ++ point_text places units) }
    ensures err { OnErr result (out.new.items ≡ out.old.items) }
{
    append_signed(false, places, u128::from(units), out)
}

// The same, with a `-` in front where asked.
fn append_signed(negative: bool, places: u32, units: u128, out: &mut Vec<u8>) -> Result<(), Memory>
    requires { places ≤ 18 }
    ensures ok { OnOk result (out.new.items ≡ out.old.items ++
        (if negative then 45 ∷ point_text places units else point_text places units)) }
    ensures err { OnErr result (out.new.items ≡ out.old.items) }
{
    let scale = 10u64.pow(places);
    let whole = units / u128::from(scale);
    let fraction = (units % u128::from(scale)) as u64;
    let sign = if negative { "-" } else { "" };
    let mut text = format!(in *out.allocator(); "{sign}{whole}.")?.into_bytes();
    push_fraction(places, fraction, &mut text)?;
    out.extend_from_slice(&text)?;
    Ok(())
}

// Appends the digits of a fraction of so many places, without zeros at its end but at least one.
#[tactic(auto, unfolding(crate::specs::Text::fraction_digits))]
fn push_fraction(places: u32, fraction: u64, text: &mut Vec<u8>) -> Result<(), Memory>
    requires few { places ≤ 18 }
    requires fits { fraction < 10 ^ places }
    ensures { OnOk result (text.new.items ≡ text.old.items ++ fraction_digits places fraction) }
{
    if places == 0 {
        return Ok(());
    }
    let unit = 10u64.pow(places - 1);
    text.push(b'0' + (fraction / unit) as u8)?;
    let rest = fraction % unit;
    if rest == 0 {
        Ok(())
    } else {
        push_fraction(places - 1, rest, text)
    }
}
