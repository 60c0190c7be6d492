//! The real number that a text is.

ghost use Rattle.std.specs.Prelude.{IsTrue, IfSome};
ghost use Rattle.std.specs.Float.{float_is_finite};

/// The number, as `1.5` or `1e+20`; blanks around it don't count. None if the text is not a number, or if it is past what 64 bits have.
pub(crate) fn real_of(text: &str) -> Option<f64>
    ensures { IfSome result (λ number. IsTrue (float_is_finite number)) }
{
    match text.trim().parse::<f64>() {
        Ok(number) if number.is_finite() => Some(number),
        _ => None,
    }
}
