//! Texts by their codes.

ghost use Rattle.std.specs.Prelude.{◌≡◌, IfSome, is_some, bytes_eq};
ghost use Rattle.std.specs.List.{AllByRecursion, list_any};
ghost use Rattle.sap_help.specs.Codes.{IsTextOf};

/// The text that stands with a code.
pub(crate) fn text_of(faults: &[(&'static str, &'static str)], code: &str) -> Option<&'static str>
    requires texts { AllByRecursion (λ f. IsTextOf f.0.now f.1.now) faults.now }
    ensures known { is_some result ≡ list_any (λ f. bytes_eq code.now f.0.now) faults.now }
    ensures begins { IfSome result (λ text. IsTextOf code.now text.now) }
{
    for (known, text) in faults {
        if code == *known {
            return Some(*text);
        }
    }
    None
}
