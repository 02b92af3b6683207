//! Whether values fit attributes.

ghost use Rattle.std.specs.Prelude.{◌≡◌, ◌&&◌};
ghost use Rattle.calculus.specs.IsDatabase.{row_fits, value_fits};
ghost use Rattle.calculus.specs.Text.{is_text};
ghost use Rattle.calculus.specs.Value.{fits};
ghost use Rattle.calculus.specs.declared.value.Kind.TheVariants.{Of};
ghost use Rattle.calculus.specs.declared.value.Value.TheVariants.{Text as Written};

use calculus::{Attr, Domain, Kind, Row, Text, Value};

/// Whether the text is no longer than the domain's are.
fn text_fits(text: &Text, domain: Domain) -> bool
    ensures { result ≡ (fits (Written text.now) domain && is_text text.now) }
{
    let length = text.bytes().len();
    match domain {
        Domain::C(width) => length <= width as usize,
        Domain::I1 => false,
        Domain::I2 => false,
        Domain::I4 => false,
    }
}

fn is_of_domain(value: &Value, domain: Domain) -> bool
    ensures { result ≡ value_fits value.now (Of domain) }
{
    match value {
        Value::Int(_) => value.fits(domain),
        Value::Text(text) => text_fits(text, domain),
    }
}

fn value_fits(value: &Value, kind: Kind) -> bool
    ensures { result ≡ value_fits value.now kind }
{
    match kind {
        Kind::Wide => false,
        Kind::Of(domain) => is_of_domain(value, domain),
    }
}

fn values_fit(attrs: &[Attr], values: &[Value]) -> bool
    ensures { result ≡ row_fits attrs.now values.now }
{
    let Some((attr, other_attrs)) = attrs.split_first() else {
        return values.is_empty();
    };
    let Some((value, other_values)) = values.split_first() else {
        return false;
    };
    value_fits(value, attr.kind) && values_fit(other_attrs, other_values)
}

/// Whether the row has a value for each attribute, and each fits.
pub(crate) fn row_fits(attrs: &[Attr], row: &Row) -> bool
    ensures { result ≡ row_fits attrs.now row.now }
{
    values_fit(attrs, row.values())
}
