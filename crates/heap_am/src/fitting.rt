//! Whether a row is one of the domains.

ghost use Rattle.std.specs.Prelude.{◌≡◌, ◌&&◌};
ghost use Rattle.calculus.specs.IsDatabase.{value_fits};
ghost use Rattle.calculus.specs.Text.{is_text};
ghost use Rattle.calculus.specs.Value.{fits};
ghost use Rattle.calculus.specs.declared.value.Kind.TheVariants.{Of};
ghost use Rattle.calculus.specs.declared.value.Value.TheVariants.{Text as Written};
ghost use Rattle.page_cells.specs.RowBytes.{is_row};

use calculus::{Domain, Row, Text, Value};

/// Whether the text is no longer than the domain's are.
fn text_fits(text: &Text, domain: Domain) -> bool
    ensures { result ≡ (fits (Written text.now) domain && is_text text.now) }
{
    let length = text.bytes().len();
    match domain {
        Domain::C(width) => length <= width as usize,
        Domain::I1 => false,
        Domain::I2 => false,
        Domain::I4 => false,
    }
}

fn value_fits(value: &Value, domain: Domain) -> bool
    ensures { result ≡ value_fits value.now (Of domain) }
{
    match value {
        Value::Int(_) => value.fits(domain),
        Value::Text(text) => text_fits(text, domain),
    }
}

fn values_fit(values: &[Value], domains: &[Domain]) -> bool
    ensures { result ≡ is_row values.now domains.now }
{
    let Some((value, other_values)) = values.split_first() else {
        return domains.is_empty();
    };
    let Some((domain, other_domains)) = domains.split_first() else {
        return false;
    };
    value_fits(value, *domain) && values_fit(other_values, other_domains)
}

/// Whether the row has a value for each domain, and each is one of it.
pub(crate) fn is_row(row: &Row, domains: &[Domain]) -> bool
    ensures { result ≡ is_row row.now domains.now }
{
    values_fit(row.values(), domains)
}
