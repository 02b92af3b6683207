//! Whether a message is due.

ghost use Rattle.std.specs.Prelude.{◌≡◌};
ghost use Rattle.quel_network.specs.Spelling.{is_of_kind, row_suits};
ghost use Rattle.monitor.specs.Standing.{is_due_here, row_stands};

use calculus::{Column, Kind, List, Row, Value};
use message_codec::StageMessage;

/// Whether the value is of the kind.
fn is_of_kind(kind: &Kind, value: &Value) -> bool
    ensures { result ≡ is_of_kind kind.now value.now }
{
    match kind {
        Kind::Of(domain) => value.fits(*domain),
        Kind::Wide => match value {
            Value::Int(_) => true,
            Value::Text(_) => false,
        },
    }
}

/// Whether these values suit the columns.
fn row_suits(columns: &[Column], values: &[Value]) -> bool
    ensures { result ≡ row_suits columns.now values.now }
{
    let Some((column, other_columns)) = columns.split_first() else {
        return values.is_empty();
    };
    let Some((value, other_values)) = values.split_first() else {
        return false;
    };
    is_of_kind(&column.kind, value) && row_suits(other_columns, other_values)
}

/// Whether a row may stand behind what was begun.
fn row_stands(begun: &Option<List<Column>>, row: &Row) -> bool
    ensures { result ≡ row_stands begun.now row.now }
{
    match begun {
        Some(columns) => row_suits(columns.items(), row.values()),
        None => false,
    }
}

/// Whether a message is due behind what was begun.
pub(crate) fn is_due(begun: &Option<List<Column>>, said: &StageMessage) -> bool
    ensures { result ≡ is_due_here begun.now said.now }
{
    match said {
        StageMessage::Row(row) => row_stands(begun, row),
        StageMessage::Head(_) => true,
        StageMessage::Done => true,
        StageMessage::Refused(_) => true,
        StageMessage::End => true,
        StageMessage::Text(_) => false,
        StageMessage::Tree(_) => false,
        StageMessage::Change(_) => false,
        StageMessage::Quit => false,
    }
}
