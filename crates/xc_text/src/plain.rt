// Whether version 1 can say logs.
ghost use Rattle.std.specs.Prelude.{◌≡◌};
ghost use Rattle.std.specs.List.{list_all};
ghost use Rattle.xc_text.specs.Printed.{op_spelled, kind_spelled, tablet_spelled, logs_spelled, least_version};
ghost use Rattle.xc_text.specs.declared.line.Version.TheVariants.{One};

use crate::line::Version;
use xc_base::is_plain;
use xc_record::{Kind, Logs, OpAt, Ops, Tablet};

fn op_is_plain(op: &OpAt<'_>) -> bool
    ensures { result ≡ op_spelled One op.now }
{
    is_plain(op.key_bytes())
        && match op.value() {
            None => true,
            Some(value) => value.plain(),
        }
}

fn ops_are_plain(ops: &Ops) -> bool
    ensures { result ≡ list_all (op_spelled One) ops.now }
{
    for op in ops.iter() {
        if !op_is_plain(&op) {
            return false;
        }
    }
    true
}

fn kind_is_plain(kind: &Kind) -> bool
    ensures { result ≡ kind_spelled One kind.now }
{
    match kind {
        Kind::Write { ops } | Kind::Intent { ops, .. } => ops_are_plain(ops),
        Kind::Apply { .. } | Kind::Abort { .. } | Kind::Safe { .. } | Kind::Split { .. } => true,
    }
}

fn tablet_is_plain(tablet: &Tablet) -> bool
    ensures { result ≡ tablet_spelled One tablet.now }
{
    tablet
        .records
        .as_slice()
        .iter()
        .all(|entry| kind_is_plain(&entry.kind))
}

fn logs_are_plain(tablets: &[Tablet]) -> bool
    ensures { result ≡ list_all (tablet_spelled One) tablets.now }
{
    tablets.iter().all(|tablet| tablet_is_plain(tablet))
}

// The least version whose texts can say all keys and values.
pub(crate) fn least_version(logs: &Logs) -> Version
    ensures { result ≡ least_version logs.now }
{
    if logs_are_plain(logs.tablets.as_slice()) {
        Version::One
    } else {
        Version::Two
    }
}
