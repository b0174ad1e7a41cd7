// The tags of a list that a use is ruled by, each there or not. A tag that is not there says nothing.
ghost use Rattle.std.specs.Prelude.{◌≡◌, false, ◌<◌, get_or};
ghost use Rattle.schema.specs.Table.{row_count};
ghost use Rattle.ruling.specs.Rules.{said_fields, rules_of};
ghost use Rattle.checks.specs.Code.{given, of_number_tag};
ghost use Rattle.ruling.specs.Code.{of_rules};

use records::{FieldList, NumberSet};

// A NULL tag is just there or not.
#[derive(Clone, Copy)]
pub(crate) struct Rules {
    pub(crate) purpose: Option<NumberSet>,
    pub(crate) algorithm: Option<u64>,
    pub(crate) padding: Option<NumberSet>,
    pub(crate) digest: Option<NumberSet>,
    pub(crate) key_size: Option<u64>,
    // 400, 401 and 402
    pub(crate) active: Option<u64>,
    pub(crate) origination: Option<u64>,
    pub(crate) usage: Option<u64>,
    // 504 and 505
    pub(crate) auth_type: Option<u64>,
    pub(crate) auth_timeout: Option<u64>,
    // 509, 507, 508 and 305
    pub(crate) unlocked: bool,
    pub(crate) presence: bool,
    pub(crate) confirmation: bool,
    pub(crate) early_boot: bool,
    // 405 and 503
    pub(crate) use_limit: Option<u64>,
    pub(crate) no_auth: bool,
}

// The rows of these tags in the schema's table, with the fields' numbers.
const ROW_PURPOSE: usize = 0; // 1

const ROW_ALGORITHM: usize = 1; // 2

const ROW_KEY_SIZE: usize = 2; // 3

const ROW_DIGEST: usize = 3; // 5

const ROW_PADDING: usize = 4; // 6

const ROW_EARLY_BOOT: usize = 9; // 305

const ROW_ACTIVE: usize = 10; // 400

const ROW_ORIGINATION: usize = 11; // 401

const ROW_USAGE: usize = 12; // 402

const ROW_USE_LIMIT: usize = 13; // 405

const ROW_NO_AUTH: usize = 14; // 503

const ROW_AUTH_TYPE: usize = 15; // 504

const ROW_AUTH_TIMEOUT: usize = 16; // 505

const ROW_PRESENCE: usize = 18; // 507

const ROW_CONFIRMATION: usize = 19; // 508

const ROW_UNLOCKED: usize = 20; // 509

fn number_at(l: &FieldList, row: usize) -> Option<u64>
    requires { row < row_count }
    ensures { of_number_tag result ≡ given (get_or l.now.present row false) (get_or l.now.values row 0) }
{
    l.present[row].then_some(l.values[row])
}

// What the list says under each of the sixteen numbers.
pub(crate) fn rules_of(l: &FieldList) -> Rules
    ensures { of_rules result ≡ rules_of (said_fields l.now) }
{
    Rules {
        purpose: l.present[ROW_PURPOSE].then_some(l.purpose),
        algorithm: number_at(l, ROW_ALGORITHM),
        padding: l.present[ROW_PADDING].then_some(l.padding),
        digest: l.present[ROW_DIGEST].then_some(l.digest),
        key_size: number_at(l, ROW_KEY_SIZE),
        active: number_at(l, ROW_ACTIVE),
        origination: number_at(l, ROW_ORIGINATION),
        usage: number_at(l, ROW_USAGE),
        auth_type: number_at(l, ROW_AUTH_TYPE),
        auth_timeout: number_at(l, ROW_AUTH_TIMEOUT),
        unlocked: l.present[ROW_UNLOCKED],
        presence: l.present[ROW_PRESENCE],
        confirmation: l.present[ROW_CONFIRMATION],
        early_boot: l.present[ROW_EARLY_BOOT],
        use_limit: number_at(l, ROW_USE_LIMIT),
        no_auth: l.present[ROW_NO_AUTH],
    }
}
